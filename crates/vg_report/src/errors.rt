//! Why a text is no report.
ghost use Rattle.std.specs.Prelude.{◌≡◌};
ghost use Rattle.vg_report.specs.declared.errors.ReportCause.TheVariants.{Memory as OutOfMemory};

use std::alloc::AllocError;
use std::error::Error;
use std::fmt;

/// Why a text is no report.
#[derive(Clone, Copy, Debug, PartialEq, Eq)]
pub enum ReportCause {
    /// The line's words aren't those of its kind: one is missing, one is too many, or a fixed one is another. Or no line of this kind may
    /// stand here. Or the text stops before `end`, goes on behind it, or leaves out the last line feed. Or one of `congested` and
    /// `congestion` stands without the other.
    Form,
    /// A number isn't in decimal digits without leading zeros, or is out of its range; or the legs of a packet aren't one to four
    /// pairs `worker:generation` parted by `,`.
    Number,
    /// A name isn't 1 to 32 letters, digits, `-`, `_` and `.`, repeats where names differ, or isn't declared; or there is no such
    /// error.
    Unknown,
    /// A running number or an error isn't the next.
    Order,
    /// Memory ran out.
    Memory,
}

/// The line and the cause of a refusal.
#[derive(Clone, Copy, Debug, PartialEq, Eq)]
pub struct ReportError {
    /// Counted from 1; 0 where memory ran out. Where the text ends before `end`, it is one more than the lines that there are.
    pub line: u32,
    pub cause: ReportCause,
}

impl fmt::Display for ReportCause {
    fn fmt<W: fmt::Write>(&self, f: &mut fmt::Formatter<W>) -> fmt::Result {
        f.write_str(match self {
            ReportCause::Form => "no such line may stand here",
            ReportCause::Number => "a number is misspelled or out of its range",
            ReportCause::Unknown => "a name or an error isn't known, or a name stands twice",
            ReportCause::Order => "a running number or an error isn't the next",
            ReportCause::Memory => "memory ran out",
        })
    }
}

impl Error for ReportCause {}

impl From<AllocError> for ReportCause {
    ghost from_gives = { λ _ cause. cause ≡ OutOfMemory };

    fn from(_error: AllocError) -> ReportCause {
        ReportCause::Memory
    }
}

impl From<AllocError> for ReportError {
    ghost from_gives = { λ _ error. error ≡ record { line = 0; cause = OutOfMemory } };

    fn from(_error: AllocError) -> ReportError {
        ReportError {
            line: 0,
            cause: ReportCause::Memory,
        }
    }
}

impl fmt::Display for ReportError {
    fn fmt<W: fmt::Write>(&self, f: &mut fmt::Formatter<W>) -> fmt::Result {
        let line = self.line;
        let cause = self.cause;
        match cause {
            ReportCause::Memory => write!(f, "{cause}"),
            _ => write!(f, "line {line}: {cause}"),
        }
    }
}

impl Error for ReportError {}
