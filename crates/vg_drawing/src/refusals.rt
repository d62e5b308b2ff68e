//! Why nothing is drawn.
ghost use Rattle.std.specs.Prelude.{◌≡◌, [], ◌∷◌, ◌++◌, codes, decimal, IfOk, string_bytes};
ghost use Rattle.vg_drawing.specs.Run.{status_of, line_of, report_word, script_stop as script_stop_of, report_stop as report_stop_of};

use std::alloc::{AllocError, Global};
use vg_report::{ReportCause, ReportError};
use vg_script::{ScriptCause, ScriptError};

/// Why nothing is drawn, with the name of the file where it was one.
#[derive(Clone, Copy, Debug)]
pub enum Refusal<'a> {
    /// The words ask for no drawing.
    Usage,
    /// The words ask for a generation that the script doesn't make: it makes so many.
    Generation(u32),
    /// This file could not be loaded.
    Load(&'a str),
    /// The script is not one that makes a graph.
    Script(ScriptError),
    /// The report is none.
    Report(ReportError),
}

/// Why nothing is printed but a refusal.
#[derive(Clone, Copy, Debug)]
pub enum Stop<'a> {
    /// Memory ran out.
    Memory,
    /// The drawing is refused.
    Refused(Refusal<'a>),
}

/// What a script's fault stops the drawing with.
pub fn script_stop<'a>(fault: ScriptError) -> Stop<'a>
    ensures { result ≡ script_stop_of fault }
{
    match fault.cause {
        ScriptCause::Memory => Stop::Memory,
        _ => Stop::Refused(Refusal::Script(fault)),
    }
}

/// What a report's fault stops the drawing with.
pub fn report_stop<'a>(fault: ReportError) -> Stop<'a>
    ensures { result ≡ report_stop_of fault }
{
    match fault.cause {
        ReportCause::Memory => Stop::Memory,
        _ => Stop::Refused(Refusal::Report(fault)),
    }
}

// The word for a report's fault.
fn cause_word(cause: ReportCause) -> &'static str
    ensures { result.now ≡ report_word cause }
{
    match cause {
        ReportCause::Form => "form",
        ReportCause::Number => "number",
        ReportCause::Unknown => "unknown",
        ReportCause::Order => "order",
        ReportCause::Memory => "memory",
    }
}

impl Refusal<'_> {
    /// The exit status: 2 for the words, 3 for a load, 5 for the script, 9 for the report.
    pub fn status(&self) -> u8
        ensures { result ≡ status_of self.now }
    {
        match self {
            Refusal::Usage | Refusal::Generation(_) => 2,
            Refusal::Load(_) => 3,
            Refusal::Script(_) => 5,
            Refusal::Report(_) => 9,
        }
    }

    /// The line that tells the user: the cause in one word, and then where.
    pub fn line(&self, alloc: Global) -> Result<String, AllocError>
        ensures { IfOk result (λ line. string_bytes line ≡ line_of self.now) }
    {
        match self {
            Refusal::Usage | Refusal::Generation(_) => String::from_str(alloc, "usage\n"),
            Refusal::Load(name) => format!(in alloc; "load {name}\n"),
            Refusal::Script(fault) => script_line(alloc, fault.line, fault.cause.word()),
            Refusal::Report(fault) => report_line(alloc, fault.line, cause_word(fault.cause)),
        }
    }
}

fn script_line(alloc: Global, line: u32, cause: &str) -> Result<String, AllocError>
    ensures { IfOk result (λ text. string_bytes text ≡ codes "script " ++ (decimal line ++ 32 ∷ cause.now) ++ 10 ∷ []) }
{
    format!(in alloc; "script {line} {cause}\n")
}

fn report_line(alloc: Global, line: u32, cause: &str) -> Result<String, AllocError>
    ensures { IfOk result (λ text. string_bytes text ≡ codes "report " ++ (decimal line ++ 32 ∷ cause.now) ++ 10 ∷ []) }
{
    format!(in alloc; "report {line} {cause}\n")
}
