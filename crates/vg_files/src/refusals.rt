//! Why a call is refused.
ghost use Rattle.std.specs.Prelude.{◌≡◌, [], ◌∷◌, ◌++◌, codes, decimal, IfOk, string_bytes};
ghost use Rattle.vg_files.specs.Refusals.{status_of, line_of, capture_fault, script_fault, report_cause, verdict_words};

use std::alloc::{AllocError, Global};
use vg_capture::CaptureError;
use vg_check::Verdict;
use vg_report::ReportCause;
use vg_script::ScriptError;

/// Why a call is refused, with the name of the file where it was one.
#[derive(Clone, Copy, Debug)]
pub enum Refusal<'a> {
    /// The words ask for nothing that there is.
    Usage,
    /// This file could not be loaded.
    Load(&'a str),
    /// The capture is no savefile that is read here.
    Capture(CaptureError),
    /// The script is not one that makes a graph.
    Script(ScriptError),
    /// The turns file has a faulty byte at this place, counted from 0.
    Turns(u32),
    /// This file could not be saved.
    Save(&'a str),
    /// The savefile and the report that are checked are not what any run puts out: a verdict that is not yes.
    Verdict(Verdict),
}

/// Why a run stops before anything was saved.
#[derive(Clone, Copy, Debug)]
pub enum Stop<'a> {
    /// Memory ran out.
    Memory,
    /// The run is refused.
    Refused(Refusal<'a>),
}

impl Refusal<'_> {
    /// The exit status: 2 for the words, 3 for a load, 4 for the capture, 5 for the script, 6 for the save, 8 for the turns file, 9 for a verdict.
    pub fn status(&self) -> u8
        ensures { result ≡ status_of self.now }
    {
        match self {
            Refusal::Usage => 2,
            Refusal::Load(_) => 3,
            Refusal::Capture(_) => 4,
            Refusal::Script(_) => 5,
            Refusal::Turns(_) => 8,
            Refusal::Save(_) => 6,
            Refusal::Verdict(_) => 9,
        }
    }

    /// The line that is printed for the user: the cause in one word, and then where.
    pub fn line(&self, alloc: Global) -> Result<String, AllocError>
        ensures { IfOk result (λ line. string_bytes line ≡ line_of self.now) }
    {
        match self {
            Refusal::Usage => String::from_str(alloc, "usage\n"),
            Refusal::Load(name) => format!(in alloc; "load {name}\n"),
            Refusal::Capture(fault) => capture_line(alloc, *fault),
            Refusal::Script(fault) => script_line(alloc, *fault),
            Refusal::Turns(place) => format!(in alloc; "turns {place}\n"),
            Refusal::Save(name) => format!(in alloc; "save {name}\n"),
            Refusal::Verdict(verdict) => verdict_line(alloc, *verdict),
        }
    }
}

/// The line of a capture's fault: its cause and its place in the file.
fn capture_line(alloc: Global, fault: CaptureError) -> Result<String, AllocError>
    ensures { IfOk result (λ line. string_bytes line ≡ codes "capture " ++ capture_fault fault ++ 10 ∷ []) }
{
    match fault {
        CaptureError::TooLarge => String::from_str(alloc, "capture too-large 16777216\n"),
        CaptureError::NotPcap => String::from_str(alloc, "capture not-pcap 0\n"),
        CaptureError::Version { .. } => String::from_str(alloc, "capture version 4\n"),
        CaptureError::LinkType(_) => String::from_str(alloc, "capture link-type 20\n"),
        CaptureError::Truncated { offset } => format!(in alloc; "capture truncated {offset}\n"),
        CaptureError::RecordTooLong { offset } => {
            format!(in alloc; "capture record-too-long {offset}\n")
        }
        CaptureError::TooManyPackets { offset } => {
            format!(in alloc; "capture too-many-packets {offset}\n")
        }
        CaptureError::Memory => String::from_str(alloc, "capture memory 0\n"),
    }
}

/// The line of a script's fault: the line of the script and the cause.
fn script_line(alloc: Global, fault: ScriptError) -> Result<String, AllocError>
    ensures { IfOk result (λ line. string_bytes line ≡ codes "script " ++ script_fault fault ++ 10 ∷ []) }
{
    line_and_cause(alloc, fault.line, fault.cause.word())
}

fn line_and_cause(alloc: Global, line: u32, cause: &str) -> Result<String, AllocError>
    ensures { IfOk result (λ text. string_bytes text ≡ codes "script " ++ (decimal line ++ 32 ∷ cause.now) ++ 10 ∷ []) }
{
    format!(in alloc; "script {line} {cause}\n")
}

/// The word for the cause of a line that no report has.
fn report_word(cause: ReportCause) -> &'static str
    ensures { result.now ≡ report_cause cause }
{
    match cause {
        ReportCause::Form => "form",
        ReportCause::Number => "number",
        ReportCause::Unknown => "unknown",
        ReportCause::Order => "order",
        ReportCause::Memory => "memory",
    }
}

/// The line of a verdict on a report's text: the line of the text and the cause.
fn report_line(alloc: Global, line: u32, cause: &str) -> Result<String, AllocError>
    ensures { IfOk result (λ text. string_bytes text ≡ codes "no report " ++ (decimal line ++ 32 ∷ cause.now) ++ 10 ∷ []) }
{
    format!(in alloc; "no report {line} {cause}\n")
}

/// The line of a verdict: `yes`, or `no`, what is not as it must be, and where.
fn verdict_line(alloc: Global, verdict: Verdict) -> Result<String, AllocError>
    ensures { IfOk result (λ line. string_bytes line ≡ verdict_words verdict ++ 10 ∷ []) }
{
    match verdict {
        Verdict::Yes => String::from_str(alloc, "yes\n"),
        Verdict::Report { line, cause } => report_line(alloc, line, report_word(cause)),
        Verdict::Head => String::from_str(alloc, "no head\n"),
        Verdict::Choices(number) => format!(in alloc; "no choices {number}\n"),
        Verdict::Queue(number) => format!(in alloc; "no queue {number}\n"),
        Verdict::Text => String::from_str(alloc, "no text\n"),
        Verdict::Tx => String::from_str(alloc, "no tx\n"),
    }
}
