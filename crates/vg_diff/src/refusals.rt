//! Why nothing is compared.
ghost use Rattle.std.specs.Prelude.{◌≡◌, ◌≤◌, IfOk, string_bytes};
ghost use Rattle.vg_diff.specs.Refusals.{status_of, line_of, capture_line as line_of_capture, report_line as line_of_report, script_line as line_of_script, report_word};
ghost use Rattle.vg_diff.specs.Stops.{capture_stop as capture_stop_of, report_stop as report_stop_of, script_stop as script_stop_of};

use std::alloc::{AllocError, Global};
use vg_capture::CaptureError;
use vg_report::{ReportCause, ReportError};
use vg_script::{ScriptCause, ScriptError};

/// Why nothing is compared, with the name of the file where it was one.
#[derive(Clone, Copy, Debug)]
pub enum Refusal<'a> {
    /// The words ask for nothing that there is.
    Usage,
    /// This file could not be loaded.
    Load(&'a str),
    /// A savefile can't be read.
    Capture(CaptureError),
    /// The text of REPORT is no report.
    Report(ReportError),
    /// The script can't be read, or one of its edits can't be made.
    Script(ScriptError),
    /// The report has another number of packets than the capture, or than were transmitted.
    Packets,
}

/// Why nothing is printed but a refusal.
#[derive(Clone, Copy, Debug)]
pub enum Stop<'a> {
    /// Memory ran out.
    Memory,
    /// The comparison is refused.
    Refused(Refusal<'a>),
}

/// What a savefile's fault stops the call with.
pub fn capture_stop<'a>(fault: CaptureError) -> Stop<'a>
    ensures { result ≡ capture_stop_of fault }
{
    match fault {
        CaptureError::Memory => Stop::Memory,
        _ => Stop::Refused(Refusal::Capture(fault)),
    }
}

/// What a report's fault stops the call with.
pub fn report_stop<'a>(fault: ReportError) -> Stop<'a>
    ensures { result ≡ report_stop_of fault }
{
    match fault.cause {
        ReportCause::Memory => Stop::Memory,
        _ => Stop::Refused(Refusal::Report(fault)),
    }
}

/// What a script's fault stops the call with.
pub fn script_stop<'a>(fault: ScriptError) -> Stop<'a>
    ensures { result ≡ script_stop_of fault }
{
    match fault.cause {
        ScriptCause::Memory => Stop::Memory,
        _ => Stop::Refused(Refusal::Script(fault)),
    }
}

// The word for a report's fault.
fn cause_word(cause: ReportCause) -> &'static str
    ensures { result.now ≡ report_word cause }
{
    match cause {
        ReportCause::Form => "form",
        ReportCause::Number => "number",
        ReportCause::Unknown => "unknown",
        ReportCause::Order => "order",
        ReportCause::Memory => "memory",
    }
}

impl Refusal<'_> {
    /// The exit status: 2 for the words, 3 for a load, 4 for a savefile, 5 for the report or the script.
    pub fn status(&self) -> u8
        ensures value { result ≡ status_of self.now }
        ensures range { (2 ≤ result) × (result ≤ 5) }
    {
        match self {
            Refusal::Usage => 2,
            Refusal::Load(_) => 3,
            Refusal::Capture(_) => 4,
            Refusal::Report(_) | Refusal::Packets | Refusal::Script(_) => 5,
        }
    }

    /// The line for the user: the cause in one word, and then where.
    ///
    /// # Errors
    ///
    /// [`AllocError`] where memory runs out.
    pub fn line(&self, alloc: Global) -> Result<String, AllocError>
        ensures { IfOk result (λ line. string_bytes line ≡ line_of self.now) }
    {
        match self {
            Refusal::Usage => String::from_str(alloc, "usage\n"),
            Refusal::Load(name) => format!(in alloc; "load {name}\n"),
            Refusal::Capture(fault) => capture_line(alloc, *fault),
            Refusal::Report(fault) => report_line(alloc, fault.line, cause_word(fault.cause)),
            Refusal::Script(fault) => script_line(alloc, fault.line, fault.cause.word()),
            Refusal::Packets => String::from_str(alloc, "report packets\n"),
        }
    }
}

// The line of a savefile's fault: its cause and its place in the file.
fn capture_line(alloc: Global, fault: CaptureError) -> Result<String, AllocError>
    ensures { IfOk result (λ line. string_bytes line ≡ line_of_capture fault) }
{
    match fault {
        CaptureError::TooLarge => String::from_str(alloc, "capture too-large 16777216\n"),
        CaptureError::NotPcap => String::from_str(alloc, "capture not-pcap 0\n"),
        CaptureError::Version { .. } => String::from_str(alloc, "capture version 4\n"),
        CaptureError::LinkType(_) => String::from_str(alloc, "capture link-type 20\n"),
        CaptureError::Truncated { offset } => format!(in alloc; "capture truncated {offset}\n"),
        CaptureError::RecordTooLong { offset } => {
            format!(in alloc; "capture record-too-long {offset}\n")
        }
        CaptureError::TooManyPackets { offset } => {
            format!(in alloc; "capture too-many-packets {offset}\n")
        }
        CaptureError::Memory => String::from_str(alloc, "capture memory 0\n"),
    }
}

// The line of a report's fault: the line of the text and the cause.
fn report_line(alloc: Global, line: u32, cause: &str) -> Result<String, AllocError>
    ensures { IfOk result (λ text. string_bytes text ≡ line_of_report line cause.now) }
{
    format!(in alloc; "report {line} {cause}\n")
}

// The line of a script's fault: the line of the text and the cause.
fn script_line(alloc: Global, line: u32, cause: &str) -> Result<String, AllocError>
    ensures { IfOk result (λ text. string_bytes text ≡ line_of_script line cause.now) }
{
    format!(in alloc; "script {line} {cause}\n")
}
