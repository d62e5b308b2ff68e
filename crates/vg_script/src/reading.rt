//! Reading the text of a script.
ghost use Rattle.std.specs.Prelude.{◌≡◌, ◌≢◌, ◌==◌, true, IfOk};
ghost use Rattle.std.specs.List.{before_first, after_first, list_all};
ghost use Rattle.vg_script.specs.Lawful.{IsScript, IsLawful};
ghost use Rattle.vg_script.specs.Lines.{is_plain as plain};
ghost use Rattle.vg_script.specs.Reading.{AnswersRead};

use crate::classes::split_at;
use crate::errors::{ScriptCause, ScriptError};
use crate::reader::{Reader, is_plain};
use crate::scripts::Script;
use memchr::memchr;
use std::alloc::Global;

/// The greatest length of a script, in bytes.
pub const LARGEST_SCRIPT: usize = 262_144;

/// Reads a script.
///
/// An error is the first fault of the first faulty line, in this order: the bytes outside its comment, its first word, where
/// its statement may stand, its further words from left to right, the sum of the runs that blocks ask for. Where no line is
/// faulty, a block that isn't ended is refused at the last line. `TooLarge` comes before all lines, and `Memory` may come in
/// place of any answer; both name the line 0.
///
/// What is read is lawful, so it can be printed, and its names are names.
pub fn parse_script(alloc: Global, text: &[u8]) -> Result<Script, ScriptError>
    ensures exact { AnswersRead text.now result }
    ensures lawful { IfOk result IsLawful }
    ensures types { IfOk result IsScript }
{
    if text.len() > LARGEST_SCRIPT {
        return Err(ScriptError {
            line: 0,
            cause: ScriptCause::TooLarge,
        });
    }
    let mut reader = Reader::new(alloc);
    let mut line = 1;
    let mut rest = text;
    while !rest.is_empty() {
        let (bytes, others, is_known_plain) = first_line(rest);
        if let Err(cause) = reader.read_line(line, bytes, is_known_plain) {
            return Err(refusal(line, cause));
        }
        line += 1;
        rest = others;
    }
    reader.finish(line - 1)
}

/// The first line of a text, what stands behind its line feed, and whether the line was seen to be plain: without a comment, and all of it allowed.
fn first_line(text: &[u8]) -> (&[u8], &[u8], bool)
    ensures before { result.0.now ≡ before_first (λ byte. byte == 10) text.now }
    ensures after { result.1.now ≡ after_first (λ byte. byte == 10) text.now }
    ensures plain { result.2 ≡ true → list_all plain result.0.now ≡ true }
{
    // A line feed is not plain: most lines end at the first such byte.
    match text.iter().position(|byte| !is_plain(*byte)) {
        Some(place) if text[place] == b'\n' => (&text[..place], &text[place + 1..], true),
        _ => {
            let (bytes, others) = split_at(text, memchr(b'\n', text));
            (bytes, others, false)
        }
    }
}

/// The refusal of a line; no line is named where memory ran out.
fn refusal(line: u32, cause: ScriptCause) -> ScriptError
    ensures cause { result.cause ≡ cause }
    ensures line { cause ≢ ScriptCause.Memory → result.line ≡ line }
    ensures memory { cause ≡ ScriptCause.Memory → result.line ≡ 0 }
{
    match cause {
        ScriptCause::Memory => ScriptError { line: 0, cause },
        _ => ScriptError { line, cause },
    }
}
