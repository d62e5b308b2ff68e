//! Ranges of addresses by the words of the command line.
ghost use Rattle.std.specs.Prelude.{◌≡◌, IfOk};
ghost use Rattle.vg_diff.specs.Prefixes as specs;

use std::alloc::{AllocError, Global};
use vg_match::Range;
use vg_model::{Edit, EditLine};
use vg_script::{ScriptCause, parse_script};

// Whether no byte of a word parts words, ends a line or begins a comment.
fn is_one_word(word: &[u8]) -> bool
    ensures { result ≡ specs.is_one_word word.now }
{
    word.iter().all(|byte| *byte > b' ' && *byte != b'#')
}

// A line of a script: a word, and a value behind it.
fn line_of(alloc: Global, word: &[u8], value: &[u8]) -> Result<Vec<u8>, AllocError>
    ensures { IfOk result (λ line. line.items ≡ specs.line_of word.now value.now) }
{
    let mut line = Vec::new(alloc);
    line.extend_from_slice(word)?;
    line.push(b' ')?;
    line.extend_from_slice(value)?;
    line.push(b'\n')?;
    Ok(line)
}

// The range of the prefix whose route an edit takes out.
fn taken_out(edit: &Edit) -> Option<Range>
    ensures { result ≡ specs.taken_out edit.now }
{
    match edit {
        Edit::Unroute { prefix } => Some(Range::Ip4(*prefix)),
        Edit::Unroute6 { prefix } => Some(Range::Ip6(*prefix)),
        _ => None,
    }
}

// The same of the only edit outside blocks.
fn only_taken_out(edits: &[EditLine]) -> Option<Range>
    ensures { result ≡ specs.only_taken_out edits.now }
{
    match edits {
        [line] => taken_out(&line.edit),
        _ => None,
    }
}

// The range of the prefix in a line, which is a script by itself.
fn range_in(alloc: Global, word: &[u8], value: &[u8]) -> Result<Option<Range>, AllocError>
    ensures { IfOk result (λ range. range ≡ specs.range_in word.now value.now) }
{
    let line = line_of(alloc, word, value)?;
    match parse_script(alloc, line.as_slice()) {
        Ok(script) => Ok(only_taken_out(script.start.as_slice())),
        Err(error) => match error.cause {
            ScriptCause::Memory => Err(AllocError),
            _ => Ok(None),
        },
    }
}

/// The range of addresses that a word says: a prefix of IPv4 or IPv6 addresses, as a script has it. It is read by the line `unroute` or
/// `unroute6` of a script.
///
/// # Errors
///
/// [`AllocError`] where memory runs out.
pub fn range_of(alloc: Global, word: &str) -> Result<Option<Range>, AllocError>
    ensures { IfOk result (λ range. range ≡ specs.range_of word.now) }
{
    if !is_one_word(word.as_bytes()) {
        return Ok(None);
    }
    match range_in(alloc, b"unroute", word.as_bytes())? {
        Some(range) => Ok(Some(range)),
        None => range_in(alloc, b"unroute6", word.as_bytes()),
    }
}
