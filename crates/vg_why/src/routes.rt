//! Routes by the words of the command line.
ghost use Rattle.std.specs.Prelude.{◌≡◌, IfOk};
ghost use Rattle.vg_model.specs.Route.{same_prefix, same_prefix6};
ghost use Rattle.vg_why.specs.Filters.{is_prefix};
ghost use Rattle.vg_why.specs.Routes as specs;

use std::alloc::{AllocError, Global};
use vg_model::{Edit, EditLine, Prefix, Prefix6};
use vg_script::{ScriptCause, parse_script};
use vg_story::Value;

/// A route, by the addresses that it is for.
#[derive(Clone, Copy, Debug)]
pub enum Route {
    Ip4(Prefix),
    Ip6(Prefix6),
}

// Whether no byte of a word parts words, ends a line or begins a comment.
fn is_one_word(word: &[u8]) -> bool
    ensures { result ≡ specs.is_one_word word.now }
{
    word.iter().all(|byte| *byte > b' ' && *byte != b'#')
}

// A line of a script: a word, and a value behind it.
fn line_of(alloc: Global, word: &[u8], value: &[u8]) -> Result<Vec<u8>, AllocError>
    ensures { IfOk result (λ line. line.items ≡ specs.line_of word.now value.now) }
{
    let mut line = Vec::new(alloc);
    line.extend_from_slice(word)?;
    line.push(b' ')?;
    line.extend_from_slice(value)?;
    line.push(b'\n')?;
    Ok(line)
}

// The route that an edit takes out.
fn taken_out(edit: &Edit) -> Option<Route>
    ensures { result ≡ specs.taken_out edit.now }
{
    match edit {
        Edit::Unroute { prefix } => Some(Route::Ip4(*prefix)),
        Edit::Unroute6 { prefix } => Some(Route::Ip6(*prefix)),
        _ => None,
    }
}

// The same of the only edit outside blocks.
fn only_taken_out(edits: &[EditLine]) -> Option<Route>
    ensures { result ≡ specs.only_taken_out edits.now }
{
    match edits {
        [line] => taken_out(&line.edit),
        _ => None,
    }
}

// The route that a line takes out, which is a script by itself.
fn route_in(alloc: Global, word: &[u8], value: &[u8]) -> Result<Option<Route>, AllocError>
    ensures { IfOk result (λ route. route ≡ specs.route_in word.now value.now) }
{
    let line = line_of(alloc, word, value)?;
    match parse_script(alloc, line.as_slice()) {
        Ok(script) => Ok(only_taken_out(script.start.as_slice())),
        Err(error) => match error.cause {
            ScriptCause::Memory => Err(AllocError),
            _ => Ok(None),
        },
    }
}

/// The route of a prefix that a word says, as a script has it: so it is read as by the line `unroute` or `unroute6` of a script.
///
/// # Errors
///
/// [`AllocError`] where memory runs out.
pub(crate) fn route_of(alloc: Global, word: &str) -> Result<Option<Route>, AllocError>
    ensures { IfOk result (λ route. route ≡ specs.route_of word.now) }
{
    if !is_one_word(word.as_bytes()) {
        return Ok(None);
    }
    match route_in(alloc, b"unroute", word.as_bytes())? {
        Some(route) => Ok(Some(route)),
        None => route_in(alloc, b"unroute6", word.as_bytes()),
    }
}

// Whether two prefixes are the same.
fn is_same(one: Prefix, other: Prefix) -> bool
    ensures { result ≡ same_prefix one other }
{
    one.addr == other.addr && one.len == other.len
}

// The same for IPv6.
fn is_same6(one: Prefix6, other: Prefix6) -> bool
    ensures { result ≡ same_prefix6 one other }
{
    one.addr == other.addr && one.len == other.len
}

impl Route {
    /// Whether a value is the prefix of the route.
    pub(crate) fn is_of(self, value: Value) -> bool
        ensures { result ≡ is_prefix self value }
    {
        match (self, value) {
            (Route::Ip4(prefix), Value::Prefix(other)) => is_same(other, prefix),
            (Route::Ip6(prefix), Value::Prefix6(other)) => is_same6(other, prefix),
            _ => false,
        }
    }
}
