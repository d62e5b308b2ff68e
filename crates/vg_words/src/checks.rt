//! What is checked of the words behind `run` before a parser reads them.
ghost use Rattle.std.specs.Prelude.{◌≡◌, IfOk, false, [], option_map};
ghost use Rattle.vg_words.specs.Command.{is_plain as is_plain_text, is_flag as is_name_of_flag, is_option_name as is_name_of_option, option_in as option_in_text, texts};
ghost use Rattle.vg_words.specs.Checks.{are_well_formed as pass_checks, is_used as is_used_in, new_option as new_option_in};

use std::alloc::Global;
use vg_model::Memory;

/// The options of a run.
const OPTIONS: [&str; 7] = [
    "workers", "buffers", "queue", "burst", "trace", "turns", "hold",
];

/// Whether the word may be a name or a value: it isn't empty, and begins with no `-`.
pub fn is_plain(word: &str) -> bool
    ensures { result ≡ is_plain_text word.now }
{
    match word.as_bytes() {
        [] => false,
        [first, ..] => *first != b'-',
    }
}

/// Whether a run has an option of this name.
fn is_option_name(name: &str) -> bool
    ensures { result ≡ is_name_of_option name.now }
{
    OPTIONS.iter().any(|known| *known == name)
}

/// Whether the option of this name is a flag: it has no value.
fn is_flag(name: &str) -> bool
    ensures { result ≡ is_name_of_flag name.now }
{
    name == "hold"
}

/// Whether the name is among those of the options that stand before.
fn is_used(used: &[&str], name: &str) -> bool
    ensures { result ≡ is_used_in (texts used.now) name.now }
{
    used.iter().any(|one| *one == name)
}

/// A word `--NAME` or `--NAME=VALUE`, parted at its first `=`.
pub fn option_in(word: &str) -> Option<(&str, Option<&str>)>
    ensures { option_map (λ p. (p.0.now, option_map (λ value. value.now) p.1)) result ≡ option_in_text word.now }
{
    let text = word.strip_prefix("--")?;
    match text.split_once('=') {
        Some((name, value)) => Some((name, Some(value))),
        None => Some((text, None)),
    }
}

/// The option that the word is, where it is one that doesn't stand before: its name, and whether its value is the next word.
fn new_option<'a>(used: &[&str], word: &'a str) -> Option<(&'a str, bool)>
    ensures { option_map (λ p. (p.0.now, p.1)) result ≡ new_option_in (texts used.now) word.now }
{
    let (name, value) = option_in(word)?;
    if !is_option_name(name) || is_used(used, name) {
        return None;
    }
    match value {
        Some(text) if !is_flag(name) && is_plain(text) => Some((name, false)),
        Some(_) => None,
        None => Some((name, !is_flag(name))),
    }
}

/// Whether the words behind `run` are such that a parser may read them: each is a name, an option that doesn't stand before,
/// or an option's value.
pub fn are_well_formed(alloc: Global, words: &[&str]) -> Result<bool, Memory>
    ensures { IfOk result (λ passed. passed ≡ pass_checks [] false (texts words.now)) }
{
    let mut used = Vec::new(alloc);
    let mut waits = false;
    for word in words {
        if is_plain(word) {
            waits = false;
            continue;
        }
        if waits {
            return Ok(false);
        }
        let Some((name, follows)) = new_option(&used, word) else {
            return Ok(false);
        };
        used.push(name)?;
        waits = follows;
    }
    Ok(!waits)
}
