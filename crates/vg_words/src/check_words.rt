//! Reading the words of a check.
ghost use Rattle.std.specs.Prelude.{◌≡◌, IfOk, option_map};
ghost use Rattle.vg_words.specs.Command.{check_of, check_over, queue_in as queue_in_text, texts};
ghost use Rattle.vg_words.specs.Shown.{check_shown};

use crate::checks::{is_plain, option_in};
use crate::commands::Check;
use crate::numbers::number_or_default;
use std::alloc::Global;
use vg_model::Memory;
use vg_model::limits::MOST_SLOTS;

/// The value of `--queue` where this word is that option: None within where the value is the next word.
fn queue_in(word: &str) -> Option<Option<&str>>
    ensures { option_map (option_map (λ value. value.now)) result ≡ queue_in_text word.now }
{
    let (name, value) = option_in(word)?;
    if name != "queue" {
        return None;
    }
    match value {
        Some(text) if is_plain(text) => Some(Some(text)),
        Some(_) => None,
        None => Some(None),
    }
}

/// The check over files of these names, where they are four, with this value of `--queue`.
fn check_of_names<'a>(queue: Option<&str>, names: &[&'a str]) -> Option<Check<'a>>
    ensures { option_map check_shown result ≡ check_over (option_map (λ value. value.now) queue.entry) (texts names.now) }
{
    match names {
        [capture, script, tx, report] => Some(Check {
            queue: number_or_default(queue, 64, 1, MOST_SLOTS)?,
            capture,
            script,
            tx,
            report,
        }),
        _ => None,
    }
}

/// The check that the words behind `check` ask for.
pub fn read_check<'a>(alloc: Global, words: &[&'a str]) -> Result<Option<Check<'a>>, Memory>
    ensures { IfOk result (λ check. option_map check_shown check ≡ check_of (texts words.now)) }
{
    let mut names = Vec::new(alloc);
    let mut queue: Option<&'a str> = None;
    let mut waits = false;
    for word in words {
        if is_plain(word) {
            if waits {
                queue = Some(*word);
                waits = false;
                continue;
            }
            names.push(*word)?;
            continue;
        }
        if waits || queue.is_some() {
            return Ok(None);
        }
        let Some(value) = queue_in(word) else {
            return Ok(None);
        };
        queue = value;
        waits = value.is_none();
    }
    if waits {
        return Ok(None);
    }
    Ok(check_of_names(queue, names.as_slice()))
}
