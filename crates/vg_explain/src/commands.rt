//! The words of the command line: the usage, and what is wrong with words that ask for nothing.

use std::alloc::{AllocError, Global};
use vg_model::limits::{
    FRAME_SIZE, MOST_BUFFERS, MOST_PACKETS, MOST_SLOTS, MOST_TRACED, MOST_WORKERS,
};

/// How the program is called.
pub const USAGE: &str = "usage:
  vgd run [OPTIONS] CAPTURE SCRIPT TX
      Sends the packets of the savefile CAPTURE through the graph of SCRIPT, writes the transmitted ones to the savefile TX, and prints
      a report. Options, in any order and anywhere behind `run`, as `--burst 1` or `--burst=1`, each once:
      --workers N   workers that take packets in turn: 1 to 8 (1)
      --buffers N   packet buffers of the run: 256 * workers + 256 to 16384 (4096)
      --queue N     slots of the queue from each worker to each other: 1 to 256 (64)
      --burst N     packets that a worker draws in one turn at most: 1 to 256 (256)
      --trace N     first packets whose nodes the report lists: 0 to 256 (0)
      --turns FILE  a file that says whose turn is next: `m` for main, a digit for a worker
      --hold        hold frames back where a queue is full, and drop none
  vgd load SEED PACKETS WORKERS
      Sends 1 to 65536 random packets by 1 to 8 workers. SEED is 0 to 18446744073709551615.
  vgd check [--queue N] CAPTURE SCRIPT TX REPORT
      Says whether REPORT and TX are what a run over CAPTURE and SCRIPT may put out.
Reports are of format 1. docs/FORMATS.md has the formats, the limits and the exit statuses; `man vgd` has them once it is installed.
";

/// What follows an option.
#[derive(Clone, Copy, Debug, PartialEq, Eq)]
enum Follows {
    Nothing,
    Name,
    Number { least: u64, most: u64 },
}

impl Follows {
    /// A number of this range.
    fn number(least: u64, most: u64) -> Follows {
        Follows::Number { least, most }
    }
}

/// What follows an option of this name of a command, where it has such an option.
fn option_named(command: &str, name: &str) -> Option<Follows> {
    match (command, name) {
        (_, "queue") => Some(Follows::number(1, MOST_SLOTS)),
        ("run", "workers") => Some(Follows::number(1, MOST_WORKERS as u64)),
        ("run", "buffers") => Some(Follows::number(512, MOST_BUFFERS as u64)),
        ("run", "burst") => Some(Follows::number(1, FRAME_SIZE as u64)),
        ("run", "trace") => Some(Follows::number(0, MOST_TRACED as u64)),
        ("run", "turns") => Some(Follows::Name),
        ("run", "hold") => Some(Follows::Nothing),
        _ => None,
    }
}

/// The number that a word says: decimal digits, the first of several not 0.
fn number(word: &str) -> Option<u64> {
    let digits = word.as_bytes();
    if digits.is_empty() || !digits.iter().all(|digit| digit.is_ascii_digit()) {
        return None;
    }
    if digits.len() > 1 && digits[0] == b'0' {
        return None;
    }
    word.parse::<u64>().ok()
}

/// Whether the words ask for help or for the version.
pub fn asks_for_help(words: &[&str]) -> bool {
    match words.first() {
        None => true,
        Some(first) => matches!(*first, "--help" | "-h" | "help" | "--version" | "-V"),
    }
}

/// What is said of a word and its value.
#[derive(Clone, Copy, Debug)]
struct Said<'a> {
    name: &'a str,
    value: Option<&'a str>,
}

/// A word `--NAME` or `--NAME=VALUE`.
fn option_in(word: &str) -> Option<Said<'_>> {
    let text = word.strip_prefix("--")?;
    Some(match text.split_once('=') {
        Some((name, value)) => Said {
            name,
            value: Some(value),
        },
        None => Said {
            name: text,
            value: None,
        },
    })
}

/// The name of the file at this place among those of a command, counted from 0.
pub fn file_named<'a>(words: &[&'a str], place: usize) -> Option<&'a str> {
    let (_, others) = words.split_first()?;
    let mut names = 0usize;
    let mut waits = false;
    for word in others {
        if waits {
            waits = false;
            continue;
        }
        match option_in(word) {
            Some(said) => waits = said.value.is_none() && said.name != "hold",
            None if names == place => return Some(*word),
            None => names = names.saturating_add(1),
        }
    }
    None
}

/// The value of the option `--turns`, where it is given.
pub fn turns_named<'a>(words: &[&'a str]) -> Option<&'a str> {
    let mut waits = false;
    for word in words {
        if waits {
            return Some(*word);
        }
        if let Some(said) = option_in(word) {
            if said.name == "turns" {
                if said.value.is_some() {
                    return said.value;
                }
                waits = true;
            }
        }
    }
    None
}

/// What is wrong with an option's value; nothing where it is good.
fn value_fault(
    alloc: Global,
    option: &str,
    value: &str,
    follows: Follows,
) -> Result<Option<String>, AllocError> {
    match follows {
        Follows::Number { least, most } => {
            let good = match number(value) {
                Some(number) => least <= number && number <= most,
                None => false,
            };
            if good {
                return Ok(None);
            }
            Ok(Some(format!(in alloc;
                "--{option} wants a number from {least} to {most} in decimal digits, and not `{value}`\n"
            )?))
        }
        Follows::Name => {
            if is_name(value) {
                return Ok(None);
            }
            Ok(Some(format!(in alloc;
                "--{option} wants the name of a file, and not `{value}`: one that begins with `-` is written with ./ in front\n"
            )?))
        }
        Follows::Nothing => Ok(Some(format!(in alloc;
            "--{option} has no value, and `{value}` is given\n"
        )?)),
    }
}

/// Whether a word may be a file's name here.
fn is_name(word: &str) -> bool {
    match word.as_bytes() {
        [] => false,
        [first, ..] => *first != b'-',
    }
}

/// What is wrong with a word that is no option; nothing where it may be a file's name.
fn name_fault(alloc: Global, word: &str) -> Result<Option<String>, AllocError> {
    if is_name(word) {
        return Ok(None);
    }
    if word.is_empty() {
        return Ok(Some(String::from_str(alloc, "an empty word names no file\n")?));
    }
    Ok(Some(format!(in alloc;
        "`{word}` is no option and no file's name: a file of this name is written ./{word}\n"
    )?))
}

/// That a command has no option of a name.
fn no_option(
    alloc: Global,
    command: &str,
    word: &str,
    option: &str,
) -> Result<Option<String>, AllocError> {
    Ok(Some(format!(in alloc; "`{word}`: {command} has no option --{option}\n")?))
}

/// What is wrong behind the last word: an option waits for its value, or the names are too few or too many.
fn end_fault(
    alloc: Global,
    command: &str,
    waiting: Option<&str>,
    names: usize,
    wanted: usize,
) -> Result<Option<String>, AllocError> {
    if let Some(option) = waiting {
        return Ok(Some(format!(in alloc; "--{option} wants a value behind it\n")?));
    }
    if names != wanted {
        return Ok(Some(format!(in alloc;
            "{command} wants {wanted} names of files, and {names} are given\n"
        )?));
    }
    Ok(None)
}

/// What is wrong with the options and the names of a command that wants so many; nothing where no word is faulty by itself.
fn options_fault(
    alloc: Global,
    command: &str,
    words: &[&str],
    wanted: usize,
) -> Result<Option<String>, AllocError> {
    let mut names = 0usize;
    let mut used = Vec::new(alloc);
    let mut waiting: Option<(&str, Follows)> = None;
    for word in words {
        if let Some((option, follows)) = waiting {
            if let Some(fault) = value_fault(alloc, option, word, follows)? {
                return Ok(Some(fault));
            }
            waiting = None;
            continue;
        }
        let Some(said) = option_in(word) else {
            if let Some(fault) = name_fault(alloc, word)? {
                return Ok(Some(fault));
            }
            names = names.saturating_add(1);
            continue;
        };
        let option = said.name;
        let Some(follows) = option_named(command, option) else {
            return no_option(alloc, command, word, option);
        };
        if used.iter().any(|one: &&str| *one == option) {
            return Ok(Some(format!(in alloc; "--{option} stands twice\n")?));
        }
        used.push(option)?;
        match said.value {
            Some(value) => {
                if let Some(fault) = value_fault(alloc, option, value, follows)? {
                    return Ok(Some(fault));
                }
            }
            None => {
                if follows != Follows::Nothing {
                    waiting = Some((option, follows));
                }
            }
        }
    }
    end_fault(
        alloc,
        command,
        waiting.map(|(option, _)| option),
        names,
        wanted,
    )
}

/// What is wrong with the numbers of a load.
fn numbers_fault(alloc: Global, words: &[&str]) -> Result<Option<String>, AllocError> {
    if words.len() != 3 {
        return Ok(Some(String::from_str(
            alloc,
            "load wants three numbers: SEED PACKETS WORKERS\n",
        )?));
    }
    if number(words[0]).is_none() {
        let word = words[0];
        return Ok(Some(format!(in alloc;
            "SEED is a number from 0 to 18446744073709551615, and not `{word}`\n"
        )?));
    }
    let word = words[1];
    if !is_between(word, 1, MOST_PACKETS as u64) {
        return Ok(Some(format!(in alloc;
            "PACKETS is a number from 1 to 65536, and not `{word}`\n"
        )?));
    }
    let word = words[2];
    if !is_between(word, 1, MOST_WORKERS as u64) {
        return Ok(Some(format!(in alloc; "WORKERS is a number from 1 to 8, and not `{word}`\n")?));
    }
    Ok(None)
}

fn is_between(word: &str, least: u64, most: u64) -> bool {
    match number(word) {
        Some(number) => least <= number && number <= most,
        None => false,
    }
}

/// What is wrong with words that ask for nothing: the first word that is faulty, and what is wanted in its place.
pub fn words_fault(alloc: Global, words: &[&str]) -> Result<String, AllocError> {
    let Some((command, others)) = words.split_first() else {
        return String::from_str(alloc, "no command is given\n");
    };
    let fault = match *command {
        "run" => options_fault(alloc, "run", others, 3)?,
        "check" => options_fault(alloc, "check", others, 4)?,
        "load" => numbers_fault(alloc, others)?,
        _ => Some(format!(in alloc; "`{command}` is no command\n")?),
    };
    match fault {
        Some(fault) => Ok(fault),
        // What is left is a number of buffers that is too small for the workers.
        None => String::from_str(
            alloc,
            "--buffers wants 256 more than 256 for each worker, or more\n",
        ),
    }
}
