//! Reading the words of the command line.
ghost use Rattle.std.specs.Prelude.{◌≡◌, ◌<◌, IfOk, MatchOption, [], false, option_map, length, drop};
ghost use Rattle.vg_words.specs.Command.{command, is_set as is_given_flag, load_of, run_of as run_in, texts};
ghost use Rattle.vg_words.specs.Parser.{flag_rule, option_rule, name_rule, run_app, run_found};
ghost use Rattle.vg_words.specs.Shown.{run_shown, shown};
ghost use Rattle.clap.specs.Words.{app_of, fault_of, first_value, found_of, matches_of, rows_of, rule_of};

use crate::check_words::read_check;
use crate::checks::are_well_formed;
use crate::commands::{Command, Run};
use crate::numbers::{number, number_or_default};
use clap::error::ErrorKind;
use clap::{Arg, ArgAction, ArgMatches, Command as Parser};
use std::alloc::{AllocError, Global};
use vg_model::Memory;
use vg_model::limits::{
    FRAME_SIZE, MOST_BUFFERS, MOST_PACKETS, MOST_SLOTS, MOST_TRACED, MOST_WORKERS,
};

/// An option of a run, `--NAME VALUE` or `--NAME=VALUE`.
fn an_option<'a>(alloc: Global, name: &'a str) -> Arg<'a>
    ensures rule { rule_of result ≡ option_rule name.entry.now }
    ensures local { result.global ≡ false }
{
    Arg::new(alloc, name).long(name)
}

/// A flag of a run, `--NAME`.
fn a_flag<'a>(alloc: Global, name: &'a str) -> Arg<'a>
    ensures rule { rule_of result ≡ flag_rule name.entry.now }
    ensures local { result.global ≡ false }
{
    Arg::new(alloc, name).long(name).action(ArgAction::SetTrue)
}

/// The name of a file of a run.
fn a_name<'a>(alloc: Global, name: &'a str) -> Arg<'a>
    ensures rule { rule_of result ≡ name_rule name.entry.now }
    ensures local { result.global ≡ false }
{
    Arg::new(alloc, name).required(true)
}

/// The parser of the words of `run`.
fn run_parser<'a>(alloc: Global) -> Result<Parser<'a>, AllocError>
    ensures { IfOk result (λ parser. app_of parser ≡ run_app) }
{
    Parser::new(alloc, "run")
        .disable_help_flag(true)
        .arg(an_option(alloc, "workers"))?
        .arg(an_option(alloc, "buffers"))?
        .arg(an_option(alloc, "queue"))?
        .arg(an_option(alloc, "burst"))?
        .arg(an_option(alloc, "trace"))?
        .arg(an_option(alloc, "turns"))?
        .arg(a_flag(alloc, "hold"))?
        .arg(a_name(alloc, "capture"))?
        .arg(a_name(alloc, "script"))?
        .arg(a_name(alloc, "tx"))
}

/// The options and names of the words of a run, of which the first is `run`; None where the parser refuses them.
fn run_matches<'a>(alloc: Global, words: &'a [&'a str]) -> Result<Option<ArgMatches<'a>>, Memory>
    ensures { IfOk result (λ matches. MatchOption matches (fault_of run_app (texts words.entry.now) ≡ [] → ⊥)
        (λ found. (fault_of run_app (texts words.entry.now) ≡ []) × (rows_of (found_of found) ≡ matches_of run_app (texts words.entry.now)))) }
{
    let parser = run_parser(alloc)?;
    match parser.try_get_matches_from(words) {
        Ok(matches) => Ok(Some(matches)),
        Err(error) => match error.kind() {
            ErrorKind::OutOfMemory => Err(Memory),
            _ => Ok(None),
        },
    }
}

/// Whether a flag is given, by its value.
fn is_set(value: Option<&str>) -> bool
    ensures { result ≡ is_given_flag (option_map (λ text. text.now) value.entry) }
{
    match value {
        Some(text) => text == "true",
        None => false,
    }
}

/// The run that these options and names say; None where an option's value isn't as it must be.
fn run_of<'a>(matches: &ArgMatches<'a>) -> Option<Run<'a>>
    ensures { option_map run_shown result ≡ run_found (first_value (found_of matches.now)) }
{
    let capture = matches.get_str("capture")?;
    let script = matches.get_str("script")?;
    let tx = matches.get_str("tx")?;
    let workers = number_or_default(matches.get_str("workers"), 1, 1, MOST_WORKERS as u64)?;
    let frame = FRAME_SIZE as u64;
    let fewest_buffers = frame * workers + frame;
    let buffers = number_or_default(
        matches.get_str("buffers"),
        4096,
        fewest_buffers,
        MOST_BUFFERS as u64,
    )?;
    let queue = number_or_default(matches.get_str("queue"), 64, 1, MOST_SLOTS)?;
    let burst = number_or_default(matches.get_str("burst"), frame, 1, frame)?;
    let trace = number_or_default(matches.get_str("trace"), 0, 0, MOST_TRACED as u64)?;
    Some(Run {
        workers: workers as u8,
        buffers: buffers as u32,
        queue,
        burst: burst as u32,
        trace: trace as u32,
        turns: matches.get_str("turns"),
        hold: is_set(matches.get_str("hold")),
        capture,
        script,
        tx,
    })
}

/// The run that words ask for, of which the first is `run`.
fn read_run<'a>(alloc: Global, words: &'a [&'a str]) -> Result<Option<Run<'a>>, Memory>
    requires { 0 < length words.now }
    ensures { IfOk result (λ run. option_map run_shown run ≡ run_in (drop 1 (texts words.entry.now))) }
{
    if !are_well_formed(alloc, &words[1..])? {
        return Ok(None);
    }
    let Some(matches) = run_matches(alloc, words)? else {
        return Ok(None);
    };
    Ok(run_of(&matches))
}

/// The load that the words behind `load` ask for.
fn read_load<'a>(words: &[&str]) -> Option<Command<'a>>
    ensures { option_map shown result ≡ load_of (texts words.now) }
{
    match words {
        [seed, packets, workers] => {
            let seed = number(seed, 0, u64::MAX)?;
            let packets = number(packets, 1, MOST_PACKETS as u64)?;
            let workers = number(workers, 1, MOST_WORKERS as u64)?;
            Some(Command::Load {
                seed,
                packets: packets as u32,
                workers: workers as u8,
            })
        }
        _ => None,
    }
}

/// What the words after the program's name ask for.
///
/// `run` has three names, of a capture, a script and the savefile to be written, and options between them in any order;
/// `load` has three numbers; `check` has four names and the option `--queue`. None for all other words. The only error is want of memory.
pub fn read_words<'a>(alloc: Global, words: &'a [&'a str]) -> Result<Option<Command<'a>>, Memory>
    ensures { IfOk result (λ answer. option_map shown answer ≡ command (texts words.entry.now)) }
{
    let Some((first, others)) = words.split_first() else {
        return Ok(None);
    };
    if *first == "run" {
        return Ok(read_run(alloc, words)?.map(Command::Run));
    }
    if *first == "load" {
        return Ok(read_load(others));
    }
    if *first == "check" {
        return Ok(read_check(alloc, others)?.map(Command::Check));
    }
    Ok(None)
}
