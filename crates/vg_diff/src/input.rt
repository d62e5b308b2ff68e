//! What the files say.
ghost use Rattle.std.specs.Prelude.{◌≡◌, ◌+◌, ◌≤◌, ◌++◌, ◌∷◌, ◌==◌, ℕ, List, [], length, true, Ok, IfOk, IfErr, OnOk, MatchResult, option_map};
ghost use Rattle.std.specs.List.{AllZip};
ghost use Rattle.std.specs.Option.{option_map_or};
ghost use Rattle.vg_outside.specs.Files.{FirstBytes};
ghost use Rattle.vg_report.specs.Reading.{report_of};
ghost use Rattle.vg_capture.specs.declared.captures.Capture.{Capture as Held};
ghost use Rattle.vg_diff.specs.Asked.{texts, ask_shown};
ghost use Rattle.vg_diff.specs.Files.{IsCaptureAt, IsCaptureOf, IsInput, has_packets_of};
ghost use Rattle.vg_diff.specs.Stops.{OnRefusal, IsCause, IsFirstStop, IsOfScript, IsRouterCause, faults_of, load_causes, capture_causes, named_causes, others_causes, report_causes, account_causes, input_causes};
ghost use Rattle.vg_diff.specs.Accounts.{IsAccount};
ghost use Rattle.vg_diff.specs.Scripts.{MakesPlan, MakesPlanAt};

use crate::numbers::numbers_of;
use crate::refusals::{Refusal, Stop, capture_stop, report_stop, script_stop};
use crate::words::Ask;
use std::alloc::{AllocError, Global};
use vg_capture::{Capture, LARGEST_FILE, read_capture};
use vg_model::Bytes;
use vg_outside::{Folder, LoadError};
use vg_plan::Plan;
use vg_report::{Report, read_report};
use vg_script::{LARGEST_SCRIPT, parse_script};

/// The most bytes that are read of a report; a lawful one has fewer.
pub const LARGEST_REPORT: usize = 16_777_216;

/// What the files say, and the text of the report, which is read later.
#[derive(Drop)]
pub struct Input {
    /// The packets that the run transmitted.
    pub tx: Capture,
    /// The text that says what became of the run's packets.
    pub text: Bytes,
    /// The packets that came into the run, where its capture is given.
    pub capture: Option<Capture>,
    /// The packets that the other router transmitted.
    pub others: Vec<Capture>,
}

/// The report of a run, and the numbers of the packets that it says were transmitted.
#[derive(Drop)]
pub struct Account {
    /// What became of the run's packets.
    pub report: Report,
    /// The numbers of those that were transmitted.
    pub sent: Vec<u32>,
}

// Loads a file of at most so many bytes, or one byte more of it where it is longer.
fn load_file<'a, F: Folder>(folder: &mut F, name: &'a str, limit: usize) -> Result<Bytes, Stop<'a>>
    ensures bytes { IfOk result (FirstBytes (F.contents folder.old) name.now (limit + 1)) }
    ensures same { F.contents folder.new ≡ F.contents folder.old }
    ensures later { (other : List ℕ) → F.faults folder.old other ≤ F.faults folder.new other }
    ensures stop { IfErr result (OnRefusal (IsCause (load_causes (F.contents folder.old) (faults_of (F.faults folder.old) (F.faults folder.new)) name.now))) }
{
    match folder.load(name, limit) {
        Ok(bytes) => Ok(bytes),
        Err(LoadError::Failed) => Err(Stop::Refused(Refusal::Load(name))),
        Err(LoadError::Memory) => Err(Stop::Memory),
    }
}

// Loads a savefile and reads it.
fn load_capture<'a, F: Folder>(
    alloc: Global,
    folder: &mut F,
    name: &'a str,
) -> Result<Capture, Stop<'a>>
    ensures capture { IfOk result (IsCaptureAt (F.contents folder.old) name.now) }
    ensures same { F.contents folder.new ≡ F.contents folder.old }
    ensures later { (other : List ℕ) → F.faults folder.old other ≤ F.faults folder.new other }
    ensures stop { IfErr result (OnRefusal (IsCause (capture_causes (F.contents folder.old) (faults_of (F.faults folder.old) (F.faults folder.new)) name.now))) }
{
    let bytes = match load_file(folder, name, LARGEST_FILE) {
        Ok(bytes) => bytes,
        Err(stop) => return Err(stop),
    };
    match read_capture(alloc, bytes) {
        Ok(capture) => Ok(capture),
        Err(fault) => Err(capture_stop(fault)),
    }
}

// Reads the text of a report.
fn read<'a>(alloc: Global, text: &Bytes) -> Result<Report, Stop<'a>>
    ensures report { IfOk result (λ report. report_of text.now ≡ Ok report) }
    ensures stop { IfErr result (OnRefusal (IsCause (report_causes text.now))) }
{
    match read_report(alloc, text.as_slice()) {
        Ok(report) => Ok(report),
        Err(fault) => Err(report_stop(fault)),
    }
}

// Loads a savefile where one is named.
fn load_named<'a, F: Folder>(
    alloc: Global,
    folder: &mut F,
    name: Option<&'a str>,
) -> Result<Option<Capture>, Stop<'a>>
    ensures capture { IfOk result (IsCaptureOf (F.contents folder.old) (option_map (λ name. name.now) name.entry)) }
    ensures same { F.contents folder.new ≡ F.contents folder.old }
    ensures later { (other : List ℕ) → F.faults folder.old other ≤ F.faults folder.new other }
    ensures stop { IfErr result (OnRefusal (IsCause (named_causes (F.contents folder.old) (faults_of (F.faults folder.old) (F.faults folder.new)) (option_map (λ name. name.now) name.entry)))) }
{
    let Some(name) = name else {
        return Ok(None);
    };
    match load_capture(alloc, folder, name) {
        Ok(capture) => Ok(Some(capture)),
        Err(stop) => Err(stop),
    }
}

// Adds a capture behind the others.
fn add(captures: &mut Vec<Capture>, capture: Capture) -> Result<(), AllocError>
    ensures { OnOk result (captures.new.items ≡ captures.old.items ++ capture ∷ []) }
{
    captures.push(capture)?;
    Ok(())
}

// Loads savefiles.
fn load_all<'a, F: Folder>(
    alloc: Global,
    folder: &mut F,
    names: &[&'a str],
) -> Result<Vec<Capture>, Stop<'a>>
    ensures captures { IfOk result (λ captures. AllZip (IsCaptureAt (F.contents folder.old)) (texts names.now) captures.items) }
    ensures same { F.contents folder.new ≡ F.contents folder.old }
    ensures later { (other : List ℕ) → F.faults folder.old other ≤ F.faults folder.new other }
    ensures stop { IfErr result (OnRefusal (IsCause (others_causes (F.contents folder.old) (faults_of (F.faults folder.old) (F.faults folder.new)) (texts names.now)))) }
{
    let mut captures = Vec::new(alloc);
    for name in names {
        let capture = match load_capture(alloc, folder, name) {
            Ok(capture) => capture,
            Err(stop) => return Err(stop),
        };
        let Ok(()) = add(&mut captures, capture) else {
            return Err(Stop::Memory);
        };
    }
    Ok(captures)
}

// Whether a capture has so many packets, where there is one.
fn has_as_many(capture: &Option<Capture>, packets: usize) -> bool
    ensures { result ≡ option_map_or (λ (held : Held). length held.packets == packets) capture.now true }
{
    match capture {
        Some(capture) => capture.packets.len() == packets,
        None => true,
    }
}

// Whether a report has as many packets as there are.
fn is_of(account: &Account, input: &Input) -> bool
    ensures { result ≡ has_packets_of account.now.report account.now.sent.items input.now }
{
    has_as_many(&input.capture, account.report.packets.len())
        && account.sent.len() == input.tx.packets.len()
}

// What the call stops with where a file behind the report stops it: with the report, where that is none.
fn first_stop<'a>(alloc: Global, text: &Bytes, behind: Stop<'a>) -> Stop<'a>
    ensures { IsFirstStop text.now behind.entry result }
{
    match read(alloc, text) {
        Ok(_) => behind,
        Err(stop) => stop,
    }
}

/// Loads all files that are asked for, and reads them but for the report: the savefile of the run, its report, its capture where it is named,
/// and the savefiles of the other router.
pub fn load_input<'a, F: Folder>(
    alloc: Global,
    folder: &mut F,
    ask: &Ask<'a>,
) -> Result<Input, Stop<'a>>
    ensures input { IfOk result (IsInput (F.contents folder.old) (ask_shown ask.now)) }
    ensures same { F.contents folder.new ≡ F.contents folder.old }
    ensures stop { IfErr result (OnRefusal (IsCause (input_causes (F.contents folder.old) (faults_of (F.faults folder.old) (F.faults folder.new)) (ask_shown ask.now)))) }
{
    let tx = match load_capture(alloc, folder, ask.tx) {
        Ok(tx) => tx,
        Err(stop) => return Err(stop),
    };
    let text = match load_file(folder, ask.report, LARGEST_REPORT) {
        Ok(text) => text,
        Err(stop) => return Err(stop),
    };
    let capture = match load_named(alloc, folder, ask.capture) {
        Ok(capture) => capture,
        Err(stop) => return Err(first_stop(alloc, &text, stop)),
    };
    let others = match load_all(alloc, folder, ask.others) {
        Ok(others) => others,
        Err(stop) => return Err(first_stop(alloc, &text, stop)),
    };
    Ok(Input {
        tx,
        text,
        capture,
        others,
    })
}

/// The report of a run whose files were loaded: its text is read, and it has as many packets as these files.
pub fn account_in<'a>(alloc: Global, input: &Input) -> Result<Account, Stop<'a>>
    ensures { MatchResult result (IsAccount input.now) (OnRefusal (IsCause (account_causes input.now))) }
{
    let report = match read(alloc, &input.text) {
        Ok(report) => report,
        Err(stop) => return Err(stop),
    };
    let Ok(sent) = numbers_of(alloc, &report, true) else {
        return Err(Stop::Memory);
    };
    let account = Account { report, sent };
    if is_of(&account, input) {
        Ok(account)
    } else {
        Err(Stop::Refused(Refusal::Packets))
    }
}

// The plan that a script makes.
fn plan_of<'a>(alloc: Global, text: &[u8]) -> Result<Plan, Stop<'a>>
    ensures plan { IfOk result (λ plan. MakesPlan text.now plan) }
    ensures stop { IfErr result (OnRefusal (IsOfScript text.now)) }
{
    let script = match parse_script(alloc, text) {
        Ok(script) => script,
        Err(fault) => return Err(script_stop(fault)),
    };
    match Plan::new(alloc, script) {
        Ok(plan) => Ok(plan),
        Err(fault) => Err(script_stop(fault)),
    }
}

/// Loads a script, and makes its plan.
pub fn load_plan<'a, F: Folder>(
    alloc: Global,
    folder: &mut F,
    name: &'a str,
) -> Result<Plan, Stop<'a>>
    ensures plan { IfOk result (λ plan. MakesPlanAt (F.contents folder.old) name.now plan) }
    ensures same { F.contents folder.new ≡ F.contents folder.old }
    ensures stop { IfErr result (OnRefusal (IsRouterCause (F.contents folder.old) (faults_of (F.faults folder.old) (F.faults folder.new)) name.now)) }
{
    let text = match load_file(folder, name, LARGEST_SCRIPT) {
        Ok(text) => text,
        Err(stop) => return Err(stop),
    };
    match plan_of(alloc, text.as_slice()) {
        Ok(plan) => Ok(plan),
        Err(stop) => Err(stop),
    }
}
