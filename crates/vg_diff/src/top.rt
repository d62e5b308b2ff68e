//! The top call.
ghost use Rattle.std.specs.Prelude.{◌≡◌, ◌≢◌, ◌↔◌, ◌⊎◌, ℕ, ◌+◌, ◌≤◌, List, [], Some, None, length, IfOk, IfErr, MatchResult};
ghost use Rattle.vg_match.specs.Diffs.{AllMatch, IsDiff};
ghost use Rattle.vg_match.specs.Sides.{seen};
ghost use Rattle.vg_outside.specs.Files.{Rose};
ghost use Rattle.vg_diff.specs.declared.refusals.Refusal.{Refusal as Refused};
ghost use Rattle.vg_diff.specs.Accounts.{IsAccount};
ghost use Rattle.vg_diff.specs.Asked.{ask_shown};
ghost use Rattle.vg_diff.specs.Dues.{IsDueFor};
ghost use Rattle.vg_diff.specs.Matches.{AreMatches};
ghost use Rattle.vg_diff.specs.Numbers.{starts_of as starts_of_captures, sent_numbers, dropped_numbers, frames_of_numbers};
ghost use Rattle.vg_diff.specs.Orders.{AreFlowHashes};
ghost use Rattle.vg_diff.specs.Refusals.{status_of as status_of_refusal, line_of};
ghost use Rattle.vg_diff.specs.Run.{packet_bytes, all_bytes, terms_of, called, IsAnswer, AnswersIn, Answers, IsFoundBy, IsRouterOf, IsRefused, IsDue, Appends, AppendsFront};
ghost use Rattle.vg_diff.specs.Stops.{OnRefusal, IsCause, IsRouterCause, faults_of, account_causes, input_causes};

use crate::answers::text_of;
use crate::differences::{differences, frames_at, frames_in, frames_of};
use crate::input::{Account, Input, account_in, load_input, load_plan};
use crate::lines::Findings;
use crate::linux::commands;
use crate::numbers::{numbers_of, starts_of};
use crate::orders::{flow_hashes, reordered};
use crate::printing::print;
use crate::refusals::{Refusal, Stop};
use crate::words::{Ask, asked, script_of_router};
use std::alloc::{AllocError, Global};
use std::thread::{Threads, join};
use vg_capture::Capture;
use vg_match::{Diff, Field, Range};
use vg_outside::{Folder, Sink};

/// What is due at the end: the exit status, and the text to print.
#[derive(Drop)]
pub struct Due {
    pub status: u8,
    pub text: Vec<u8>,
}

// The status that says whether all packets match.
fn status_of(diff: &Diff) -> u8
    ensures either { (result ≡ 0) ⊎ (result ≡ 9) }
    ensures all { (result ≡ 0) ↔ AllMatch diff.now }
{
    if diff.all_match() { 0 } else { 9 }
}

// How many of so many packets that had to come are left out: all but those that are the same, changed or missing.
fn wanted_left_out(diff: &Diff, all: usize) -> u64
    requires { length diff.now.same.items + (length diff.now.changed.items + length diff.now.missing.items) ≤ all }
    ensures { result + (length diff.now.same.items + (length diff.now.changed.items + length diff.now.missing.items)) ≡ all }
{
    (all - diff.same.len() - diff.changed.len() - diff.missing.len()) as u64
}

// How many of so many packets that came are left out: all but those that are the same, changed, there or extra.
fn got_left_out(diff: &Diff, all: usize) -> u64
    requires { length diff.now.same.items + (length diff.now.changed.items + (length diff.now.there.items + length diff.now.extra.items)) ≤ all }
    ensures { result + (length diff.now.same.items + (length diff.now.changed.items + (length diff.now.there.items + length diff.now.extra.items))) ≡ all }
{
    let rest = all - diff.same.len() - diff.changed.len();
    (rest - diff.there.len() - diff.extra.len()) as u64
}

// The frames of a comparison.
#[derive(Clone, Copy)]
struct Frames<'a> {
    // Those of the run's savefile.
    wanted: &'a [&'a [u8]],
    // Those that came, and the numbers of the first packet of each savefile but the first.
    got: &'a [&'a [u8]],
    starts: &'a [u32],
}

// What is found of frames.
#[derive(Drop)]
struct Matches {
    diff: Diff,
    // How many of those that are the same came in another order.
    reordered: u64,
}

// What is found of frames and of those that were dropped. A thread of its own hashes the flows in the order of the frames, while the frames
// are compared.
fn matches_of<R: Threads>(
    rt: &R,
    alloc: Global,
    frames: &Frames<'_>,
    drops: &[&[u8]],
    ignored: &[Field],
    only: &[Range],
) -> Result<Matches, AllocError>
    ensures { IfOk result (AreMatches ignored.now only.now frames.now.wanted.now frames.now.got.now frames.now.starts.now (seen drops.now)) }
{
    let (wanted, got) = (frames.wanted, frames.got);
    let (hashes, diff) = join(
        rt,
        ||
            ensures { IfOk result (λ hashes. AreFlowHashes wanted.entry.now hashes.items) }
        { flow_hashes(alloc, wanted) },
        ||
            ensures { IfOk result (IsDiff ignored.entry.now
                (record { only = only.entry.now; wanted = seen wanted.entry.now; got = seen got.entry.now; dropped = seen drops.entry.now })) }
        { differences(rt, alloc, wanted, got, drops, ignored, only) },
    );
    let diff = diff?;
    let hashes = hashes?;
    let reordered = reordered(
        alloc,
        diff.same.as_slice(),
        wanted,
        hashes.as_slice(),
        frames.starts,
    )?;
    Ok(Matches { diff, reordered })
}

// What is found of frames where none is known of those that were dropped. They are handed over as slices: of a closure that holds them as
// one, its caller knows nothing.
fn matches_alone<R: Threads>(
    rt: &R,
    alloc: Global,
    wanted: &[&[u8]],
    got: &[&[u8]],
    starts: &[u32],
    ignored: &[Field],
    only: &[Range],
) -> Result<Matches, AllocError>
    ensures { IfOk result (AreMatches ignored.now only.now wanted.now got.now starts.now []) }
{
    let frames = Frames {
        wanted,
        got,
        starts,
    };
    matches_of(rt, alloc, &frames, &[], ignored, only)
}

// The packets of a run that were dropped: their frames as far as they are known, and their numbers in the run.
#[derive(Clone, Copy)]
struct Drops<'a> {
    frames: &'a [&'a [u8]],
    numbers: &'a [u32],
}

// What is due for what is found of frames and of those that were dropped.
fn due_of(
    alloc: Global,
    ask: &Ask<'_>,
    frames: &Frames<'_>,
    drops: &Drops<'_>,
    matches: &Matches,
    account: &Account,
) -> Result<Due, AllocError>
    requires matches { AreMatches ask.now.ignored.items ask.now.only.items frames.now.wanted.now frames.now.got.now frames.now.starts.now (seen drops.now.frames.now) matches.now }
    requires sent { account.now.sent.items ≡ sent_numbers account.now.report }
    ensures { IfOk result (λ due. IsAnswer (terms_of (ask_shown ask.now)) (record {
      wanted = seen frames.now.wanted.now;
      got = seen frames.now.got.now;
      starts = frames.now.starts.now;
      report = account.now.report;
      dropped = seen drops.now.frames.now;
      numbers = drops.now.numbers.now;
    }) due.status due.text.items) }
{
    let diff = &matches.diff;
    let wanted_noise = wanted_left_out(diff, frames.wanted.len());
    let got_noise = got_left_out(diff, frames.got.len());
    let found = Findings {
        diff,
        reordered: matches.reordered,
        noise: (wanted_noise, got_noise),
        wanted: frames.wanted,
        sent: account.sent.as_slice(),
        got: frames.got,
        starts: frames.starts,
        dropped: drops.numbers,
        report: &account.report,
        ignored: ask.ignored.as_slice(),
    };
    let text = text_of(alloc, &found, ask.manner)?;
    Ok(Due {
        status: status_of(diff),
        text,
    })
}

// What is due for frames of what was loaded, where the run's capture is not among it: one thread compares the frames while the other reads
// the report.
fn due_beside<'a, R: Threads + Sync>(
    rt: &R,
    alloc: Global,
    ask: &Ask<'a>,
    input: &Input,
    frames: &Frames<'_>,
) -> Result<Due, Stop<'a>>
    requires wanted { seen frames.now.wanted.now ≡ packet_bytes input.now.tx.packets }
    requires got { seen frames.now.got.now ≡ all_bytes input.now.others.items }
    requires starts { frames.now.starts.now ≡ starts_of_captures input.now.others.items }
    requires capture { input.now.capture ≡ None }
    ensures answers { IfOk result (λ due. AnswersIn (terms_of (ask_shown ask.now)) input.now due.status due.text.items) }
    ensures stop { IfErr result (OnRefusal (IsCause (account_causes input.now))) }
{
    let (wanted, got, starts) = (frames.wanted, frames.got, frames.starts);
    let ignored = ask.ignored.as_slice();
    let only = ask.only.as_slice();
    let (matches, account) = join(
        rt,
        ||
            ensures { IfOk result (AreMatches ignored.entry.now only.entry.now wanted.entry.now got.entry.now starts.entry.now []) }
        { matches_alone(rt, alloc, wanted, got, starts, ignored, only) },
        ||
            ensures { MatchResult result (IsAccount input.entry.now) (OnRefusal (IsCause (account_causes input.entry.now))) }
        { account_in(alloc, input) },
    );
    let account = match account {
        Ok(account) => account,
        Err(stop) => return Err(stop),
    };
    let Ok(matches) = matches else {
        return Err(Stop::Memory);
    };
    let drops = Drops {
        frames: &[],
        numbers: &[],
    };
    match due_of(alloc, ask, frames, &drops, &matches, &account) {
        Ok(due) => Ok(due),
        Err(_) => Err(Stop::Memory),
    }
}

// What is due for frames and for what the report says was dropped, with the run's capture.
fn due_with<R: Threads>(
    rt: &R,
    alloc: Global,
    ask: &Ask<'_>,
    frames: &Frames<'_>,
    account: &Account,
    capture: &Capture,
) -> Result<Due, AllocError>
    requires { account.now.sent.items ≡ sent_numbers account.now.report }
    ensures { IfOk result (λ due. IsAnswer (terms_of (ask_shown ask.now)) (record {
      wanted = seen frames.now.wanted.now;
      got = seen frames.now.got.now;
      starts = frames.now.starts.now;
      report = account.now.report;
      dropped = frames_of_numbers (packet_bytes capture.now.packets) (dropped_numbers account.now.report);
      numbers = dropped_numbers account.now.report;
    }) due.status due.text.items) }
{
    let numbers = numbers_of(alloc, &account.report, false)?;
    let known = frames_at(alloc, capture, numbers.as_slice())?;
    let drops = Drops {
        frames: known.as_slice(),
        numbers: numbers.as_slice(),
    };
    let matches = matches_of(
        rt,
        alloc,
        frames,
        drops.frames,
        ask.ignored.as_slice(),
        ask.only.as_slice(),
    )?;
    due_of(alloc, ask, frames, &drops, &matches, account)
}

// What is due for frames of what was loaded, with the run's capture among it: the report says which of its packets were dropped, and is
// read first.
fn due_behind<'a, R: Threads>(
    rt: &R,
    alloc: Global,
    ask: &Ask<'a>,
    input: &Input,
    frames: &Frames<'_>,
    capture: &Capture,
) -> Result<Due, Stop<'a>>
    requires wanted { seen frames.now.wanted.now ≡ packet_bytes input.now.tx.packets }
    requires got { seen frames.now.got.now ≡ all_bytes input.now.others.items }
    requires starts { frames.now.starts.now ≡ starts_of_captures input.now.others.items }
    requires capture { input.now.capture ≡ Some capture.now }
    ensures answers { IfOk result (λ due. AnswersIn (terms_of (ask_shown ask.now)) input.now due.status due.text.items) }
    ensures stop { IfErr result (OnRefusal (IsCause (account_causes input.now))) }
{
    let account = match account_in(alloc, input) {
        Ok(account) => account,
        Err(stop) => return Err(stop),
    };
    match due_with(rt, alloc, ask, frames, &account, capture) {
        Ok(due) => Ok(due),
        Err(_) => Err(Stop::Memory),
    }
}

// What is due for what was loaded.
fn compared<'a, R: Threads + Sync>(
    rt: &R,
    alloc: Global,
    ask: &Ask<'a>,
    input: &Input,
) -> Result<Due, Stop<'a>>
    ensures answers { IfOk result (λ due. AnswersIn (terms_of (ask_shown ask.now)) input.now due.status due.text.items) }
    ensures stop { IfErr result (OnRefusal (IsCause (account_causes input.now))) }
{
    let Ok(wanted) = frames_in(alloc, &input.tx) else {
        return Err(Stop::Memory);
    };
    let Ok(got) = frames_of(alloc, input.others.as_slice()) else {
        return Err(Stop::Memory);
    };
    let Ok(starts) = starts_of(alloc, input.others.as_slice()) else {
        return Err(Stop::Memory);
    };
    let frames = Frames {
        wanted: wanted.as_slice(),
        got: got.as_slice(),
        starts: starts.as_slice(),
    };
    match &input.capture {
        Some(capture) => due_behind(rt, alloc, ask, input, &frames, capture),
        None => due_beside(rt, alloc, ask, input, &frames),
    }
}

/// What is due for what is asked, over the files of a folder.
pub fn answer<'a, F: Folder, R: Threads + Sync>(
    rt: &R,
    alloc: Global,
    ask: &Ask<'a>,
    folder: &mut F,
) -> Result<Due, Stop<'a>>
    ensures answer { IfOk result (λ due. Answers (F.contents folder.old) (ask_shown ask.now) due.status due.text.items) }
    ensures stop { IfErr result (OnRefusal (IsCause (input_causes (F.contents folder.old) (faults_of (F.faults folder.old) (F.faults folder.new)) (ask_shown ask.now)))) }
    ensures same { F.contents folder.new ≡ F.contents folder.old }
{
    let input = match load_input(alloc, folder, ask) {
        Ok(input) => input,
        Err(stop) => return Err(stop),
    };
    compared(rt, alloc, ask, &input)
}

// What is due where the kernel's router of a script is asked for.
fn router<'a, F: Folder>(alloc: Global, script: &'a str, folder: &mut F) -> Result<Due, Stop<'a>>
    ensures router { IfOk result (λ due. IsRouterOf (F.contents folder.old) script.now due.status due.text.items) }
    ensures stop { IfErr result (OnRefusal (IsRouterCause (F.contents folder.old) (faults_of (F.faults folder.old) (F.faults folder.new)) script.now)) }
    ensures same { F.contents folder.new ≡ F.contents folder.old }
{
    let plan = match load_plan(alloc, folder, script) {
        Ok(plan) => plan,
        Err(stop) => return Err(stop),
    };
    match commands(alloc, &plan) {
        Ok(text) => Ok(Due { status: 0, text }),
        Err(_) => Err(Stop::Memory),
    }
}

// What is due for the words, over the files of a folder.
fn found<'a, F: Folder, R: Threads + Sync>(
    rt: &R,
    alloc: Global,
    words: &'a [&'a str],
    folder: &mut F,
) -> Result<Due, Stop<'a>>
    ensures found { IfOk result (λ due. IsFoundBy (called words.entry.now (F.contents folder.old) (F.faults folder.old) (F.faults folder.new)) due.status due.text.items) }
    ensures stop { IfErr result (OnRefusal (IsRefused (called words.entry.now (F.contents folder.old) (F.faults folder.old) (F.faults folder.new)))) }
    ensures same { F.contents folder.new ≡ F.contents folder.old }
{
    if let Some(script) = script_of_router(words) {
        return router(alloc, script, folder);
    }
    let Ok(ask) = asked(alloc, words) else {
        return Err(Stop::Memory);
    };
    let Some(ask) = ask else {
        return Err(Stop::Refused(Refusal::Usage));
    };
    answer(rt, alloc, &ask, folder)
}

// What is due for what was found, or for a refusal; nothing where memory ran out.
fn due_for(alloc: Global, found: Result<Due, Stop<'_>>) -> Option<Due>
    ensures { IsDueFor found.entry result }
{
    match found {
        Ok(due) => Some(due),
        Err(Stop::Memory) => None,
        Err(Stop::Refused(refusal)) => match refusal.line(alloc) {
            Ok(line) => Some(Due {
                status: refusal.status(),
                text: line.into_bytes(),
            }),
            Err(_) => None,
        },
    }
}

/// Holds the packets that another router put out against those of a run, over a folder and a sink, and answers the exit status.
///
/// 0: all packets match, up to what is ignored, and how they do was printed; or the commands for the kernel's router were. 9: they don't, and
/// how they differ was printed. 1: memory ran out, and nothing was printed. 2 to 5: nothing is compared, and one line is printed that says why.
/// 7: the sink failed in the middle of what was to be printed.
pub fn diff_run<F: Folder, O: Sink, R: Threads + Sync>(
    rt: &R,
    alloc: Global,
    words: &[&str],
    folder: &mut F,
    out: &mut O,
) -> u8
    // 0 and 9: what the words ask for was printed: how the packets differ; or, at 0, the commands for the kernel's router.
    ensures found { (result ≡ 0) ⊎ (result ≡ 9) → (text : List ℕ)
        × IsFoundBy (called words.now (F.contents folder.old) (F.faults folder.old) (F.faults folder.new)) result text
        × Appends (O.written out.old) (O.written out.new) text }

    // 1: memory ran out.
    ensures memory { result ≡ 1 → O.written out.new ≡ O.written out.old }

    // 2 to 5: nothing is compared, for what the words or the files are, and the line of the refusal was printed.
    ensures refused { 2 ≤ result → result ≤ 5 → (refusal : Refused) × (result ≡ status_of_refusal refusal)
        × IsRefused (called words.now (F.contents folder.old) (F.faults folder.old) (F.faults folder.new)) refusal
        × Appends (O.written out.old) (O.written out.new) (line_of refusal) }

    // 7: the sink failed, after a proper front of what was due.
    ensures printing { result ≡ 7 → Rose (O.faults out.old) (O.faults out.new) × (status : ℕ) × (text : List ℕ)
        × IsDue (called words.now (F.contents folder.old) (F.faults folder.old) (F.faults folder.new)) status text
        × AppendsFront (O.written out.old) (O.written out.new) text }

    // At any other status no call of the sink failed.
    ensures quiet { result ≢ 7 → O.faults out.new ≡ O.faults out.old }

    // There is no other status.
    ensures statuses { (result ≤ 5) ⊎ ((result ≡ 7) ⊎ (result ≡ 9)) }

    // No file changes.
    ensures same { F.contents folder.new ≡ F.contents folder.old }
{
    let Some(due) = due_for(alloc, found(rt, alloc, words, folder)) else {
        return 1;
    };
    match print(out, due.text.as_slice()) {
        Ok(()) => due.status,
        Err(_) => 7,
    }
}
