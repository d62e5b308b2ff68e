//! The calls of rows.
ghost use Rattle.std.specs.Prelude.{◌≡◌, IfOk, if◌then◌else◌, length};
ghost use Rattle.std.specs.List.{list_all};
ghost use Rattle.vg_row.specs.Holds.{has_held};
ghost use Rattle.vg_rows.specs.Run.{AreJudged, IsCheckMissOf, IsJudged, IsMissOf, RunsLines};

use crate::sentences::sentence_of;
use std::alloc::{AllocError, Global};
use std::sync::Wait;
use std::thread::Threads;
use vg_differs::{Finding, sentence};
use vg_outside::{OpenGate, SureFolder, SureSink};
use vg_row::{
    Call, Cause, Fault, Judged, Kept, Miss, Outcome, Row, check_of, first_miss, read_rows,
    status_of,
};
use vg_top::{Done, vgd_run};

/// What a call of the program with these words comes to, over a folder of these files, and what is found of a check.
fn called<R: Wait + Threads + Sync>(
    rt: &R,
    alloc: Global,
    words: &[String],
    files: &[Kept],
) -> Result<(Outcome, Option<Finding>), AllocError> {
    let mut folder = SureFolder::new(alloc);
    for file in files {
        folder.add(file.name.as_str(), file.bytes.as_slice())?;
    }
    let words = words
        .iter()
        .map(|word| word.as_str())
        .collect::<Vec<&str>>(alloc)?;
    let mut out = SureSink::new(alloc);
    let Done { status, found, .. } = vgd_run(
        rt,
        alloc,
        words.as_slice(),
        &mut folder,
        &mut out,
        &OpenGate,
    );
    let outcome = Outcome {
        status,
        printed: out.written,
        saved: match folder.file("t") {
            Some(bytes) => Some(bytes.to_vec(alloc)?),
            None => None,
        },
    };
    Ok((outcome, found))
}

/// The line on what is found of a check, where something is.
fn line_on(alloc: Global, found: Option<Finding>) -> Result<Vec<u8>, AllocError> {
    let Some(finding) = found else {
        return Ok(Vec::new(alloc));
    };
    let sentence = sentence(alloc, &finding)?;
    let line = format!(in alloc; "{sentence}\n")?;
    Ok(line.into_bytes())
}

/// What a call for a sentence comes to: with the words of a check what the check comes to, but that the line on what is found of it is printed.
fn explained<R: Wait + Threads + Sync>(
    rt: &R,
    alloc: Global,
    words: &[String],
    files: &[Kept],
) -> Result<Outcome, AllocError> {
    match words.first() {
        Some(word) if word.as_str() == "check" => {
            let (outcome, found) = called(rt, alloc, words, files)?;
            Ok(Outcome {
                printed: line_on(alloc, found)?,
                ..outcome
            })
        }
        _ => Ok(Outcome {
            status: 0,
            printed: sentence_of(alloc, words, files)?,
            saved: None,
        }),
    }
}

/// What the calls of a row come to, in their order.
fn outcomes_of<R: Wait + Threads + Sync>(
    rt: &R,
    alloc: Global,
    row: &Row,
) -> Result<Vec<Outcome>, AllocError>
    ensures { IfOk result (λ outcomes. length outcomes.items ≡ length row.now.calls.items) }
{
    let mut outcomes = Vec::new(alloc);
    for call in row.calls.as_slice() {
        let outcome = match call {
            Call::Program(words) => {
                let (outcome, _) = called(rt, alloc, words.as_slice(), row.files.as_slice())?;
                outcome
            }
            Call::Sentence(words) => {
                explained(rt, alloc, words.as_slice(), row.files.as_slice())?
            }
        };
        outcomes.push(outcome)?;
    }
    Ok(outcomes)
}

/// Runs the calls of a row: the first that missed, if one did.
fn miss_of<R: Wait + Threads + Sync>(
    rt: &R,
    alloc: Global,
    row: &Row,
) -> Result<Option<Miss>, AllocError>
    ensures { IfOk result (IsMissOf row.now) }
{
    let outcomes = outcomes_of(rt, alloc, row)?;
    Ok(first_miss(row, outcomes.as_slice()))
}

/// Runs the check of a row, where it has one: whether it missed, and how.
fn check_miss_of<R: Wait + Threads + Sync>(
    rt: &R,
    alloc: Global,
    row: &Row,
) -> Result<Option<Miss>, AllocError>
    ensures { IfOk result (IsCheckMissOf row.now) }
{
    match check_of(alloc, row)? {
        Some(check) => miss_of(rt, alloc, &check),
        None => Ok(None),
    }
}

/// Whether a row holds, and where it doesn't.
fn run_row<R: Wait + Threads + Sync>(rt: &R, alloc: Global, row: &Row) -> Result<Judged, AllocError>
    ensures { IfOk result (IsJudged row.now) }
{
    Ok(Judged {
        name: row.name.clone()?,
        miss: miss_of(rt, alloc, row)?,
        check_miss: check_miss_of(rt, alloc, row)?,
    })
}

/// Whether each of these rows holds, in their order.
fn run_rows<R: Wait + Threads + Sync>(
    rt: &R,
    alloc: Global,
    rows: &[Row],
) -> Result<Vec<Judged>, AllocError>
    ensures { IfOk result (λ judged. AreJudged rows.now judged.items) }
{
    let mut judged = Vec::new(alloc);
    for row in rows {
        judged.push(run_row(rt, alloc, row)?)?;
    }
    Ok(judged)
}

/// What came of the rows of a text.
#[derive(Drop)]
pub(crate) struct Ran {
    /// Each row, in their order.
    pub(crate) judged: Vec<Judged>,
    /// The exit status: 0 exactly where every row holds.
    pub(crate) status: u8,
}

/// Runs the rows that the lines of a text say: each line `row NAME` makes one.
///
/// # Errors
///
/// The number of the line that is refused, and why; 0 where memory ran out in a run.
pub(crate) fn run_lines<R: Wait + Threads + Sync>(
    rt: &R,
    alloc: Global,
    lines: &[&str],
) -> Result<Ran, Fault>
    ensures rows { IfOk result (λ ran. RunsLines lines.now ran.judged.items) }
    ensures status { IfOk result (λ ran. ran.status ≡ (if list_all has_held ran.judged.items then 0 else 1)) }
{
    let rows = read_rows(alloc, lines)?;
    let Ok(judged) = run_rows(rt, alloc, rows.as_slice()) else {
        return Err(Fault {
            line: 0,
            cause: Cause::Memory,
        });
    };
    let status = status_of(judged.as_slice());
    Ok(Ran { judged, status })
}
