//! Whether rows hold.
ghost use Rattle.std.specs.Prelude.{◌≡◌, IfOk, IfSome, count_by, is_none, is_some, if◌then◌else◌};
ghost use Rattle.std.specs.List.{list_all};
ghost use Rattle.vg_row.specs.Holds.{IsCheck, IsCheckOf, all_hold, can_check, has_held};

use crate::outcomes::{Difference, Outcome, difference_of};
use crate::rows::{Call, Kept, Printed, Row};
use std::alloc::{AllocError, Global};

/// The first call of a row that didn't come to what the row says.
#[derive(Clone, Copy, Debug, PartialEq, Eq)]
pub struct Miss {
    /// Its number, from 1.
    pub call: usize,
    pub difference: Difference,
}

/// What a row's calls came to.
#[derive(Drop)]
pub struct Judged {
    /// The row's name.
    pub name: String,
    /// The first of its calls that missed, if one did.
    pub miss: Option<Miss>,
    /// Whether the check of what it saves and prints missed, and how.
    pub check_miss: Option<Miss>,
}

/// Of the outcomes of a row's calls, the first that isn't as the row says; `None` exactly where the row holds at each.
pub fn first_miss(row: &Row, outcomes: &[Outcome]) -> Option<Miss>
    ensures { is_none result ≡ all_hold row.now outcomes.now }
{
    let mut rest = outcomes;
    let mut call: usize = 0;
    while let [outcome, others @ ..] = rest {
        call = call.saturating_add(1);
        if let Some(difference) = difference_of(row, outcome) {
            return Some(Miss { call, difference });
        }
        rest = others;
    }
    None
}

/// The words of a check.
const CHECK: [&str; 5] = ["check", "c", "s", "t", "r"];

/// What a check prints that says yes.
const YES: [u8; 4] = *b"yes\n";

/// A copy of a file.
fn copy_of(file: &Kept) -> Result<Kept, AllocError> {
    Ok(Kept {
        name: file.name.clone()?,
        bytes: file.bytes.clone()?,
    })
}

/// A file.
fn file_of(alloc: Global, name: &str, bytes: &[u8]) -> Result<Kept, AllocError> {
    Ok(Kept {
        name: String::from_str(alloc, name)?,
        bytes: bytes.to_vec(alloc)?,
    })
}

/// The words of a check.
fn check_words(alloc: Global) -> Result<Vec<String>, AllocError> {
    let mut words = Vec::new(alloc);
    for word in CHECK {
        words.push(String::from_str(alloc, word)?)?;
    }
    Ok(words)
}

/// The row of a check of a row that saves and prints these.
fn check_row(alloc: Global, row: &Row, saved: &[u8], printed: &[u8]) -> Result<Row, AllocError>
    ensures { IfOk result (λ check. IsCheck saved.now check) }
{
    let mut calls = Vec::new(alloc);
    calls.push(Call::Program(check_words(alloc)?))?;
    let mut files = Vec::new(alloc);
    for file in row.files.as_slice() {
        if file.name.as_str() == "c" || file.name.as_str() == "s" {
            files.push(copy_of(file)?)?;
        }
    }
    files.push(file_of(alloc, "t", saved)?)?;
    files.push(file_of(alloc, "r", printed)?)?;
    Ok(Row {
        name: row.name.clone()?,
        calls,
        files,
        status: 0,
        printed: Printed::Whole(YES.to_vec(alloc)?),
        saved: Some(saved.to_vec(alloc)?),
        is_checked: false,
    })
}

/// The row which says that a check of what this one saves and prints says yes; `None` exactly where this one isn't checked, or doesn't save, or
/// doesn't say all that is printed.
pub fn check_of(alloc: Global, row: &Row) -> Result<Option<Row>, AllocError>
    ensures some { IfOk result (λ check. is_some check ≡ can_check row.now) }
    ensures row { IfOk result (λ check. IfSome check (IsCheckOf row.now)) }
{
    if !row.is_checked {
        return Ok(None);
    }
    let Some(saved) = &row.saved else {
        return Ok(None);
    };
    let Printed::Whole(printed) = &row.printed else {
        return Ok(None);
    };
    let check = check_row(alloc, row, saved.as_slice(), printed.as_slice())?;
    Ok(Some(check))
}

/// How many of the rows hold.
pub fn held(judged: &[Judged]) -> usize
    ensures { result ≡ count_by has_held judged.now }
{
    judged.iter().filter(|row| row.holds()).count()
}

impl Judged {
    /// Whether the row holds.
    pub fn holds(&self) -> bool
        ensures { result ≡ has_held self.now }
    {
        self.miss.is_none() && self.check_miss.is_none()
    }
}

/// The exit status: 0 exactly where every row holds.
pub fn status_of(judged: &[Judged]) -> u8
    ensures { result ≡ (if list_all has_held judged.now then 0 else 1) }
{
    let mut rest = judged;
    while let [row, others @ ..] = rest {
        if !row.holds() {
            return 1;
        }
        rest = others;
    }
    0
}
