//! What a row is, and why a text has none.

use std::alloc::{AllocError, AllocFailed};
use std::error::Error;
use std::fmt;

/// A name, and the bytes that it stands for: a file before a call, or a part.
#[derive(Drop)]
pub struct Kept {
    pub name: String,
    pub bytes: Vec<u8>,
}

/// A call.
#[derive(Drop)]
pub enum Call {
    /// Of the program, with these words.
    Program(Vec<String>),
    /// For a sentence, with these words.
    Sentence(Vec<String>),
}

/// What is printed.
#[derive(Drop)]
pub enum Printed {
    /// These bytes.
    Whole(Vec<u8>),
    /// Bytes that begin so.
    Begin(Vec<u8>),
    /// Bytes that end so.
    End(Vec<u8>),
}

/// A row: calls, and what each has to come to.
#[derive(Drop)]
pub struct Row {
    pub name: String,
    /// The calls, in their order.
    pub calls: Vec<Call>,
    /// The files that are there before each call.
    pub files: Vec<Kept>,
    /// The exit status.
    pub status: u8,
    pub printed: Printed,
    /// What the file `t` holds after each call, where it is to be there.
    pub saved: Option<Vec<u8>>,
    /// Whether a check of what is saved and printed says yes.
    pub is_checked: bool,
}

/// Why a line of a text is refused.
#[derive(Clone, Copy, Debug, PartialEq, Eq)]
pub enum Cause {
    /// Memory ran out.
    Memory,
    /// No such line may stand here.
    Line,
    /// A number isn't in decimal digits, or is too great.
    Number,
    /// A byte isn't a pair of hexadecimal digits.
    Digits,
    /// No part above has this name.
    Part,
    /// The text that is to be changed doesn't stand in the bytes.
    Change,
    /// A row has no call.
    Call,
    /// A row doesn't say what is printed.
    Printed,
    /// A row that is checked doesn't say all that is printed, or doesn't save.
    Checked,
}

impl fmt::Display for Cause {
    fn fmt<W: fmt::Write>(&self, f: &mut fmt::Formatter<W>) -> fmt::Result {
        f.write_str(match self {
            Cause::Memory => "memory ran out",
            Cause::Line => "no such line may stand here",
            Cause::Number => "a number is in decimal digits, and isn't too great",
            Cause::Digits => "a byte is a pair of hexadecimal digits",
            Cause::Part => "no part above has this name",
            Cause::Change => "the text that is to be changed doesn't stand in the bytes",
            Cause::Call => "this row has no call",
            Cause::Printed => "this row doesn't say what is printed",
            Cause::Checked => "a row that is checked says all that is printed, and saves",
        })
    }
}

impl From<AllocError> for Cause {
    fn from(_error: AllocError) -> Cause {
        Cause::Memory
    }
}

impl<T: Drop> From<AllocFailed<T>> for Cause {
    fn from(_failed: AllocFailed<T>) -> Cause {
        Cause::Memory
    }
}

/// Why a text has no rows: the number of a line, from 1, and what is wrong with it.
#[derive(Clone, Copy, Debug, PartialEq, Eq)]
pub struct Fault {
    pub line: usize,
    pub cause: Cause,
}

impl fmt::Display for Fault {
    fn fmt<W: fmt::Write>(&self, f: &mut fmt::Formatter<W>) -> fmt::Result {
        let line = self.line;
        let cause = self.cause;
        write!(f, "line {line}: {cause}")
    }
}

impl Error for Cause {}

impl Error for Fault {}
