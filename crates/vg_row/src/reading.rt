//! The rows that lines say.
ghost use Rattle.std.specs.Prelude.{◌≡◌, IfOk, OnOk, string_bytes};
ghost use Rattle.vg_row.specs.Names.{Goes, names_left, names_of, names_said};

use crate::building::{Form, build, number};
use crate::cursor::{Lines, Said, first_word};
use crate::rows::{Call, Cause, Fault, Kept, Printed, Row};
use std::alloc::{AllocError, Global};

/// The bytes that a first line says, where it isn't empty, and that the next lines say.
fn read_bytes(
    alloc: Global,
    parts: &[Kept],
    lines: &mut Lines<'_>,
    first: &str,
) -> Result<Vec<u8>, Cause>
    ensures { OnOk result (Goes lines.old lines.new) }
{
    let mut bytes = Vec::new(alloc);
    if !first.is_empty() {
        let (word, rest) = first_word(first);
        match Form::of(word) {
            Some(form) => build(alloc, &mut bytes, parts, form, rest)?,
            None => return Err(Cause::Line),
        }
    }
    while let Some((form, rest)) = lines.bytes_line() {
        build(alloc, &mut bytes, parts, form, rest)?;
    }
    Ok(bytes)
}

/// A name, and the bytes that stand behind it and that the next lines say.
fn read_kept(
    alloc: Global,
    parts: &[Kept],
    lines: &mut Lines<'_>,
    text: &str,
) -> Result<Kept, Cause>
    ensures { OnOk result (Goes lines.old lines.new) }
{
    let (name, first) = first_word(text);
    Ok(Kept {
        name: String::from_str(alloc, name)?,
        bytes: read_bytes(alloc, parts, lines, first)?,
    })
}

/// The words of a text, parted by blanks; '' is an empty word.
fn words_of(alloc: Global, text: &str) -> Result<Vec<String>, AllocError> {
    let mut words = Vec::new(alloc);
    for word in text.split_whitespace() {
        let word = if word == "''" { "" } else { word };
        words.push(String::from_str(alloc, word)?)?;
    }
    Ok(words)
}

/// The bytes of the file of a name, where there is one.
fn bytes_of(files: &[Kept], name: &str) -> Result<Option<Vec<u8>>, AllocError> {
    match files.iter().find(|file| file.name.as_str() == name) {
        Some(file) => Ok(Some(file.bytes.clone()?)),
        None => Ok(None),
    }
}

/// A row of which some lines were read.
#[derive(Drop)]
struct Draft {
    calls: Vec<Call>,
    files: Vec<Kept>,
    status: u8,
    printed: Option<Printed>,
    saved: Option<Vec<u8>>,
    is_checked: bool,
}

impl Draft {
    /// A row of which no line was read.
    fn new(alloc: Global) -> Draft {
        Draft {
            calls: Vec::new(alloc),
            files: Vec::new(alloc),
            status: 0,
            printed: None,
            saved: None,
            is_checked: false,
        }
    }

    /// Takes a line of the row, whose words these are, and the bytes in the lines below.
    fn take(
        &mut self,
        alloc: Global,
        parts: &[Kept],
        lines: &mut Lines<'_>,
        word: &str,
        rest: &str,
    ) -> Result<(), Cause>
        ensures { OnOk result (Goes lines.old lines.new) }
    {
        match word {
            "call" => self.calls.push(Call::Program(words_of(alloc, rest)?))?,
            "explain" => self.calls.push(Call::Sentence(words_of(alloc, rest)?))?,
            "checked" => self.is_checked = true,
            "status" => self.status = u8::try_from(number(rest)?).map_err(|_| Cause::Number)?,
            "file" => self.files.push(read_kept(alloc, parts, lines, rest)?)?,
            "prints" => self.printed = Some(Printed::Whole(read_bytes(alloc, parts, lines, rest)?)),
            "begins" => self.printed = Some(Printed::Begin(read_bytes(alloc, parts, lines, rest)?)),
            "ends" => self.printed = Some(Printed::End(read_bytes(alloc, parts, lines, rest)?)),
            "saves" => self.saved = Some(read_bytes(alloc, parts, lines, rest)?),
            _ => return Err(Cause::Line),
        }
        Ok(())
    }

    /// The whole row of this name.
    fn end(self, alloc: Global, name: &str) -> Result<Row, Cause>
        ensures { IfOk result (λ row. string_bytes row.name ≡ name.now) }
    {
        let Draft {
            calls,
            files,
            status,
            printed,
            saved,
            is_checked,
        } = self;
        let Some(printed) = printed else {
            return Err(Cause::Printed);
        };
        if calls.is_empty() {
            return Err(Cause::Call);
        }
        if is_checked && (saved.is_none() || !matches!(printed, Printed::Whole(_))) {
            return Err(Cause::Checked);
        }
        let saved = match saved {
            Some(bytes) => Some(bytes),
            None => bytes_of(files.as_slice(), "t")?,
        };
        Ok(Row {
            name: String::from_str(alloc, name)?,
            calls,
            files,
            status,
            printed,
            saved,
            is_checked,
        })
    }
}

/// The row of this name that the next lines say, up to a line that begins a row or a part.
fn read_row(alloc: Global, parts: &[Kept], lines: &mut Lines<'_>, name: &str) -> Result<Row, Cause>
    ensures name { IfOk result (λ row. string_bytes row.name ≡ name.now) }
    ensures lines { OnOk result (Goes lines.old lines.new) }
{
    let mut draft = Draft::new(alloc);
    while let Some((word, rest)) = lines.row_line() {
        draft.take(alloc, parts, lines, word, rest)?;
    }
    draft.end(alloc, name)
}

/// The rows that all lines say.
fn read_all(alloc: Global, lines: &mut Lines<'_>) -> Result<Vec<Row>, Cause>
    ensures { IfOk result (λ rows. names_of rows.items ≡ names_left lines.old) }
{
    let mut parts = Vec::new(alloc);
    let mut rows = Vec::new(alloc);
    while let Some(said) = lines.next() {
        match said {
            Said::Nothing => {}
            Said::Row(name) => rows.push(read_row(alloc, parts.as_slice(), lines, name)?)?,
            Said::Words("part", rest) => {
                parts.push(read_kept(alloc, parts.as_slice(), lines, rest)?)?;
            }
            Said::Words(_, _) => return Err(Cause::Line),
        }
    }
    Ok(rows)
}

/// The rows that the lines of a text say. Each line `row NAME` makes one, in their order; no other does.
///
/// # Errors
///
/// The number of the line that is refused, and why.
pub fn read_rows(alloc: Global, lines: &[&str]) -> Result<Vec<Row>, Fault>
    ensures { IfOk result (λ rows. names_of rows.items ≡ names_said lines.now) }
{
    let mut lines = Lines {
        rest: lines,
        taken: 0,
    };
    match read_all(alloc, &mut lines) {
        Ok(rows) => Ok(rows),
        Err(cause) => Err(Fault {
            line: lines.taken,
            cause,
        }),
    }
}
