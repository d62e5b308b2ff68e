//! Sentences for people, in place of calls of the program.

use std::alloc::{AllocError, Global};
use vg_explain::{capture_fault, script_fault, words_fault};
use vg_row::Kept;

/// The bytes of the file of a name.
fn bytes_of<'a>(files: &'a [Kept], name: &str) -> &'a [u8] {
    match files.iter().find(|file| file.name.as_str() == name) {
        Some(file) => file.bytes.as_slice(),
        None => &[],
    }
}

/// The sentence that words ask for: `words WORD..` what is wrong with the words of a call, `script LINE CAUSE` with the file `s`,
/// `capture CAUSE PLACE` with the file `c`.
pub(crate) fn sentence_of(
    alloc: Global,
    words: &[String],
    files: &[Kept],
) -> Result<Vec<u8>, AllocError> {
    let words = words
        .iter()
        .map(|word| word.as_str())
        .collect::<Vec<&str>>(alloc)?;
    let sentence = match words.as_slice() {
        ["words", words @ ..] => words_fault(alloc, words)?,
        ["script", line, cause] => {
            let line = line.parse::<u32>().unwrap_or(0);
            script_fault(alloc, line, cause, bytes_of(files, "s"))?
        }
        ["capture", cause, place] => capture_fault(alloc, cause, place, bytes_of(files, "c"))?,
        _ => String::new(alloc),
    };
    Ok(sentence.into_bytes())
}
