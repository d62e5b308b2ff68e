//! What is wrong with words that ask for nothing, for people.

use crate::asks::{Ask, Asked, error_named, is_plain, name_of, packet_number};
use crate::routes::route_of;
use std::alloc::{AllocError, Global};

// What is wrong with a word that is to name a file; nothing where it may.
fn name_fault(alloc: Global, word: &str) -> Result<Option<String>, AllocError> {
    if is_plain(word) {
        return Ok(None);
    }
    if word.is_empty() {
        return Ok(Some(String::from_str(alloc, "an empty word names no file")?));
    }
    Ok(Some(format!(in alloc;
        "`{word}` is no option and no file's name: a file of this name is written ./{word}"
    )?))
}

// The first of these words that can't name a file, and why.
fn first_name_fault(alloc: Global, words: &[&str]) -> Result<Option<String>, AllocError> {
    for word in words {
        if let Some(fault) = name_fault(alloc, word)? {
            return Ok(Some(fault));
        }
    }
    Ok(None)
}

// What is wrong with the names of files behind an option.
fn files_fault(alloc: Global, option: &str, names: &[&str]) -> Result<String, AllocError> {
    match first_name_fault(alloc, names)? {
        Some(fault) => Ok(fault),
        None => {
            let count = names.len();
            format!(in alloc; "{option} wants 3 names of files, and {count} are given")
        }
    }
}

// What is wrong with a condition; nothing where it is good.
fn condition_fault(alloc: Global, word: &str, value: &str) -> Result<Option<String>, AllocError> {
    let (good, wanted) = match word {
        "--drop" => (
            error_named(value.as_bytes()).is_some(),
            "the word of an error, as route-drop",
        ),
        "--via" => (name_of(value).is_some(), "the name of a neighbor"),
        "--route" => (
            route_of(alloc, value)?.is_some(),
            "the prefix of a route, as 10.0.0.0/8 or 2001:db8::/32",
        ),
        "--node" => (name_of(value).is_some(), "the name of a node"),
        "--from" | "--to" => (
            packet_number(value).is_some(),
            "a number from 0 to 65535 in decimal digits",
        ),
        _ => {
            return Ok(Some(format!(in alloc;
                "`{word}` is no condition: --all wants conditions, each with its value, and then 3 names of files"
            )?));
        }
    };
    if good {
        return Ok(None);
    }
    Ok(Some(format!(in alloc; "{word} wants {wanted}, and not `{value}`")?))
}

// What is wrong with the words behind `--all`.
fn all_fault(alloc: Global, words: &[&str]) -> Result<String, AllocError> {
    let mut rest = words;
    while rest.len() > 3 {
        if let Some(fault) = condition_fault(alloc, rest[0], rest[1])? {
            return Ok(fault);
        }
        rest = &rest[2..];
    }
    files_fault(alloc, "--all", rest)
}

// The first of these words that is no number of a packet.
fn number_fault(alloc: Global, words: &[&str]) -> Result<Option<String>, AllocError> {
    for word in words {
        if packet_number(word).is_none() {
            return Ok(Some(format!(in alloc;
                "NUMBER is a number from 0 to 65535 in decimal digits, and not `{word}`"
            )?));
        }
    }
    Ok(None)
}

// What is wrong with words that have no option.
fn packets_fault(alloc: Global, words: &[&str]) -> Result<String, AllocError> {
    let (names, numbers) = words.split_at(words.len().min(3));
    if let Some(fault) = first_name_fault(alloc, names)? {
        return Ok(fault);
    }
    if let Some(fault) = number_fault(alloc, numbers)? {
        return Ok(fault);
    }
    let count = words.len();
    format!(in alloc;
        "3 names of files and a number of a packet are wanted, CAPTURE SCRIPT REPORT NUMBER.., and {count} words are given"
    )
}

// What is wrong with words that ask for nothing: the first that is faulty, and what is wanted in its place.
fn words_fault(alloc: Global, words: &[&str]) -> Result<String, AllocError> {
    let Some((first, others)) = words.split_first() else {
        return packets_fault(alloc, words);
    };
    match *first {
        "--counts" => files_fault(alloc, "--counts", others),
        "--all" => all_fault(alloc, others),
        _ => packets_fault(alloc, words),
    }
}

// The greatest of these numbers.
fn greatest(numbers: &[u32]) -> u32 {
    let mut greatest = 0;
    for number in numbers {
        if *number > greatest {
            greatest = *number;
        }
    }
    greatest
}

// What is wrong where the capture has no packet of a number: it has none of the greatest.
fn number_beyond(alloc: Global, asked: &Asked<'_>) -> Result<String, AllocError> {
    match asked {
        Asked::Packets(numbers) => {
            let number = greatest(numbers.as_slice());
            format!(in alloc; "the capture has no packet {number}: its first has the number 0")
        }
        Asked::All(_) | Asked::Counts => String::from_str(alloc, "the capture has fewer packets"),
    }
}

/// What is wrong with words that are refused: they ask for nothing, or for a packet that the capture doesn't have.
///
/// # Errors
///
/// [`AllocError`] where memory runs out.
pub(crate) fn call_fault(
    alloc: Global,
    words: &[&str],
    ask: &Option<Ask<'_>>,
) -> Result<String, AllocError> {
    match ask {
        Some(ask) => number_beyond(alloc, &ask.asked),
        None => words_fault(alloc, words),
    }
}
