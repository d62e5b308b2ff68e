//! The statements of a script: what is wanted at each word.

use vg_model::Name;
use vg_model::limits::{LONGEST_TIME, MOST_EVENTS};

/// What is wanted at a place of a statement.
#[derive(Clone, Copy, Debug, PartialEq, Eq)]
pub enum Wanted {
    /// This very word.
    Word(&'static str),
    /// One of the words behind an mtu, or behind a prefix.
    Choice,
    Name,
    /// The names of neighbors, parted by `,`.
    Names,
    Mac,
    /// A prefix of the statement's width.
    Prefix,
    Kind,
    Number { least: u64, most: u64 },
    /// Nothing: the statement has ended.
    Nothing,
}

fn of_interface(place: usize) -> Wanted {
    match place {
        1 => Wanted::Name,
        2 => Wanted::Word("mac"),
        3 => Wanted::Mac,
        4 => Wanted::Word("mtu"),
        5 => Wanted::Number {
            least: 68,
            most: 65_535,
        },
        6 => Wanted::Choice,
        7 => Wanted::Word("filter"),
        _ => Wanted::Nothing,
    }
}

fn of_adjacency(place: usize) -> Wanted {
    match place {
        1 | 3 => Wanted::Name,
        2 => Wanted::Word("interface"),
        4 => Wanted::Word("dst"),
        5 => Wanted::Mac,
        _ => Wanted::Nothing,
    }
}

fn of_process(place: usize) -> Wanted {
    match place {
        1 => Wanted::Name,
        2 => Wanted::Word("every"),
        3 => Wanted::Number {
            least: 1,
            most: LONGEST_TIME,
        },
        4 => Wanted::Word("count"),
        5 => Wanted::Number {
            least: 1,
            most: MOST_EVENTS,
        },
        _ => Wanted::Nothing,
    }
}

fn of_route(place: usize, before: &[u8]) -> Wanted {
    match place {
        1 => Wanted::Prefix,
        2 => Wanted::Choice,
        3 if before == b"via".as_slice() => Wanted::Names,
        _ => Wanted::Nothing,
    }
}

/// The words that a line begins with.
const STATEMENTS: [&str; 12] = [
    "interface",
    "node",
    "arc",
    "adjacency",
    "route",
    "unroute",
    "route6",
    "unroute6",
    "at",
    "process",
    "then",
    "end",
];

/// Whether a statement begins with this word.
pub fn is_statement(word: &str) -> bool {
    STATEMENTS.iter().any(|statement| *statement == word)
}

/// Whether a statement sets a route, of IPv4 or of IPv6.
pub fn is_route(statement: &str) -> bool {
    matches!(statement, "route" | "route6")
}

/// What is wanted at a place of the statement that begins with this word, behind the word before that place; its own place is 0.
pub fn wanted_at(statement: &str, place: usize, before: &[u8]) -> Wanted {
    match (statement, place) {
        ("interface", _) => of_interface(place),
        ("adjacency", _) => of_adjacency(place),
        ("process", _) => of_process(place),
        ("route" | "route6", _) => of_route(place, before),
        ("unroute" | "unroute6", 1) => Wanted::Prefix,
        ("node", 1) => Wanted::Name,
        ("node", 2) => Wanted::Word("kind"),
        ("node", 3) => Wanted::Kind,
        ("arc", 1 | 2 | 3) => Wanted::Name,
        ("at", 1) => Wanted::Number {
            least: 0,
            most: LONGEST_TIME,
        },
        _ => Wanted::Nothing,
    }
}

/// Whether a word is a number in its range: decimal digits, the first of several not 0.
fn is_number(word: &[u8], least: u64, most: u64) -> bool {
    if word.is_empty() || word.len() > 13 || (word.len() > 1 && word[0] == b'0') {
        return false;
    }
    let mut number = 0u64;
    for digit in word {
        if !digit.is_ascii_digit() {
            return false;
        }
        number = number
            .saturating_mul(10)
            .saturating_add(u64::from(*digit - b'0'));
    }
    least <= number && number <= most
}

/// Whether a word is one of the choices at this place of a statement.
fn is_choice(statement: &str, word: &[u8]) -> bool {
    if is_route(statement) {
        matches!(word, b"via" | b"local" | b"drop")
    } else {
        matches!(word, b"up" | b"down")
    }
}

/// Whether a word may stand where a name, a number or a fixed word is wanted; of the other kinds of words a statement has one.
pub fn is_as_wanted(statement: &str, wanted: Wanted, word: &[u8]) -> bool {
    match wanted {
        Wanted::Word(fixed) => word == fixed.as_bytes(),
        Wanted::Choice => is_choice(statement, word),
        Wanted::Name => Name::of(word).is_some(),
        Wanted::Number { least, most } => is_number(word, least, most),
        Wanted::Names | Wanted::Mac | Wanted::Prefix | Wanted::Kind => true,
        Wanted::Nothing => false,
    }
}
