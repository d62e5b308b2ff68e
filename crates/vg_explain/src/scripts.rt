//! What is wrong with a script, and its line with a mark under the word that is refused.

use crate::captures::{is_pcapng, is_savefile};
use crate::marks::{Place, bytes_at, line_of, refused_at, text_at, words_of};
use crate::nodes::{Missing, missing_node};
use crate::statements::is_route;
use std::alloc::{AllocError, Global};
use std::fmt::Write;
use vg_model::Kind;
use vg_model::kinds::{CONNECT_TEXT, MATCH_TEXT, PUSH_TEXT, REWRITE_TEXT};
use vg_model::limits::{LEAST_VLAN, MOST_INTERFACES, MOST_VLAN};

/// The most bytes of a line that are shown.
const MOST_SHOWN: usize = 160;

/// How a statement is written, by its first word.
fn form_of(statement: &str) -> &'static str {
    match statement {
        "interface" =>
            "an interface is written `interface NAME mac MAC mtu NUMBER up` or `down`, then `filter` or nothing",
        "node" => "a node is written `node NAME kind KIND`",
        "arc" => "an arc is written `arc NODE SLOT TARGET`",
        "adjacency" => "a neighbor is written `adjacency NAME interface NAME dst MAC`",
        "route" =>
            "a route is written `route PREFIX via NAMES`, `route PREFIX local` or `route PREFIX drop`",
        "unroute" => "a route is taken away by `unroute PREFIX`",
        "route6" =>
            "an IPv6 route is written `route6 PREFIX6 via NAMES`, `route6 PREFIX6 local` or `route6 PREFIX6 drop`",
        "unroute6" => "an IPv6 route is taken away by `unroute6 PREFIX6`",
        "at" => "a block at a time is begun by `at MICROSECONDS`",
        "process" => "a process is begun by `process NAME every MICROSECONDS count NUMBER`",
        "then" | "end" => "`then` and `end` stand alone on their line",
        _ =>
            "a line begins with interface, node, arc, adjacency, route, unroute, route6, unroute6, at, process, then or end",
    }
}

/// The range of a number in a statement.
fn range_of(statement: &str) -> &'static str {
    match statement {
        "interface" => "an mtu is a number from 68 to 65535",
        "at" => "a time is a number of microseconds from 0 to 1000000000000",
        _ =>
            "a period is a number of microseconds from 1 to 1000000000000, and a count from 1 to 999",
    }
}

/// What a name is, or the names of a route.
fn name_sentence(statement: &str) -> &'static str {
    if is_route(statement) {
        "a route leads via 1 to 16 names parted by `,` without blanks, each of 1 to 32 letters, digits, `-`, `_` and `.`"
    } else {
        "a name is 1 to 32 letters, digits, `-`, `_` and `.`"
    }
}

/// What a prefix is, of IPv4 or of IPv6.
fn prefix_sentence(statement: &str) -> &'static str {
    if matches!(statement, "route6" | "unroute6") {
        "an IPv6 prefix is eight groups of 1 to 4 hexadecimal digits parted by `:`, where `::` may stand once for groups that are 0, then `/` and 0 to 128, with no bit set behind that length, as 2001:db8::/32"
    } else {
        "a prefix is four numbers up to 255 parted by `.`, then `/` and 0 to 32, with no bit set behind that length, as 10.1.0.0/16"
    }
}

/// The sentence for a cause other than `kind`, by the first word of the line and the word that is marked.
fn sentence(cause: &str, statement: &str, word: &[u8]) -> &'static str {
    match cause {
        "word" => form_of(statement),
        "number" => range_of(statement),
        "too-large" => "it has more than 262144 bytes",
        "name" => name_sentence(statement),
        "mac" =>
            "an address is six pairs of hexadecimal digits parted by `:`, as 02:fe:00:00:00:00",
        "prefix" => prefix_sentence(statement),
        "block" =>
            "`at` and `process` begin a block, which `end` closes before another begins and before the script ends; `then` stands only in a process",
        "too-many-generations" => "all runs of all blocks together are 999 at most",
        _ => edit_sentence(cause, word),
    }
}

/// The sentence for a file that is no script at all, by its first bytes.
fn other_file(text: &[u8]) -> Option<&'static str> {
    if is_savefile(text) {
        Some(
            "it is a savefile, and a script is wanted: are CAPTURE and SCRIPT exchanged? SCRIPT comes second",
        )
    } else if is_pcapng(text) {
        Some(
            "it is a pcapng file, and a script is wanted: are CAPTURE and SCRIPT exchanged? SCRIPT comes second",
        )
    } else if text.starts_with(&[0xff, 0xfe]) || text.starts_with(&[0xfe, 0xff]) {
        Some("it is UTF-16: save it as ASCII")
    } else if text.starts_with(&[0xef, 0xbb, 0xbf]) {
        Some("it begins with a byte order mark (BOM): save it as ASCII, or as UTF-8 without one")
    } else {
        None
    }
}

/// The sentence for a byte that no script has, by the bytes of its line from that one on.
fn byte_sentence(line: &[u8]) -> &'static str {
    match line {
        [0, ..] => "a zero byte (NUL) stands here: the file may be UTF-16, or no text at all",
        [0xc2, 0xa0, ..] => "a no-break space stands here: write a plain space",
        _ => {
            "only a comment may have this byte: elsewhere a script has visible ASCII, spaces and tabs"
        }
    }
}

/// The sentence for an arc of which a node isn't there.
fn missing_sentence(missing: Missing) -> &'static str {
    match missing {
        Missing::Node | Missing::Target => {
            "no node has this name here: a node is made above its first use"
        }
        Missing::Either => {
            "no node has this name here, or none has the target's: a node is made above its first use"
        }
    }
}

/// The sentence for an edit that can't be made, by the word that is marked.
fn edit_sentence(cause: &str, word: &[u8]) -> &'static str {
    match cause {
        "double-name" => "a node has this name already",
        "unknown-slot" =>
            "the kind of this node has no such slot: docs/FORMATS.md lists the slots of the kinds",
        "bad-target" => "no arc leads to this node: packets begin their ways there",
        "cycle" => "over this arc a packet could come back to where it was",
        "too-many" =>
            "there are as many as may be: 64 nodes, 16 interfaces, 256 neighbors, 4096 routes of IPv4 and 4096 of IPv6",
        "unknown-interface" =>
            "no interface has this name here: an interface is made above its first use",
        "unknown-adjacency" if word.contains(&b',') =>
            "one of these names is no neighbor's here: `adjacency` makes a neighbor above its first use",
        "unknown-adjacency" =>
            "no neighbor has this name here: `adjacency` makes one above its first use",
        _ => "there is no route with this very prefix",
    }
}

/// Appends the sentence for a word that is no kind: all kinds, as the model names them.
fn push_kinds(out: &mut String) -> Result<(), AllocError> {
    out.push_str("the kinds are ")?;
    for kind in &Kind::PLAIN {
        out.push_str(kind.name().text)?;
        out.push_str(", ")?;
    }
    let last = MOST_INTERFACES - 1;
    write!(
        out,
        "{MATCH_TEXT}N, {PUSH_TEXT}N and {REWRITE_TEXT}N with a VLAN id N from {LEAST_VLAN} to {MOST_VLAN}, and {CONNECT_TEXT}N with the number N of an interface from 0 to {last}"
    )
}

/// Appends a line as far as it is shown; bytes that aren't visible are shown as `?`.
fn push_line(out: &mut String, line: &[u8]) -> Result<(), AllocError> {
    out.push_str("  ")?;
    for byte in line.iter().take(MOST_SHOWN) {
        let shown = if *byte == b'\t' || (0x20..=0x7e).contains(byte) {
            *byte
        } else {
            b'?'
        };
        out.push(char::from(shown))?;
    }
    out.push('\n')
}

/// Appends the mark under a word of a line, where the word is shown.
fn push_mark(out: &mut String, line: &[u8], word: Place) -> Result<(), AllocError> {
    if word.begin > MOST_SHOWN {
        return Ok(());
    }
    out.push_str("  ")?;
    for byte in line.iter().take(word.begin) {
        out.push(if *byte == b'\t' { '\t' } else { ' ' })?;
    }
    for _ in word.begin..word.end.min(MOST_SHOWN + 1) {
        out.push('^')?;
    }
    out.push('\n')
}

/// The sentence for a cause, by the script, the line, and what is marked in it.
fn sentence_of(
    cause: &str,
    statement: &str,
    text: &[u8],
    line: &[u8],
    refused: Place,
) -> &'static str {
    let is_bytes = cause == "bytes";
    if is_bytes || cause == "too-large" {
        if let Some(other) = other_file(text) {
            return other;
        }
    }
    if is_bytes {
        return byte_sentence(line.get(refused.begin..).unwrap_or(&[]));
    }
    sentence(cause, statement, bytes_at(line, refused))
}

/// The word of an arc that names the node which isn't there.
fn node_place(words: &[Place], missing: Missing) -> Option<Place> {
    match missing {
        Missing::Node | Missing::Either => words.get(1).copied(),
        Missing::Target => words.get(3).copied(),
    }
}

/// The sentence for a script that is refused, by the line and the cause that were printed and the text of the script, with the line and
/// a mark under the word that is refused.
pub fn script_fault(
    alloc: Global,
    number: u32,
    cause: &str,
    text: &[u8],
) -> Result<String, AllocError> {
    let line = line_of(text, number);
    let words = words_of(alloc, line)?;
    let statement = match words.first() {
        Some(first) => text_at(line, *first),
        None => "",
    };
    let mut refused = refused_at(line, words.as_slice(), cause);
    let mut out = String::new(alloc);
    if cause == "kind" {
        push_kinds(&mut out)?;
    } else if cause == "unknown-node" {
        let missing = missing_node(alloc, text, number)?;
        refused = node_place(words.as_slice(), missing).unwrap_or(refused);
        out.push_str(missing_sentence(missing))?;
    } else {
        out.push_str(sentence_of(cause, statement, text, line, refused))?;
    }
    out.push('\n')?;
    if number > 0 {
        push_line(&mut out, line)?;
        push_mark(&mut out, line, refused)?;
    }
    Ok(out)
}
