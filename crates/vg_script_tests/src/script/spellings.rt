//! Spellings of IPv6 prefixes and of the names of a route, worked out by hand, and lines with several faults.

use super::{assert_names, assert_refused};
use std::alloc::Global;
use std::process::Abort;
use vg_model::{Edit, EditLine, RouteWord};
use vg_script::{Script, ScriptCause, parse_script, print_script};

/// What a word is read as.
#[derive(Clone, Copy)]
enum Answer {
    /// An IPv6 prefix of this number and length, and the word that is printed in its place.
    Prefix6(u128, u8, &'static str),
    /// These names, which are printed as they stand.
    Names(&'static [&'static str]),
    /// Nothing, for this cause.
    Refused(ScriptCause),
}

/// The statements that the words are tried in.
const UNROUTE6: &str = "unroute6 ";

const ROUTE: &str = "route 10.0.0.0/8 via ";

const NO_PREFIX: Answer = Answer::Refused(ScriptCause::Prefix);

const NO_NAMES: Answer = Answer::Refused(ScriptCause::Name);

/// Each word behind its statement.
const SPELLINGS: [(&str, &str, Answer); 40] = [
    // A gap for all eight groups, with zeros on both sides, and for seven groups.
    (UNROUTE6, "::/0", Answer::Prefix6(0, 0, "0:0:0:0:0:0:0:0/0")),
    (
        UNROUTE6,
        "0::0/1",
        Answer::Prefix6(0, 1, "0:0:0:0:0:0:0:0/1"),
    ),
    (
        UNROUTE6,
        "::1/128",
        Answer::Prefix6(1, 128, "0:0:0:0:0:0:0:1/128"),
    ),
    // Upper case, zeros in front, and both cases in one group.
    (
        UNROUTE6,
        "2001:DB8::/32",
        Answer::Prefix6(
            0x2001_0db8_0000_0000_0000_0000_0000_0000,
            32,
            "2001:db8:0:0:0:0:0:0/32",
        ),
    ),
    (
        UNROUTE6,
        "2001:0db8:0000:0000:0000:0000:0000:0000/32",
        Answer::Prefix6(
            0x2001_0db8_0000_0000_0000_0000_0000_0000,
            32,
            "2001:db8:0:0:0:0:0:0/32",
        ),
    ),
    (
        UNROUTE6,
        "aBcD:Ef01::/32",
        Answer::Prefix6(
            0xabcd_ef01_0000_0000_0000_0000_0000_0000,
            32,
            "abcd:ef01:0:0:0:0:0:0/32",
        ),
    ),
    // A gap for one group: at the end, in front and within.
    (
        UNROUTE6,
        "1:2:3:4:5:6:7::/112",
        Answer::Prefix6(
            0x0001_0002_0003_0004_0005_0006_0007_0000,
            112,
            "1:2:3:4:5:6:7:0/112",
        ),
    ),
    (
        UNROUTE6,
        "::2:3:4:5:6:7:8/128",
        Answer::Prefix6(
            0x0000_0002_0003_0004_0005_0006_0007_0008,
            128,
            "0:2:3:4:5:6:7:8/128",
        ),
    ),
    (
        UNROUTE6,
        "1:2:3::5:6:7:8/128",
        Answer::Prefix6(
            0x0001_0002_0003_0000_0005_0006_0007_0008,
            128,
            "1:2:3:0:5:6:7:8/128",
        ),
    ),
    // The last bit of the length is set.
    (
        UNROUTE6,
        "fe80::/9",
        Answer::Prefix6(
            0xfe80_0000_0000_0000_0000_0000_0000_0000,
            9,
            "fe80:0:0:0:0:0:0:0/9",
        ),
    ),
    (
        UNROUTE6,
        "::8000:0:0:0/65",
        Answer::Prefix6(
            0x0000_0000_0000_0000_8000_0000_0000_0000,
            65,
            "0:0:0:0:8000:0:0:0/65",
        ),
    ),
    (
        UNROUTE6,
        "::1:0/112",
        Answer::Prefix6(65536, 112, "0:0:0:0:0:0:1:0/112"),
    ),
    (
        UNROUTE6,
        "FFFF:FFFF:FFFF:FFFF:FFFF:FFFF:FFFF:FFFE/127",
        Answer::Prefix6(
            0xffff_ffff_ffff_ffff_ffff_ffff_ffff_fffe,
            127,
            "ffff:ffff:ffff:ffff:ffff:ffff:ffff:fffe/127",
        ),
    ),
    // A gap for no group.
    (UNROUTE6, "1:2:3:4:5:6:7:8::/128", NO_PREFIX),
    (UNROUTE6, "1:2:3:4::5:6:7:8/128", NO_PREFIX),
    // Two gaps, and a lone `:` behind a gap, in front and at the end.
    (UNROUTE6, "1::2::3/128", NO_PREFIX),
    (UNROUTE6, "2001:db8:::/32", NO_PREFIX),
    (UNROUTE6, ":1::/16", NO_PREFIX),
    (UNROUTE6, "1:2:3:4:5:6:7:/112", NO_PREFIX),
    // Five digits in a group, and a zero in front of the length.
    (UNROUTE6, "02001:db8::/32", NO_PREFIX),
    (UNROUTE6, "2001:db8::/032", NO_PREFIX),
    // A length above 128, a byte too many, and no length.
    (UNROUTE6, "::/256", NO_PREFIX),
    (UNROUTE6, "2001:db8::/32/", NO_PREFIX),
    (UNROUTE6, "2001:db8::", NO_PREFIX),
    // A bit is set just behind the length.
    (UNROUTE6, "::8000:0:0:0/64", NO_PREFIX),
    (UNROUTE6, "fe80::/8", NO_PREFIX),
    // One name, one that stands twice, and the most that a route may have.
    (ROUTE, "a", Answer::Names(&["a"])),
    (ROUTE, "e1,e1,e0", Answer::Names(&["e1", "e1", "e0"])),
    (
        ROUTE,
        "a,a,a,a,a,a,a,a,a,a,a,a,a,a,a,a",
        Answer::Names(&[
            "a", "a", "a", "a", "a", "a", "a", "a", "a", "a", "a", "a", "a", "a", "a", "a",
        ]),
    ),
    // Fixed words, all marks of names, both cases, and a name of 32 bytes.
    (
        ROUTE,
        "via,local,drop",
        Answer::Names(&["via", "local", "drop"]),
    ),
    (ROUTE, "-,_,.", Answer::Names(&["-", "_", "."])),
    (ROUTE, "A,a", Answer::Names(&["A", "a"])),
    (
        ROUTE,
        "0123456789abcdef0123456789ABCDEF,x",
        Answer::Names(&["0123456789abcdef0123456789ABCDEF", "x"]),
    ),
    // An empty name.
    (ROUTE, "a,,b", NO_NAMES),
    (ROUTE, ",a", NO_NAMES),
    (ROUTE, "a,", NO_NAMES),
    (ROUTE, ",", NO_NAMES),
    // A seventeenth name, a name of 33 bytes, and a byte of no name.
    (ROUTE, "a,a,a,a,a,a,a,a,a,a,a,a,a,a,a,a,a", NO_NAMES),
    (ROUTE, "x,0123456789abcdef0123456789ABCDEFg", NO_NAMES),
    (ROUTE, "a,b/c", NO_NAMES),
];

/// The text of one line: a statement with this word.
fn line_of(rt: &impl Abort, alloc: Global, statement: &str, word: &str) -> Vec<u8> {
    let mut text = Vec::new(alloc);
    text.extend_from_slice(statement.as_bytes())
        .expect(rt, "memory");
    text.extend_from_slice(word.as_bytes()).expect(rt, "memory");
    text.push(b'\n').expect(rt, "memory");
    text
}

/// Asserts that a script is one edit, with this value.
fn assert_value(rt: &impl Abort, script: &Script, answer: Answer) {
    match (script.start.as_slice(), answer) {
        (
            [
                EditLine {
                    edit: Edit::Unroute6 { prefix },
                    ..
                },
            ],
            Answer::Prefix6(addr, len, _),
        ) => assert_eq!(rt; (prefix.addr, prefix.len), (addr, len)),
        (
            [
                EditLine {
                    edit: Edit::Route {
                        to: RouteWord::Via(names),
                        ..
                    },
                    ..
                },
            ],
            Answer::Names(expected),
        ) => assert_names(rt, names, expected),
        _ => assert!(rt; false, "another edit"),
    }
}

/// Asserts that a line is read with this value, printed as another, and then read with the same value.
fn assert_read(rt: &impl Abort, alloc: Global, text: &[u8], printed: &[u8], answer: Answer) {
    let script = parse_script(alloc, text).expect(rt, "a script");
    assert_value(rt, &script, answer);
    let again = print_script(alloc, &script).expect(rt, "memory");
    assert_eq!(rt; again.as_slice(), printed);
    assert_value(
        rt,
        &parse_script(alloc, again.as_slice()).expect(rt, "a script"),
        answer,
    );
}

#[test]
fn words_are_read_and_printed_or_refused(rt: HostRuntime) {
    let alloc = rt.alloc();
    for (statement, word, answer) in SPELLINGS {
        let text = line_of(&rt, alloc, statement, word);
        match answer {
            Answer::Prefix6(_, _, printed) => {
                let printed = line_of(&rt, alloc, statement, printed);
                assert_read(&rt, alloc, &text, &printed, answer);
            }
            Answer::Names(_) => assert_read(&rt, alloc, &text, &text, answer),
            Answer::Refused(cause) => assert_refused(&rt, alloc, &text, 1, cause),
        }
    }
}

/// Texts with one fault or several: the line and the cause that are told.
const FAULTS: [(&str, u32, ScriptCause); 11] = [
    // Of two faulty words the left one.
    ("route6 fe80::/8 via a,,b", 1, ScriptCause::Prefix),
    ("unroute6 fe80::/8 drop", 1, ScriptCause::Prefix),
    ("route6 ::/0 over a,,b", 1, ScriptCause::Word),
    ("route6 ::/0 via a,,b c", 1, ScriptCause::Name),
    // A blank ends a word.
    ("route6 ::/0 via a ,b", 1, ScriptCause::Word),
    ("route 10.0.0.0/8 via a, b", 1, ScriptCause::Name),
    // Each statement has prefixes of its own kind.
    ("route 2001:db8::/32 drop", 1, ScriptCause::Prefix),
    ("route6 10.0.0.0/8 drop", 1, ScriptCause::Prefix),
    ("Route6 ::/0 drop", 1, ScriptCause::Word),
    // Where a statement may stand comes before its words, and these before the end of the text.
    (
        "at 5\nroute6 ::/0 via a\nthen\nunroute6 x\n",
        3,
        ScriptCause::Block,
    ),
    ("at 5\nroute6 ::/0 via a,\n", 2, ScriptCause::Name),
];

#[test]
fn the_first_fault_of_a_route_is_told(rt: HostRuntime) {
    let alloc = rt.alloc();
    for (text, line, cause) in FAULTS {
        assert_refused(&rt, alloc, text.as_bytes(), line, cause);
    }
    // A comment may begin within a word.
    let script = parse_script(alloc, b"route6 ::/0 via a,b#,,").expect(&rt, "a script");
    let edits = script.start.as_slice();
    assert_eq!(rt; edits.len(), 1);
    match &edits[0].edit {
        Edit::Route6 {
            to: RouteWord::Via(names),
            ..
        } => assert_names(&rt, names, &["a", "b"]),
        _ => assert!(rt; false, "no route"),
    }
}
