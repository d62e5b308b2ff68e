//! IPv6 prefixes and routes in scripts.

use super::{assert_names, assert_refused};
use std::alloc::Global;
use std::process::Abort;
use vg_model::{Bytes, Edit, EditLine, RouteWord};
use vg_script::{ScriptCause, parse_script, print_script};

/// The prefix of `unroute6`, as it is read and as it is printed again.
fn read_prefix6(rt: &impl Abort, alloc: Global, word: &str) -> (u128, u8, Bytes) {
    let mut text = Vec::new(alloc);
    text.extend_from_slice(b"unroute6 ").expect(rt, "memory");
    text.extend_from_slice(word.as_bytes()).expect(rt, "memory");
    let script = parse_script(alloc, &text).expect(rt, "a script");
    let printed = print_script(alloc, &script).expect(rt, "memory");
    match script.start.as_slice() {
        [
            EditLine {
                edit: Edit::Unroute6 { prefix },
                ..
            },
        ] => (prefix.addr, prefix.len, printed),
        _ => panic!(rt; "not one edit"),
    }
}

/// Words, each with its number and length, and the word that is printed in its place.
const ACCEPTED: [(&str, u128, u8, &str); 18] = [
    ("::/128", 0, 128, "0:0:0:0:0:0:0:0/128"),
    ("0:0:0:0:0:0:0:0/0", 0, 0, "0:0:0:0:0:0:0:0/0"),
    (
        "0000:0000:0000:0000:0000:0000:0000:0001/128",
        1,
        128,
        "0:0:0:0:0:0:0:1/128",
    ),
    (
        "1:2:3:4:5:6:7:8/128",
        0x0001_0002_0003_0004_0005_0006_0007_0008,
        128,
        "1:2:3:4:5:6:7:8/128",
    ),
    (
        "2001:db8::/32",
        0x2001_0db8_0000_0000_0000_0000_0000_0000,
        32,
        "2001:db8:0:0:0:0:0:0/32",
    ),
    (
        "2001:0db8::1/128",
        0x2001_0db8_0000_0000_0000_0000_0000_0001,
        128,
        "2001:db8:0:0:0:0:0:1/128",
    ),
    (
        "fe80::/10",
        0xfe80_0000_0000_0000_0000_0000_0000_0000,
        10,
        "fe80:0:0:0:0:0:0:0/10",
    ),
    (
        "FFff:ffFF:ffff:ffff:ffff:ffff:ffff:ffff/128",
        0xffff_ffff_ffff_ffff_ffff_ffff_ffff_ffff,
        128,
        "ffff:ffff:ffff:ffff:ffff:ffff:ffff:ffff/128",
    ),
    (
        "8000::/1",
        0x8000_0000_0000_0000_0000_0000_0000_0000,
        1,
        "8000:0:0:0:0:0:0:0/1",
    ),
    (
        "1::8/128",
        0x0001_0000_0000_0000_0000_0000_0000_0008,
        128,
        "1:0:0:0:0:0:0:8/128",
    ),
    (
        "1:2::7:8/127",
        0x0001_0002_0000_0000_0000_0000_0007_0008,
        127,
        "1:2:0:0:0:0:7:8/127",
    ),
    ("0:0::/16", 0, 16, "0:0:0:0:0:0:0:0/16"),
    ("::0/7", 0, 7, "0:0:0:0:0:0:0:0/7"),
    (
        "a:b:c:d:e:f:0:1/128",
        0x000a_000b_000c_000d_000e_000f_0000_0001,
        128,
        "a:b:c:d:e:f:0:1/128",
    ),
    (
        "10:200:3000:00ff:0f:f0:abc:ABC/128",
        0x0010_0200_3000_00ff_000f_00f0_0abc_0abc,
        128,
        "10:200:3000:ff:f:f0:abc:abc/128",
    ),
    (
        "::ffff:c000:201/128",
        0x0000_0000_0000_0000_0000_ffff_c000_0201,
        128,
        "0:0:0:0:0:ffff:c000:201/128",
    ),
    (
        "2000::/3",
        0x2000_0000_0000_0000_0000_0000_0000_0000,
        3,
        "2000:0:0:0:0:0:0:0/3",
    ),
    (
        "1:0:0:2::/64",
        0x0001_0000_0000_0002_0000_0000_0000_0000,
        64,
        "1:0:0:2:0:0:0:0/64",
    ),
];

#[test]
fn ipv6_prefixes_are_read_and_printed_in_full(rt: HostRuntime) {
    for (word, addr, len, printed) in ACCEPTED {
        let (read_addr, read_len, text) = read_prefix6(&rt, rt.alloc(), word);
        assert_eq!(rt; read_addr, addr, "{word}");
        assert_eq!(rt; read_len, len, "{word}");
        let mut expected = Vec::new(rt.alloc());
        expected
            .extend_from_slice(b"unroute6 ")
            .expect(&rt, "memory");
        expected
            .extend_from_slice(printed.as_bytes())
            .expect(&rt, "memory");
        expected.extend_from_slice(b"\n").expect(&rt, "memory");
        assert_eq!(rt; text.as_slice(), expected.as_slice(), "{word}");
    }
}

/// Words that are no prefixes.
const OTHER_WORDS: [&str; 30] = [
    "2001:db8::1/32",
    "::1/127",
    "8000::/0",
    "2001:db8::/129",
    "2001:db8::/",
    "2001:db8::/32/32",
    "/0",
    ":/0",
    ":::/0",
    "::::/0",
    "1:2:3:4:5:6:7/128",
    "1:2:3:4:5:6:7:8:9/128",
    "1:2:3:4:5:6:7:8:/128",
    ":1:2:3:4:5:6:7:8/128",
    ":1:2:3:4:5:6:7/128",
    "::1:2:3:4:5:6:7:8/128",
    "1:2:3:4:5:6:7:/128",
    "12345::/128",
    "00001::/128",
    "g::/128",
    "::ffff:192.0.2.1/128",
    "1:::2/128",
    "::1:/128",
    ":1::/128",
    "+1::/128",
    "-1::/128",
    "0x1::/128",
    "::/-1",
    "::/+1",
    "fe80::1%1/128",
];

#[test]
fn other_words_are_no_ipv6_prefixes(rt: HostRuntime) {
    for word in OTHER_WORDS {
        let mut text = Vec::new(rt.alloc());
        text.extend_from_slice(b"route6 ").expect(&rt, "memory");
        text.extend_from_slice(word.as_bytes())
            .expect(&rt, "memory");
        text.extend_from_slice(b" drop").expect(&rt, "memory");
        assert_refused(&rt, rt.alloc(), &text, 1, ScriptCause::Prefix);
    }
}

#[test]
fn ipv6_routes_are_read(rt: HostRuntime) {
    let alloc = rt.alloc();
    let text = b"route6 2001:db8:0:0:0:0:0:0/32 via six,seven
route6 0:0:0:0:0:0:0:0/0 local
route6 0:0:0:0:0:0:0:1/128 drop
unroute6 0:0:0:0:0:0:0:1/128
";
    let script = parse_script(alloc, text).expect(&rt, "a script");
    let edits = script.start.as_slice();
    assert_eq!(rt; edits.len(), 4);
    match &edits[0].edit {
        Edit::Route6 {
            prefix,
            to: RouteWord::Via(names),
        } => {
            assert_eq!(rt; prefix.len, 32);
            assert_names(&rt, names, &["six", "seven"]);
        }
        _ => assert!(rt; false, "no route"),
    }
    let printed = print_script(alloc, &script).expect(&rt, "memory");
    assert_eq!(rt; printed.as_slice(), text.as_slice());
    assert_refused(&rt, alloc, b"route6 ::/0", 1, ScriptCause::Word);
    assert_refused(&rt, alloc, b"route6 ::/0 via a,", 1, ScriptCause::Name);
    assert_refused(&rt, alloc, b"unroute6 ::/0 drop", 1, ScriptCause::Word);
    assert_refused(&rt, alloc, b"route6", 1, ScriptCause::Word);
}
