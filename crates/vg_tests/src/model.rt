//! Tests of the types: names, lists, and the tables of errors and kinds.

use crate::checks::{has_length, holds, same};
use std::process::Abort;
use vg_model::{laws, *};

const NAME_BYTES: &[u8] = b"abcdefghijklmnopqrstuvwxyzABCDEFGHIJKLMNOPQRSTUVWXYZ0123456789-_.";

#[test]
fn a_name_has_1_to_32_bytes(rt: HostRuntime) {
    holds(&rt, Name::of(b"").is_none());
    same(
        &rt,
        Name::of(b"a").expect(&rt, "one byte").bytes(),
        b"a".as_slice(),
    );
    let longest = b"abcdefghijklmnopqrstuvwxyz-_.012";
    same(
        &rt,
        Name::of(longest).expect(&rt, "32 bytes").bytes(),
        longest.as_slice(),
    );
    holds(
        &rt,
        Name::of(b"abcdefghijklmnopqrstuvwxyz-_.0123").is_none(),
    );
}

#[test]
fn a_name_is_of_letters_digits_and_three_marks(rt: HostRuntime) {
    for byte in 0..=255u8 {
        same(
            &rt,
            (byte, Name::of(&[byte]).is_some()),
            (byte, NAME_BYTES.contains(&byte)),
        );
    }
}

#[test]
fn names_are_printed_copied_and_compared(rt: HostRuntime) {
    let name = Name::of(b"pg-0").expect(&rt, "a name");
    same(&rt, name.as_str(), "pg-0");
    same(
        &rt,
        format!(in rt.alloc(); "{name} {name:?}")
            .expect(&rt, "memory")
            .as_str(),
        "pg-0 \"pg-0\"",
    );
    same(&rt, &name.clone().expect(&rt, "memory"), &name);
    assert_ne!(rt; Name::of(b"pg-1").expect(&rt, "another name"), name);
}

#[test]
fn lists_give_back_what_they_are_made_of(rt: HostRuntime) {
    let bytes = Bytes::from_vec([1, 2].to_vec(rt.alloc()).expect(&rt, "memory"));
    same(&rt, bytes.as_slice(), [1, 2].as_slice());
    same(&rt, bytes.into_vec().as_slice(), [1, 2].as_slice());

    let prefix = Prefix {
        addr: 0x0a00_0000,
        len: 8,
    };
    let line = EditLine {
        line: 7,
        edit: Edit::Unroute { prefix },
    };
    let edits = Edits::from_vec(vec![in rt.alloc(); line].expect(&rt, "memory"));
    has_length(&rt, edits.as_slice().len(), 1);
    same(&rt, edits.into_vec().pop().expect(&rt, "an edit").line, 7);

    let fate = Fate {
        number: 9,
        legs: Legs::new(),
        congested: None,
        end: End::Tx { interface: 0 },
    };
    let fates = Fates::from_vec(vec![in rt.alloc(); fate].expect(&rt, "memory"));
    has_length(&rt, fates.as_slice().len(), 1);
    same(&rt, fates.into_vec().pop().expect(&rt, "a fate").number, 9);
}

#[test]
fn legs_stand_in_their_order(rt: HostRuntime) {
    let mut legs = Legs::new();
    holds(&rt, legs.as_slice().is_empty());
    legs.push(leg(0));
    legs.push(leg(1));
    legs.push(leg(2));
    legs.push(leg(3));
    same(
        &rt,
        legs.as_slice(),
        [leg(0), leg(1), leg(2), leg(3)].as_slice(),
    );
}

fn leg(generation: u32) -> Leg {
    Leg {
        worker: 1,
        generation,
    }
}

#[test]
fn errors_have_their_numbers_and_words(rt: HostRuntime) {
    let words = [
        "short",
        "too-long",
        "unknown-type",
        "wrong-mac",
        "bad-version",
        "bad-header-length",
        "bad-length",
        "bad-checksum",
        "ttl-zero",
        "unchecked",
        "no-route",
        "route-drop",
        "local",
        "ttl-expired",
        "mtu-exceeded",
        "interface-down",
        "congestion",
        "handoff-limit",
        "blackhole",
    ];
    for (i, error) in DropError::ALL.iter().enumerate() {
        same(&rt, error.number() as usize, i);
        same(&rt, error.word(), words[i]);
    }
}

/// What the formats say of a kind.
#[derive(Clone, Copy)]
struct KindRow {
    kind: Kind,
    name: KindWord,
    /// Scripts make nodes of it, by its name.
    in_scripts: bool,
    slots: &'static [&'static str],
    /// Packets come into its nodes by no arc.
    is_source: bool,
}

/// A kind with a number behind its text.
fn numbered(
    kind: Kind,
    text: &'static str,
    number: u16,
    in_scripts: bool,
    slots: &'static [&'static str],
) -> KindRow {
    KindRow {
        kind,
        name: KindWord {
            text,
            number: Some(number),
        },
        in_scripts,
        slots,
        is_source: false,
    }
}

/// Asserts that the kind has each of its slots by the slot's name, and no other.
fn assert_slots(rt: &impl Abort, kind: Kind) {
    let names = kind.slot_names();
    same(rt, (kind, kind.slots() as usize), (kind, names.len()));
    for (place, slot) in names.iter().enumerate() {
        same(rt, kind.slot(slot.as_bytes()).map(usize::from), Some(place));
    }
    same(rt, (kind, kind.slot(b"no-slot")), (kind, None));
}

/// Asserts that the kind is as its row says.
fn assert_kind(rt: &impl Abort, row: KindRow) {
    let kind = row.kind;
    let word = if row.in_scripts { Some(row.name) } else { None };
    same(rt, kind.name(), row.name);
    same(rt, (kind, kind.word()), (kind, word));
    same(rt, (kind, kind.slot_names()), (kind, row.slots));
    assert_slots(rt, kind);
    same(rt, (kind, kind.is_source()), (kind, row.is_source));
}

/// The kinds without a number: their texts, whether scripts make nodes of them, their slots, and whether packets come in by no arc.
const WITHOUT_NUMBERS: [(Kind, &str, bool, &[&str], bool); 17] = [
    (Kind::PgInput, "pg-input", false, &["out"], true),
    (Kind::HandoffDequeue, "handoff-dequeue", false, &[], true),
    (Kind::ErrorDrop, "error-drop", false, &[], false),
    (
        Kind::WorkerHandoff(HashKind::Flow),
        "handoff-flow",
        true,
        &["resume"],
        false,
    ),
    (
        Kind::WorkerHandoff(HashKind::Src),
        "handoff-src",
        true,
        &["resume"],
        false,
    ),
    (
        Kind::WorkerHandoff(HashKind::Dst),
        "handoff-dst",
        true,
        &["resume"],
        false,
    ),
    (Kind::EthernetInput, "ethernet-input", true, &["ip4"], false),
    (Kind::Ip4Input, "ip4-input", true, &["lookup"], false),
    (Kind::Ip4Lookup, "ip4-lookup", true, &["rewrite"], false),
    (Kind::Ip4Rewrite, "ip4-rewrite", true, &["output"], false),
    (
        Kind::InterfaceOutput,
        "interface-output",
        true,
        &["tx"],
        false,
    ),
    (Kind::InterfaceTx, "interface-tx", true, &[], false),
    (Kind::Pass, "pass", true, &["out"], false),
    (
        Kind::EthernetDual,
        "ethernet-dual",
        true,
        &["ip4", "ip6"],
        false,
    ),
    (Kind::Ip6Input, "ip6-input", true, &["lookup"], false),
    (Kind::Ip6Lookup, "ip6-lookup", true, &["rewrite"], false),
    (Kind::Ip6Rewrite, "ip6-rewrite", true, &["output"], false),
];

#[test]
fn kinds_without_numbers_are_as_the_formats_say(rt: HostRuntime) {
    for (kind, text, in_scripts, slots, is_source) in WITHOUT_NUMBERS {
        assert_kind(
            &rt,
            KindRow {
                kind,
                name: KindWord { text, number: None },
                in_scripts,
                slots,
                is_source,
            },
        );
    }
}

#[test]
fn kinds_with_numbers_are_as_the_formats_say(rt: HostRuntime) {
    for id in [
        VlanId { number: 1 },
        VlanId { number: 100 },
        VlanId { number: 4094 },
    ] {
        let number = id.number;
        for row in [
            numbered(
                Kind::Dot1qMatch(id),
                "dot1q-match-",
                number,
                true,
                &["match", "else"],
            ),
            numbered(Kind::Dot1qPush(id), "dot1q-push-", number, true, &["out"]),
            numbered(
                Kind::Dot1qRewrite(id),
                "dot1q-rewrite-",
                number,
                true,
                &["out"],
            ),
        ] {
            assert_kind(&rt, row);
        }
    }
    // A graph has at most the interfaces 0 to 15.
    for (interface, in_scripts) in [(0, true), (9, true), (15, true), (16, false), (255, false)] {
        let kind = Kind::CrossConnect(interface);
        let number = u16::from(interface);
        assert_kind(
            &rt,
            numbered(kind, "xconnect-", number, in_scripts, &["out"]),
        );
    }
}

#[test]
fn kinds_without_a_number_are_listed_once(rt: HostRuntime) {
    for (place, kind) in Kind::PLAIN.iter().enumerate() {
        same(&rt, (kind, kind.word()), (kind, Some(kind.name())));
        same(&rt, (kind, kind.name().number), (kind, None));
        same(&rt, (kind, kind.is_source()), (kind, false));
        assert_slots(&rt, *kind);
        same(
            &rt,
            Kind::PLAIN.iter().position(|other| other == kind),
            Some(place),
        );
    }
}

#[test]
fn members_are_1_to_16_in_their_order(rt: HostRuntime) {
    same(&rt, Members::of(&[]), None);
    let one = Members::of(&[7]).expect(&rt, "one");
    same(&rt, one, Members::one(7));
    same(&rt, one.as_slice(), [7].as_slice());
    let mut all = Members::one(0);
    for number in 1..16 {
        holds(&rt, all.as_slice().len() < 16);
        all.push(number);
    }
    let sixteen = [0, 1, 2, 3, 4, 5, 6, 7, 8, 9, 10, 11, 12, 13, 14, 15];
    same(&rt, all.as_slice(), sixteen.as_slice());
    same(&rt, Members::of(&sixteen), Some(all));
    let more = [0, 1, 2, 3, 4, 5, 6, 7, 8, 9, 10, 11, 12, 13, 14, 15, 16];
    same(&rt, Members::of(&more), None);
    assert_ne!(rt; one, all);
}

#[test]
fn a_hash_picks_a_member_by_all_but_its_lowest_three_bits(rt: HostRuntime) {
    let two = Members::of(&[10, 11]).expect(&rt, "two");
    // 0xcacbcbc9 div 8 is 425294201, and 0xcacbcbc1 div 8 one less.
    same(&rt, two.member(0xcacb_cbc9), 11);
    same(&rt, two.member(0xcacb_cbc1), 10);
    same(&rt, two.member(0), 10);
    same(&rt, two.member(7), 10);
    same(&rt, two.member(8), 11);
    same(&rt, two.member(15), 11);
    same(&rt, two.member(16), 10);
    // 425294201 mod 3 is 2.
    let three = Members::of(&[1, 1, 0]).expect(&rt, "three");
    same(&rt, three.member(0xcacb_cbc9), 0);
    same(&rt, three.member(u32::MAX), 1);
    same(&rt, Members::one(9).member(u32::MAX), 9);
}

#[test]
fn names_are_kept_in_their_order(rt: HostRuntime) {
    let a = Name::of(b"a").expect(&rt, "a name");
    let b = Name::of(b"b").expect(&rt, "a name");
    let names = Names::from_vec(vec![in rt.alloc(); a, b].expect(&rt, "memory"));
    has_length(&rt, names.as_slice().len(), 2);
    has_length(&rt, names.into_vec().len(), 2);
}

#[test]
fn laws_can_be_called() {
    laws::start_is_valid();
    laws::ip4_kinds_are_lawful();
    laws::ip4_kinds_leave_the_room();
    laws::legs_end();
    laws::sum_may_be_folded_at_the_end();
    laws::errors_are_in_order();
    laws::limits_are_those_defined();
    laws::start_numbers_are_those_defined();
}
