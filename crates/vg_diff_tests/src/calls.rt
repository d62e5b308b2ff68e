//! Calls of the comparison over folders in memory. Frames and savefiles are written out by hand.
use std::num::NonZeroUsize;
use std::process::Abort;
use std::thread::Threads;
use vg_diff::diff_run;
use vg_outside::{MemorySink, SureFolder, SureSink};

/// A savefile's header: microseconds, little-endian, Ethernet.
const HEADER: [u8; 24] = [
    0xd4, 0xc3, 0xb2, 0xa1, 2, 0, 4, 0, 0, 0, 0, 0, 0, 0, 0, 0, 0xff, 0xff, 0, 0, 1, 0, 0, 0,
];

/// A UDP datagram of 3 bytes of payload from 10.0.0.1 to 10.0.0.2, port 1 to 2, with time to live 63, in a frame.
const FIRST: [u8; 45] = [
    2, 0, 0, 0, 0, 0xb, 2, 0xfe, 0, 0, 0, 1, 8, 0, // frame
    0x45, 0, 0, 31, 0, 1, 0, 0, 63, 17, 0x67, 0xcb, 10, 0, 0, 1, 10, 0, 0, 2, // IPv4
    0, 1, 0, 2, 0, 11, 0, 0, b'a', b'b', b'c',
];

/// The same with identification 2 and another payload.
const SECOND: [u8; 45] = [
    2, 0, 0, 0, 0, 0xb, 2, 0xfe, 0, 0, 0, 1, 8, 0, // frame
    0x45, 0, 0, 31, 0, 2, 0, 0, 63, 17, 0x67, 0xca, 10, 0, 0, 1, 10, 0, 0, 2, // IPv4
    0, 1, 0, 2, 0, 11, 0, 0, b'x', b'y', b'z',
];

/// The same as FIRST with identification 5 and a third payload.
const THIRD: [u8; 45] = [
    2, 0, 0, 0, 0, 0xb, 2, 0xfe, 0, 0, 0, 1, 8, 0, // frame
    0x45, 0, 0, 31, 0, 5, 0, 0, 63, 17, 0x67, 0xc7, 10, 0, 0, 1, 10, 0, 0, 2, // IPv4
    0, 1, 0, 2, 0, 11, 0, 0, b'p', b'q', b'r',
];

/// A datagram from 10.0.201.228 to 211.0.0.152, port 62596 to 2: of another flow than FIRST, whose hash is that of FIRST's.
const TWIN: [u8; 45] = [
    2, 0, 0, 0, 0, 0xb, 2, 0xfe, 0, 0, 0, 1, 8, 0, // frame
    0x45, 0, 0, 31, 0, 4, 0, 0, 63, 17, 0xd4, 0x4d, 10, 0, 201, 228, 211, 0, 0, 152, // IPv4
    0xf4, 0x84, 0, 2, 0, 11, 0, 0, b't', b'w', b'o',
];

/// A datagram to 10.9.0.9, for which there is no route.
const ASTRAY: [u8; 45] = [
    2, 0xfe, 0, 0, 0, 0, 2, 0, 0, 0, 0, 0xa, 8, 0, // frame
    0x45, 0, 0, 31, 0, 3, 0, 0, 64, 17, 0x66, 0xb9, 10, 0, 0, 1, 10, 9, 0, 9, // IPv4
    0, 1, 0, 2, 0, 11, 0, 0, b'n', b'o', b'w',
];

/// An ARP request.
const ARP: [u8; 42] = [
    0xff, 0xff, 0xff, 0xff, 0xff, 0xff, 2, 0, 0, 0, 0, 0xb, 8, 6, // frame
    0, 1, 8, 0, 6, 4, 0, 1, 2, 0, 0, 0, 0, 0xb, 10, 0, 0, 2, 0, 0, 0, 0, 0, 0, 10, 0, 0, 1,
];

/// A UDP datagram of 3 bytes of payload from 2001:db8::1 to 2001:db8::2, with hop limit 63, in a frame.
const SIX: [u8; 65] = [
    2, 0, 0, 0, 0, 0xb, 2, 0xfe, 0, 0, 0, 1, 0x86, 0xdd, // frame
    0x60, 0, 0, 0, 0, 11, 17, 63, // IPv6
    0x20, 1, 0xd, 0xb8, 0, 0, 0, 0, 0, 0, 0, 0, 0, 0, 0, 1, // from
    0x20, 1, 0xd, 0xb8, 0, 0, 0, 0, 0, 0, 0, 0, 0, 0, 0, 2, // to
    0, 1, 0, 2, 0, 11, 0, 0, b'a', b'b', b'c',
];

/// FIRST behind a tag of VLAN 10.
const TAGGED: [u8; 49] = [
    2, 0, 0, 0, 0, 0xb, 2, 0xfe, 0, 0, 0, 1, 0x81, 0, 0, 10, 8, 0, // frame
    0x45, 0, 0, 31, 0, 1, 0, 0, 63, 17, 0x67, 0xcb, 10, 0, 0, 1, 10, 0, 0, 2, // IPv4
    0, 1, 0, 2, 0, 11, 0, 0, b'a', b'b', b'c',
];

/// A neighbor solicitation (ICMPv6 135) for fe80::1.
const SOLICITATION: [u8; 78] = [
    0x33, 0x33, 0xff, 0, 0, 1, 2, 0, 0, 0, 0, 0xb, 0x86, 0xdd, // frame
    0x60, 0, 0, 0, 0, 24, 58, 255, // IPv6
    0xfe, 0x80, 0, 0, 0, 0, 0, 0, 0, 0, 0, 0, 0, 0, 0, 2, // from
    0xff, 2, 0, 0, 0, 0, 0, 0, 0, 0, 0, 1, 0xff, 0, 0, 1, // to
    135, 0, 0, 0, 0, 0, 0, 0, 0xfe, 0x80, 0, 0, 0, 0, 0, 0, 0, 0, 0, 0, 0, 0, 0, 1,
];

/// The report of a run that transmitted packets 0 and 2, and dropped packet 1; packet 0 was traced.
const REPORT: &[u8] = b"vgd report 1
workers 1
buffers 4096
generations 1
packets 3
interface 0 pg0 tx 2
node 0 pg-input 3
node 1 handoff-dequeue 0
node 2 ethernet-input 3
node 3 ip4-input 3
node 4 ip4-lookup 3
node 5 ip4-rewrite 2
node 6 interface-output 2
node 7 interface-tx 2
node 8 error-drop 1
error ip4-lookup no-route 1
packet 0 0:0 tx pg0
packet 1 0:0 drop ip4-lookup no-route
packet 2 0:0 tx pg0
trace 0 pg-input ethernet-input
end
";

/// The report of a run that transmitted its three packets.
const REPORT_OF_THREE: &[u8] = b"vgd report 1
workers 1
buffers 4096
generations 1
packets 3
interface 0 pg0 tx 3
node 0 interface-tx 3
packet 0 0:0 tx pg0
packet 1 0:0 tx pg0
packet 2 0:0 tx pg0
end
";

/// Adds a record at so many seconds.
fn put_record(rt: &impl Abort, file: &mut Vec<u8>, seconds: u8, frame: &[u8]) {
    let len = frame.len().min(255) as u8;
    file.extend_from_slice(&[seconds, 0, 0, 0, 0, 0, 0, 0, len, 0, 0, 0, len, 0, 0, 0])
        .expect(rt, "memory");
    file.extend_from_slice(frame).expect(rt, "memory");
}

/// A savefile of these frames.
fn savefile<R: Abort + AllocGlobal>(rt: &R, frames: &[&[u8]]) -> Vec<u8> {
    let mut file = HEADER.to_vec(rt.alloc()).expect(rt, "memory");
    let mut seconds = 0u8;
    for frame in frames {
        put_record(rt, &mut file, seconds, frame);
        seconds = seconds.wrapping_add(1);
    }
    file
}

/// A frame with another byte at a place.
fn changed<R: Abort + AllocGlobal>(rt: &R, frame: &[u8], place: usize, byte: u8) -> Vec<u8> {
    let mut frame = frame.to_vec(rt.alloc()).expect(rt, "memory");
    if place < frame.len() {
        frame[place] = byte;
    }
    frame
}

/// A frame padded to so many bytes.
fn padded<R: Abort + AllocGlobal>(rt: &R, frame: &[u8], len: usize) -> Vec<u8> {
    let mut frame = frame.to_vec(rt.alloc()).expect(rt, "memory");
    for more in 0..len {
        if frame.len() < len {
            frame.push(7).expect(rt, "memory");
        }
    }
    frame
}

/// Adds a file to a folder.
fn put_file(rt: &impl Abort, folder: &mut SureFolder, name: &str, bytes: &[u8]) {
    folder.add(name, bytes).expect(rt, "memory");
}

/// A folder with a capture `c`, a savefile `t` of the frames that had to come, the report `r`, and two savefiles `o` and `p` of those that did.
fn folder_of<R: Abort + AllocGlobal>(
    rt: &R,
    report: &[u8],
    wanted: &[&[u8]],
    first: &[&[u8]],
    second: &[&[u8]],
) -> SureFolder {
    let mut folder = SureFolder::new(rt.alloc());
    let capture = savefile(rt, &[&FIRST, &ASTRAY, &SECOND]);
    put_file(rt, &mut folder, "c", capture.as_slice());
    put_file(rt, &mut folder, "t", savefile(rt, wanted).as_slice());
    put_file(rt, &mut folder, "r", report);
    put_file(rt, &mut folder, "o", savefile(rt, first).as_slice());
    put_file(rt, &mut folder, "p", savefile(rt, second).as_slice());
    folder
}

/// The status and the printed text of these words over a folder.
fn call<R: Abort + AllocGlobal + Threads + Sync>(
    rt: &R,
    words: &[&str],
    folder: &mut SureFolder,
) -> (u8, Vec<u8>) {
    let alloc = rt.alloc();
    let mut out = SureSink::new(alloc);
    let status = diff_run(rt, alloc, words, folder, &mut out);
    (status, out.written().to_vec(alloc).expect(rt, "memory"))
}

/// Asks that a call came to this status and printed this text.
fn expect(rt: &impl Abort, found: &(u8, Vec<u8>), status: u8, text: &[u8]) {
    assert_eq!(rt; found.0, status);
    assert!(rt; found.1.as_slice() == text);
}

/// The status and the printed text, where these frames had to come and those did, in one savefile.
fn compare_with<R: Abort + AllocGlobal + Threads + Sync>(
    rt: &R,
    options: &[&str],
    wanted: &[&[u8]],
    frames: &[&[u8]],
) -> (u8, Vec<u8>) {
    let mut folder = folder_of(rt, REPORT, wanted, frames, &[]);
    let mut words = options.to_vec(rt.alloc()).expect(rt, "memory");
    words
        .extend_from_slice(&["t", "r", "o"])
        .expect(rt, "memory");
    call(rt, words.as_slice(), &mut folder)
}

/// The same where FIRST and SECOND had to come.
fn compare<R: Abort + AllocGlobal + Threads + Sync>(
    rt: &R,
    options: &[&str],
    frames: &[&[u8]],
) -> (u8, Vec<u8>) {
    compare_with(rt, options, &[&FIRST, &SECOND], frames)
}

/// The same where these came in two savefiles.
fn compare_two<R: Abort + AllocGlobal + Threads + Sync>(
    rt: &R,
    first: &[&[u8]],
    second: &[&[u8]],
) -> (u8, Vec<u8>) {
    let mut folder = folder_of(rt, REPORT, &[&FIRST, &SECOND], first, second);
    call(rt, &["t", "r", "o", "p"], &mut folder)
}

/// The same where FIRST, SECOND and THIRD had to come.
fn compare_three<R: Abort + AllocGlobal + Threads + Sync>(
    rt: &R,
    frames: &[&[u8]],
) -> (u8, Vec<u8>) {
    let mut folder = folder_of(rt, REPORT_OF_THREE, &[&FIRST, &SECOND, &THIRD], frames, &[]);
    call(rt, &["t", "r", "o"], &mut folder)
}

#[test]
fn equal_sets_match_in_any_order(rt: HostRuntime) {
    let (status, text) = compare(&rt, &[], &[&FIRST, &SECOND]);
    assert_eq!(rt; status, 0);
    assert!(rt; text.as_slice() == b"same 2\nreordered 0\nnoise 0 0\nend\n".as_slice());
    let (status, text) = compare(&rt, &[], &[&SECOND, &FIRST]);
    assert_eq!(rt; status, 0);
    assert!(rt; text.as_slice() == b"same 2\nreordered 1\nnoise 0 0\nend\n".as_slice());
}

#[test]
fn each_behind_one_that_had_to_come_later_is_reordered(rt: HostRuntime) {
    let found = compare_three(&rt, &[&THIRD, &FIRST, &SECOND]);
    expect(&rt, &found, 0, b"same 3\nreordered 2\nnoise 0 0\nend\n");
    let found = compare_three(&rt, &[&SECOND, &FIRST, &THIRD]);
    expect(&rt, &found, 0, b"same 3\nreordered 1\nnoise 0 0\nend\n");
}

#[test]
fn of_equal_packets_the_first_are_matched(rt: HostRuntime) {
    let found = compare_with(&rt, &[], &[&FIRST, &FIRST], &[&FIRST, &FIRST]);
    expect(&rt, &found, 0, b"same 2\nreordered 0\nnoise 0 0\nend\n");
    let found = compare_with(&rt, &[], &[&FIRST, &FIRST], &[&FIRST]);
    expect(
        &rt,
        &found,
        9,
        b"same 1\nmissing 2\nreordered 0\nnoise 0 0\nend\n",
    );
    let other = changed(&rt, &FIRST, 22, 64);
    let found = compare_with(&rt, &[], &[&FIRST, &FIRST], &[other.as_slice()]);
    expect(
        &rt,
        &found,
        9,
        b"same 0\nchanged 0 ttl 3f 40\nmissing 2\nreordered 0\nnoise 0 0\nend\n",
    );
}

#[test]
fn savefiles_are_numbered_one_behind_the_other(rt: HostRuntime) {
    let found = compare_two(&rt, &[&FIRST], &[&SECOND, &ASTRAY]);
    expect(
        &rt,
        &found,
        9,
        b"same 2\nextra 2 1:2\nreordered 0\nnoise 0 0\nend\n",
    );
    let found = compare_two(&rt, &[&SECOND], &[&FIRST]);
    expect(&rt, &found, 0, b"same 2\nreordered 0\nnoise 0 0\nend\n");
    let found = compare_two(&rt, &[], &[&FIRST, &SECOND, &ASTRAY]);
    expect(
        &rt,
        &found,
        9,
        b"same 2\nextra 2 1:3\nreordered 0\nnoise 0 0\nend\n",
    );
}

#[test]
fn flows_of_one_hash_are_two(rt: HostRuntime) {
    let (status, text) = compare_with(&rt, &[], &[&FIRST, &TWIN], &[&TWIN, &FIRST]);
    assert_eq!(rt; status, 0);
    assert!(rt; text.as_slice() == b"same 2\nreordered 0\nnoise 0 0\nend\n".as_slice());
}

#[test]
fn padding_and_noise_do_not_count(rt: HostRuntime) {
    let first = padded(&rt, &FIRST, 60);
    let (status, text) = compare(&rt, &[], &[&ARP, first.as_slice(), &SECOND]);
    assert_eq!(rt; status, 0);
    assert!(rt; text.as_slice() == b"same 2\nreordered 0\nnoise 0 1\nend\n".as_slice());
}

#[test]
fn padding_of_ip6_does_not_count(rt: HostRuntime) {
    let six = padded(&rt, &SIX, 70);
    let found = compare_with(&rt, &[], &[&SIX, &FIRST], &[six.as_slice(), &FIRST]);
    expect(&rt, &found, 0, b"same 2\nreordered 0\nnoise 0 0\nend\n");
}

#[test]
fn a_ttl_that_was_not_lowered_is_found(rt: HostRuntime) {
    let other = changed(&rt, &SECOND, 22, 64);
    let (status, text) = compare(&rt, &[], &[&FIRST, other.as_slice()]);
    assert_eq!(rt; status, 9);
    assert!(rt;
        text.as_slice() == b"same 1\nchanged 2 ttl 3f 40\nreordered 0\nnoise 0 0\nend\n".as_slice()
    );
    let (status, text) = compare(&rt, &["--brief"], &[&FIRST, other.as_slice()]);
    assert_eq!(rt; status, 9);
    assert!(rt;
        text.as_slice()
            == b"same 1\nmissing 0\nchanged 1\nextra 0\ndropped-but-there 0\nreordered 0\nnoise 0 0\nend\n".as_slice()
    );
}

#[test]
fn classes_have_an_example_each(rt: HostRuntime) {
    let other = changed(&rt, &SECOND, 22, 64);
    let (status, text) = compare(&rt, &["--classes"], &[other.as_slice(), &ASTRAY]);
    assert_eq!(rt; status, 9);
    assert!(rt;
        text.as_slice()
            == b"same 0\nclass missing 1 0:1\nclass changed ttl 1 0:1\nclass extra 1 0:2\nreordered 0\nnoise 0 0\nend\n".as_slice()
    );
}

#[test]
fn a_class_is_counted(rt: HostRuntime) {
    let first = changed(&rt, &FIRST, 22, 64);
    let second = changed(&rt, &SECOND, 22, 64);
    let found = compare(
        &rt,
        &["--classes"],
        &[&ARP, first.as_slice(), second.as_slice()],
    );
    expect(
        &rt,
        &found,
        9,
        b"same 0\nclass changed ttl 2 0:2\nreordered 0\nnoise 0 1\nend\n",
    );
    let found = compare(&rt, &["--classes"], &[]);
    expect(
        &rt,
        &found,
        9,
        b"same 0\nclass missing 2 0:1\nreordered 0\nnoise 0 0\nend\n",
    );
}

#[test]
fn a_change_outside_of_all_fields_has_a_class(rt: HostRuntime) {
    let other = changed(&rt, &FIRST, 15, 4);
    let frames: &[&[u8]] = &[&SECOND, other.as_slice()];
    let found = compare(&rt, &["--classes"], frames);
    expect(
        &rt,
        &found,
        9,
        b"same 1\nclass changed byte 1 0:2\nreordered 0\nnoise 0 0\nend\n",
    );
    let found = compare(&rt, &[], frames);
    expect(
        &rt,
        &found,
        9,
        b"same 1\nchanged 0 15 00 04\nreordered 0\nnoise 0 0\nend\n",
    );
}

#[test]
fn an_error_has_a_class(rt: HostRuntime) {
    let sent = changed(&rt, &ASTRAY, 22, 63);
    let options = &["--capture", "c", "--classes"];
    let found = compare(&rt, options, &[&FIRST, sent.as_slice(), &SECOND]);
    expect(
        &rt,
        &found,
        9,
        b"same 2\nclass dropped-but-there no-route 1 0:2\nreordered 0\nnoise 0 0\nend\n",
    );
}

#[test]
fn an_identification_may_be_ignored(rt: HostRuntime) {
    let other = changed(&rt, &FIRST, 19, 9);
    let frames: &[&[u8]] = &[other.as_slice(), &SECOND];
    let found = compare(&rt, &["--ignore", "identification"], frames);
    expect(&rt, &found, 0, b"same 2\nreordered 0\nnoise 0 0\nend\n");
    let found = compare(&rt, &[], frames);
    expect(
        &rt,
        &found,
        9,
        b"same 1\nmissing 0 pg-input ethernet-input\nextra 0 0:1\nreordered 0\nnoise 0 0\nend\n",
    );
}

#[test]
fn a_source_address_may_be_ignored(rt: HostRuntime) {
    let other = changed(&rt, &FIRST, 6, 0xa);
    let frames: &[&[u8]] = &[other.as_slice(), &SECOND];
    let found = compare(&rt, &["--ignore", "source-mac"], frames);
    expect(&rt, &found, 0, b"same 2\nreordered 0\nnoise 0 0\nend\n");
    let found = compare(&rt, &[], frames);
    expect(
        &rt,
        &found,
        9,
        b"same 1\nchanged 0 source-mac 02fe00000001 0afe00000001\nreordered 0\nnoise 0 0\nend\n",
    );
}

#[test]
fn a_field_may_be_ignored(rt: HostRuntime) {
    let other = changed(&rt, &SECOND, 22, 64);
    let (status, _) = compare(&rt, &["--ignore", "ttl"], &[&FIRST, other.as_slice()]);
    assert_eq!(rt; status, 0);
    let (status, _) = compare(&rt, &["--ignore", "checksum"], &[&FIRST, other.as_slice()]);
    assert_eq!(rt; status, 9);
}

#[test]
fn fields_of_ip6_and_of_a_tag_are_named(rt: HostRuntime) {
    let six = changed(&rt, &SIX, 21, 64);
    let tagged = changed(&rt, &TAGGED, 15, 11);
    let (status, text) = compare_with(
        &rt,
        &[],
        &[&SIX, &TAGGED],
        &[&SOLICITATION, six.as_slice(), tagged.as_slice()],
    );
    assert_eq!(rt; status, 9);
    assert!(rt;
        text.as_slice()
            == b"same 0\nchanged 0 ttl 3f 40\nchanged 2 vlan 000a 000b\nreordered 0\nnoise 0 1\nend\n".as_slice()
    );
}

#[test]
fn the_comparison_may_be_limited_to_prefixes(rt: HostRuntime) {
    let only = ["--only", "2001:db8::2/128"];
    let (status, text) = compare_with(&rt, &only, &[&SIX, &FIRST], &[&SIX]);
    assert_eq!(rt; status, 0);
    assert!(rt; text.as_slice() == b"same 1\nreordered 0\nnoise 1 0\nend\n".as_slice());
    let only = ["--only", "10.0.0.1/32"];
    let (status, text) = compare_with(&rt, &only, &[&SIX, &FIRST], &[&SIX]);
    assert_eq!(rt; status, 9);
    assert!(rt; text.as_slice() == b"same 0\nmissing 2\nreordered 0\nnoise 1 1\nend\n".as_slice());
    let (status, _) = compare_with(&rt, &["--only", "10.0.0.1"], &[&FIRST, &SECOND], &[&FIRST]);
    assert_eq!(rt; status, 2);
}

#[test]
fn a_checksum_alone_is_found(rt: HostRuntime) {
    let other = changed(&rt, &FIRST, 24, 0);
    let (status, text) = compare(&rt, &[], &[&SECOND, other.as_slice()]);
    assert_eq!(rt; status, 9);
    assert!(rt;
        text.as_slice()
            == b"same 1\nchanged 0 checksum 67cb 00cb\nreordered 0\nnoise 0 0\nend\n".as_slice()
    );
}

#[test]
fn one_twice_is_extra_and_one_missing_is_missing(rt: HostRuntime) {
    let (status, text) = compare(&rt, &[], &[&FIRST, &SECOND, &FIRST]);
    assert_eq!(rt; status, 9);
    assert!(rt;
        text.as_slice() == b"same 2\nextra 2 0:3\nreordered 0\nnoise 0 0\nend\n".as_slice()
    );
    let (status, text) = compare(&rt, &[], &[&SECOND]);
    assert_eq!(rt; status, 9);
    assert!(rt;
        text.as_slice()
            == b"same 1\nmissing 0 pg-input ethernet-input\nreordered 0\nnoise 0 0\nend\n".as_slice()
    );
}

#[test]
fn a_dropped_one_that_came_is_found(rt: HostRuntime) {
    let sent = changed(&rt, &ASTRAY, 22, 63);
    let frames: &[&[u8]] = &[&FIRST, sent.as_slice(), &SECOND];
    let (status, text) = compare(&rt, &["--capture", "c"], frames);
    assert_eq!(rt; status, 9);
    assert!(rt;
        text.as_slice()
            == b"same 2\ndropped-but-there 1 ip4-lookup no-route 0:2\nreordered 0\nnoise 0 0\nend\n".as_slice()
    );
    let (status, text) = compare(&rt, &[], frames);
    assert_eq!(rt; status, 9);
    assert!(rt;
        text.as_slice() == b"same 2\nextra 1 0:2\nreordered 0\nnoise 0 0\nend\n".as_slice()
    );
}

#[test]
fn refusals_have_their_status_and_their_line(rt: HostRuntime) {
    let alloc = rt.alloc();
    let mut folder = SureFolder::new(alloc);
    folder
        .add("t", savefile(&rt, &[&FIRST]).as_slice())
        .expect(&rt, "memory");
    folder
        .add("bad", b"no savefile at all")
        .expect(&rt, "memory");
    folder.add("r", REPORT).expect(&rt, "memory");
    for (words, status, line) in [
        (["t", "--brief", "o"], 2, "usage\n"),
        (["nowhere", "r", "t"], 3, "load nowhere\n"),
        (["bad", "r", "t"], 4, "capture not-pcap 0\n"),
        (["t", "bad", "t"], 5, "report 1 form\n"),
        (["t", "bad", "bad"], 5, "report 1 form\n"),
        (["t", "bad", "nowhere"], 5, "report 1 form\n"),
        (["bad", "nowhere", "t"], 4, "capture not-pcap 0\n"),
        (["t", "r", "nowhere"], 3, "load nowhere\n"),
        (["t", "r", "t"], 5, "report packets\n"),
    ] {
        let mut out = SureSink::new(alloc);
        let found = diff_run(&rt, alloc, words.as_slice(), &mut folder, &mut out);
        assert_eq!(rt; found, status, "{line}");
        assert!(rt; out.written() == line.as_bytes(), "{line}");
    }
}

/// A savefile and a report, and 17 savefiles.
const SEVENTEEN: [&str; 19] = [
    "t", "r", "o", "p", "p", "p", "p", "p", "p", "p", "p", "p", "p", "p", "p", "p", "p", "p", "p",
];

/// Asks that words are refused.
fn expect_usage<R: Abort + AllocGlobal + Threads + Sync>(
    rt: &R,
    words: &[&str],
    folder: &mut SureFolder,
) {
    let found = call(rt, words, folder);
    expect(rt, &found, 2, b"usage\n");
}

#[test]
fn faulty_words_ask_for_nothing(rt: HostRuntime) {
    let mut folder = folder_of(&rt, REPORT, &[&FIRST, &SECOND], &[&FIRST, &SECOND], &[]);
    let found = call(&rt, &SEVENTEEN[..18], &mut folder);
    expect(&rt, &found, 0, b"same 2\nreordered 0\nnoise 0 0\nend\n");
    expect_usage(&rt, &SEVENTEEN, &mut folder);
    expect_usage(&rt, &["t", "r"], &mut folder);
    expect_usage(&rt, &["--linux"], &mut folder);
    let twice = ["--capture", "c", "--capture", "c", "t", "r", "o"];
    expect_usage(&rt, &twice, &mut folder);
    expect_usage(&rt, &["--brief", "--classes", "t", "r", "o"], &mut folder);
    expect_usage(&rt, &["--ignore", "payload", "t", "r", "o"], &mut folder);
}

#[test]
fn a_sink_that_fails_has_a_front(rt: HostRuntime) {
    let alloc = rt.alloc();
    let mut folder = folder_of(&rt, REPORT, &[&FIRST, &SECOND], &[&FIRST, &SECOND], &[]);
    let failing = Vec::from_slice(alloc, &[1]).expect(&rt, "memory");
    let mut out = MemorySink::new(alloc, failing, NonZeroUsize::new(4));
    let status = diff_run(&rt, alloc, &["t", "r", "o"], &mut folder, &mut out);
    assert_eq!(rt; status, 7);
    assert!(rt; out.written() == b"same".as_slice());
}
