use crate::checks::{has_length, holds, same};
use std::alloc::Global;
use std::process::Abort;
use vg_capture::{
    Capture, CaptureError, Captured, Packets, Savefile, Sent, read_capture, write_capture,
};
use vg_model::Bytes;

/// Little-endian, microseconds, version 2.4, snaplen 262,144, Ethernet.
const HEADER: [u8; 24] = [
    0xd4, 0xc3, 0xb2, 0xa1, 2, 0, 4, 0, 0, 0, 0, 0, 0, 0, 0, 0, 0, 0, 4, 0, 1, 0, 0, 0,
];

/// Big-endian, nanoseconds, version 2.4, snaplen 65,535, Ethernet, and one record: 3 bytes of 60 were
/// captured at 1.999999999 seconds.
const BIG_ENDIAN: [u8; 43] = [
    0xa1, 0xb2, 0x3c, 0x4d, 0, 2, 0, 4, 0, 0, 0, 0, 0, 0, 0, 0, 0, 0, 0xff, 0xff, 0, 0, 0, 1, 0, 0,
    0, 1, 0x3b, 0x9a, 0xc9, 0xff, 0, 0, 0, 3, 0, 0, 0, 60, 7, 8, 9,
];

/// The header with this byte at this place.
fn header_with(rt: &impl Abort, place: usize, byte: u8) -> [u8; 24] {
    let mut header = HEADER;
    holds(rt, place < 24);
    header[place] = byte;
    header
}

/// The header, and zero bytes behind it up to a length.
fn zeros_up_to(rt: &impl Abort, alloc: Global, len: usize) -> Vec<u8> {
    let mut file = HEADER.to_vec(alloc).expect(rt, "memory");
    file.resize(len, 0).expect(rt, "memory");
    file
}

/// The capture of a file.
fn read(alloc: Global, file: &[u8]) -> Result<Capture, CaptureError> {
    match file.to_vec(alloc) {
        Ok(file) => read_capture(alloc, Bytes::from_vec(file)),
        Err(_) => Err(CaptureError::Memory),
    }
}

/// The savefile in which one packet of a capture was sent.
fn written(
    rt: &impl Abort,
    alloc: Global,
    capture: &Capture,
    number: u32,
    bytes: &[u8],
) -> Vec<u8> {
    holds(rt, (number as usize) < capture.packets.len());
    holds(rt, bytes.len() < 100);
    let sent = [Sent {
        number,
        bytes: Bytes::from_vec(bytes.to_vec(alloc).expect(rt, "memory")),
    }];
    write_capture(alloc, capture, &sent)
        .expect(rt, "memory")
        .into_vec()
}

#[test]
fn reads_and_writes_big_endian_nanoseconds(rt: HostRuntime) {
    let capture = read(rt.alloc(), &BIG_ENDIAN).expect(&rt, "a capture");
    holds(&rt, capture.nanos);
    same(&rt, capture.snaplen, 65_535);
    let packets = &capture.packets;
    has_length(&rt, packets.len(), 1);
    let marks = packets.marks(0);
    same(&rt, marks.seconds, 1);
    same(&rt, marks.fraction, 999_999_999);
    same(&rt, marks.original, 60);
    same(&rt, packets.bytes(0), [7, 8, 9].as_slice());

    let file = written(&rt, rt.alloc(), &capture, 0, &[5, 6]);
    let expected = [
        0x4d, 0x3c, 0xb2, 0xa1, 2, 0, 4, 0, 0, 0, 0, 0, 0, 0, 0, 0, 0xff, 0xff, 0, 0, 1, 0, 0, 0,
        1, 0, 0, 0, 0xff, 0xc9, 0x9a, 0x3b, 2, 0, 0, 0, 60, 0, 0, 0, 5, 6,
    ];
    same(&rt, file.as_slice(), expected.as_slice());
}

#[test]
fn an_empty_capture_is_its_header(rt: HostRuntime) {
    let capture = Capture {
        nanos: false,
        snaplen: 262_144,
        packets: Packets::of(rt.alloc(), &[]).expect(&rt, "memory"),
    };
    let file = write_capture(rt.alloc(), &capture, &[]).expect(&rt, "memory");
    same(&rt, file.as_slice(), HEADER.as_slice());

    let capture = read(rt.alloc(), file.as_slice()).expect(&rt, "a capture");
    holds(&rt, !capture.nanos);
    same(&rt, capture.snaplen, 262_144);
    has_length(&rt, capture.packets.len(), 0);
}

#[test]
fn each_refusal_names_its_place(rt: HostRuntime) {
    let no_magic = [0x0a, 0x0d, 0x0d, 0x0a];
    let version_2_3 = header_with(&rt, 6, 3);
    let upper_bit = header_with(&rt, 23, 0x10);
    let large = zeros_up_to(&rt, rt.alloc(), 16_777_217);
    let mut long = BIG_ENDIAN;
    long[32] = 0xff;
    long[33] = 0xff;
    long[34] = 0xff;
    long[35] = 0xff;
    let cases: [(&[u8], CaptureError); 9] = [
        (&long, CaptureError::RecordTooLong { offset: 24 }),
        (&HEADER[..3], CaptureError::Truncated { offset: 0 }),
        (&no_magic, CaptureError::NotPcap),
        (&HEADER[..23], CaptureError::Truncated { offset: 0 }),
        (&version_2_3, CaptureError::Version { major: 2, minor: 3 }),
        (&upper_bit, CaptureError::LinkType(0x1000_0001)),
        (&BIG_ENDIAN[..39], CaptureError::Truncated { offset: 24 }),
        (&BIG_ENDIAN[..42], CaptureError::Truncated { offset: 40 }),
        (&large, CaptureError::TooLarge),
    ];
    for (file, expected) in cases {
        same(&rt, read(rt.alloc(), file).err(), Some(expected));
    }
}

#[test]
fn as_many_packets_as_may_be(rt: HostRuntime) {
    let capture = read_capture(
        rt.alloc(),
        Bytes::from_vec(zeros_up_to(&rt, rt.alloc(), 1_048_600)),
    )
    .expect(&rt, "a capture");
    has_length(&rt, capture.packets.len(), 65_536);

    let mut file = zeros_up_to(&rt, rt.alloc(), 1_048_616);
    let refused = read(rt.alloc(), &file).err();
    same(
        &rt,
        refused,
        Some(CaptureError::TooManyPackets { offset: 1_048_600 }),
    );

    holds(&rt, file.len() > 34);
    file[34] = 5;
    let refused = read(rt.alloc(), &file).err();
    same(
        &rt,
        refused,
        Some(CaptureError::RecordTooLong { offset: 24 }),
    );
}

/// A capture of packets without bytes, by their seconds and fractions.
fn capture_at(rt: &impl Abort, alloc: Global, nanos: bool, stamps: &[(u32, u32)]) -> Capture {
    let mut packets = Vec::new(alloc);
    for (seconds, fraction) in stamps {
        packets
            .push(Captured {
                seconds: *seconds,
                fraction: *fraction,
                original: 0,
                bytes: Bytes::from_vec(Vec::new(alloc)),
            })
            .expect(rt, "memory");
    }
    holds(rt, packets.len() < 100);
    Capture {
        nanos,
        snaplen: 262_144,
        packets: Packets::of(alloc, packets.as_slice()).expect(rt, "memory"),
    }
}

/// Whether the packets have these times.
fn has_times(capture: &Capture, times: &[u64]) -> bool {
    let count = capture.count();
    if count as usize != times.len() {
        return false;
    }
    for number in 0..count {
        if capture.time(number) != times[number as usize] {
            return false;
        }
    }
    true
}

#[test]
fn times_never_fall(rt: HostRuntime) {
    let empty = capture_at(&rt, rt.alloc(), false, &[]);
    same(&rt, empty.count(), 0);

    // A fraction above a second, a time stamp below the one before, and one below the first.
    let stamps = [(10, 0), (10, 2_500_000), (11, 5), (13, 1), (9, 0)];
    let capture = capture_at(&rt, rt.alloc(), false, &stamps);
    holds(
        &rt,
        has_times(&capture, &[0, 2_500_000, 2_500_000, 3_000_001, 3_000_001]),
    );

    // In microseconds: 1,999,999, then 4,000,000, 0, and 4,294,967,299,294,967.
    let stamps = [
        (1, 999_999_999),
        (3, 1_000_000_500),
        (0, 0),
        (4_294_967_295, 4_294_967_295),
    ];
    let capture = capture_at(&rt, rt.alloc(), true, &stamps);
    holds(
        &rt,
        has_times(&capture, &[0, 2_000_001, 2_000_001, 4_294_967_297_294_968]),
    );
}

#[test]
fn each_magic_has_its_order_and_unit(rt: HostRuntime) {
    let magics = [
        ([0xd4, 0xc3, 0xb2, 0xa1], false),
        ([0x4d, 0x3c, 0xb2, 0xa1], true),
    ];
    for (magic, nanos) in magics {
        let mut file = HEADER;
        file[..4].copy_from_slice(&magic);
        let capture = read(rt.alloc(), &file).expect(&rt, "a capture");
        same(&rt, capture.nanos, nanos);
        same(&rt, capture.snaplen, 262_144);
    }

    let magics = [
        ([0xa1, 0xb2, 0xc3, 0xd4], false),
        ([0xa1, 0xb2, 0x3c, 0x4d], true),
    ];
    for (magic, nanos) in magics {
        let mut file = BIG_ENDIAN;
        file[..4].copy_from_slice(&magic);
        let capture = read(rt.alloc(), &file).expect(&rt, "a capture");
        same(&rt, capture.nanos, nanos);
        same(&rt, capture.snaplen, 65_535);
    }
}

/// A packet of the second 1 with these bytes.
fn packet(rt: &impl Abort, alloc: Global, original: u32, bytes: &[u8]) -> Captured {
    Captured {
        seconds: 1,
        fraction: 0,
        original,
        bytes: Bytes::from_vec(bytes.to_vec(alloc).expect(rt, "memory")),
    }
}

#[test]
fn a_stretch_is_packets_one_behind_the_other(rt: HostRuntime) {
    let alloc = rt.alloc();
    let made = [
        packet(&rt, alloc, 60, &[1, 2, 3]),
        packet(&rt, alloc, 61, &[]),
        packet(&rt, alloc, 62, &[4, 5]),
    ];
    let packets = Packets::of(alloc, &made).expect(&rt, "memory");
    has_length(&rt, packets.len(), 3);
    same(&rt, packets.marks(2).original, 62);

    let stretch = packets.stretch(1, 2);
    has_length(&rt, stretch.len(), 2);
    has_length(&rt, stretch.bytes(0).len(), 0);
    same(&rt, stretch.bytes(1), [4, 5].as_slice());
}

#[test]
fn a_savefile_is_put_together_record_by_record(rt: HostRuntime) {
    let alloc = rt.alloc();
    let capture = read(alloc, &BIG_ENDIAN).expect(&rt, "a capture");
    has_length(&rt, capture.packets.len(), 1);
    let mut file = Savefile::begin(alloc, &capture, Savefile::room(2, 1)).expect(&rt, "memory");
    file.put(&capture, 0, &[5]).expect(&rt, "memory");
    file.put(&capture, 0, &[]).expect(&rt, "memory");
    let expected = [
        0x4d, 0x3c, 0xb2, 0xa1, 2, 0, 4, 0, 0, 0, 0, 0, 0, 0, 0, 0, 0xff, 0xff, 0, 0, 1, 0, 0, 0,
        1, 0, 0, 0, 0xff, 0xc9, 0x9a, 0x3b, 1, 0, 0, 0, 60, 0, 0, 0, 5, 1, 0, 0, 0, 0xff, 0xc9,
        0x9a, 0x3b, 0, 0, 0, 0, 60, 0, 0, 0,
    ];
    same(&rt, file.end().as_slice(), expected.as_slice());
    same(&rt, Savefile::room(2, 1), 57);
}

#[test]
fn a_refusal_is_told_in_words(rt: HostRuntime) {
    let version = CaptureError::Version { major: 2, minor: 3 };
    let text = format!(in rt.alloc(); "{version}").expect(&rt, "memory");
    same(&rt, text.as_str(), "the version is 2.3, and not 2.4");
    let torn = CaptureError::Truncated { offset: 40 };
    let text = format!(in rt.alloc(); "{torn}").expect(&rt, "memory");
    same(&rt, text.as_str(), "what begins at byte 40 is cut off");
}
