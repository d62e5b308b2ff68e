//! What is wrong with a capture.

use std::alloc::{AllocError, Global};

/// How many bytes of a capture are looked at: its header, and as many behind it as a text is known by.
pub const LOOKED_AT: u64 = 512;

/// The number of four bytes at a place, in one byte order or the other; 0 where the file is shorter.
fn number_at(head: &[u8], place: usize, little: bool) -> u32 {
    let Some(bytes) = head.get(place..place.saturating_add(4)) else {
        return 0;
    };
    match bytes {
        [a, b, c, d] if little => u32::from_le_bytes([*a, *b, *c, *d]),
        [a, b, c, d] => u32::from_be_bytes([*a, *b, *c, *d]),
        _ => 0,
    }
}

/// Whether the numbers of a savefile stand with their lowest byte first.
fn is_little(head: &[u8]) -> bool {
    matches!(head.first(), Some(0xd4) | Some(0x4d))
}

/// Whether a file begins as a savefile does, in either byte order and with either unit of time.
pub fn is_savefile(head: &[u8]) -> bool {
    matches!(
        number_at(head, 0, false),
        0xa1b2_c3d4 | 0xd4c3_b2a1 | 0xa1b2_3c4d | 0x4d3c_b2a1
    )
}

/// Whether a file begins as a pcapng file does.
pub fn is_pcapng(head: &[u8]) -> bool {
    number_at(head, 0, false) == 0x0a0d_0d0a
}

/// Whether the first bytes of a file are those of a text: one of ASCII, and behind it none that a text hasn't.
fn is_text(head: &[u8]) -> bool {
    let begins = head.first().is_some_and(|byte| byte.is_ascii());
    begins && !is_savefile(head) && head.iter().all(|byte| is_textual(*byte))
}

/// Whether a byte may stand in a text of any encoding that ASCII is a part of.
fn is_textual(byte: u8) -> bool {
    byte == b'\t' || byte == b'\r' || byte == b'\n' || !byte.is_ascii_control()
}

/// What a file that is no savefile may be, and what makes one of it.
fn other_format(head: &[u8]) -> &'static str {
    match number_at(head, 0, false) {
        0x0a0d_0d0a => "it is a pcapng file: `editcap -F pcap FILE NEW` makes a savefile of it",
        0x28b5_2ffd => "it is compressed: `zstd -d FILE -o NEW` unpacks it",
        0x0422_4d18 => "it is compressed: `lz4 -d FILE NEW` unpacks it",
        number if number >> 16 == 0x1f8b => "it is compressed: `gunzip -c FILE > NEW` unpacks it",
        _ =>
            "it begins with none of the four bytes of a savefile (pcap); `capinfos FILE` says what it is, and `editcap -F pcap FILE NEW` converts it",
    }
}

/// The sentence for a capture that is refused, by the cause and the place that were printed, and the first bytes of the file.
pub fn capture_fault(
    alloc: Global,
    cause: &str,
    place: &str,
    head: &[u8],
) -> Result<String, AllocError> {
    if is_text(head) {
        return String::from_str(
            alloc,
            "it is a text: are CAPTURE and SCRIPT exchanged? CAPTURE comes first\n",
        );
    }
    match cause {
        "too-large" => String::from_str(
            alloc,
            "it has more than 16777216 bytes: `editcap -F pcap -c 1000 FILE NEW` splits it\n",
        ),
        "not-pcap" => {
            let other = other_format(head);
            format!(in alloc; "{other}\n")
        }
        "version" => {
            let (major, minor) = version_of(head);
            format!(in alloc;
                "it is of version {major}.{minor} of the format, and 2.4 is wanted: `editcap -F pcap FILE NEW` writes it anew\n"
            )
        }
        "link-type" => {
            let link = number_at(head, 20, is_little(head));
            format!(in alloc;
                "its link type is {link}, and 1, Ethernet, is wanted: capture on an Ethernet interface, or name the frames Ethernet by `editcap -F pcap -T ether FILE NEW` where they are\n"
            )
        }
        "truncated" if head.is_empty() => String::from_str(alloc, "it is empty\n"),
        "truncated" => format!(in alloc;
            "it ends within what begins at byte {place}: `editcap -F pcap FILE NEW` keeps the whole packets\n"
        ),
        "record-too-long" => format!(in alloc;
            "the record at byte {place} says that more than 262144 bytes were captured: the file is damaged there\n"
        ),
        _ => format!(in alloc;
            "its record at byte {place} is the 65537th: `editcap -F pcap -r FILE NEW 1-65536` keeps those before it\n"
        ),
    }
}

/// The version of the format that a savefile says: its major and its minor number.
fn version_of(head: &[u8]) -> (u32, u32) {
    let version = number_at(head, 4, false);
    let first = version >> 16;
    let second = version & 0xffff;
    if is_little(head) {
        (swapped(first), swapped(second))
    } else {
        (first, second)
    }
}

/// The two bytes of a number in the other order.
fn swapped(number: u32) -> u32 {
    let low = number & 0xff;
    let high = number >> 8 & 0xff;
    low << 8 | high
}
