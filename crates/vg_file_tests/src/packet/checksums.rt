//! Headers whose checksums are known.
use crate::checks::{holds, same};
use std::process::Abort;
use vg_packet::{lower_ttl, lowered_ttl, verify_header};

/// A header of 20 bytes from 192.0.2.1 to 10.1.2.3, of protocol 17.
fn header(identification: u16, time_to_live: u8, checksum: u16) -> [u8; 20] {
    let [id_high, id_low] = identification.to_be_bytes();
    let [sum_high, sum_low] = checksum.to_be_bytes();
    [
        0x45,
        0,
        0,
        20,
        id_high,
        id_low,
        0,
        0,
        time_to_live,
        17,
        sum_high,
        sum_low,
        192,
        0,
        2,
        1,
        10,
        1,
        2,
        3,
    ]
}

/// The header verifies, and lowering its time to live leaves `after`.
fn assert_lowered(rt: &impl Abort, mut header: [u8; 20], after: [u8; 20]) {
    holds(rt, verify_header(&header));
    holds(rt, header[0] != 0 && header[8] >= 1);
    let lowered = lowered_ttl(&header);
    same(rt, lowered, [after[8], after[9], after[10], after[11]]);
    lower_ttl(&mut header);
    same(rt, header, after);
}

#[test]
fn a_wrong_checksum_does_not_verify(rt: HostRuntime) {
    holds(&rt, !verify_header(&header(0x0000, 64, 0xacd5)));
    holds(&rt, !verify_header(&header(0x0000, 63, 0xacd4)));
    holds(&rt, !verify_header(&[0; 20]));
}

#[test]
fn lowered_headers_have_their_checksums(rt: HostRuntime) {
    for (identification, time_to_live, checksum, lowered) in [
        (0x0000, 64, 0xacd4, 0xadd4),
        // from both forms of zero
        (0xacd4, 64, 0xffff, 0x0100),
        (0xacd4, 64, 0x0000, 0x0100),
        // to zero, where the update of RFC 1141 gives 0xffff
        (0xadd4, 64, 0xfeff, 0x0000),
        (0x0000, 1, 0xebd4, 0xecd4),
        (0x0000, 255, 0xedd3, 0xeed3),
    ] {
        holds(&rt, time_to_live >= 1);
        assert_lowered(
            &rt,
            header(identification, time_to_live, checksum),
            header(identification, time_to_live - 1, lowered),
        );
    }
}

#[test]
fn options_are_summed(rt: HostRuntime) {
    for (words, checksum, lowered) in [
        (6u8, 0xa9cf, [0xaa, 0xcf]),
        (7, 0xa6c9, [0xa7, 0xc9]),
        (8, 0xa3c3, [0xa4, 0xc3]),
        (9, 0xa0bd, [0xa1, 0xbd]),
        (10, 0x9db7, [0x9e, 0xb7]),
        (11, 0x9ab1, [0x9b, 0xb1]),
        (12, 0x97ab, [0x98, 0xab]),
        (13, 0x94a5, [0x95, 0xa5]),
        (14, 0x919f, [0x92, 0x9f]),
        (15, 0x8e99, [0x8f, 0x99]),
    ] {
        holds(&rt, words >= 6 && words <= 15);
        let len = usize::from(words) * 4;
        // No Operation options, and the End of Option List behind them
        let mut bytes = [1; 60];
        bytes[..20].copy_from_slice(&header(0x0000, 64, checksum));
        bytes[0] = 0x40 + words;
        bytes[3] = words * 4;
        bytes[len - 1] = 0;
        let header = &mut bytes[..len];
        assert!(rt; verify_header(header), "of {words} words");
        holds(&rt, header[0] != 0 && header[8] >= 1);
        lower_ttl(header);
        same(&rt, header[8], 63);
        same(&rt, (words, &header[10..12]), (words, lowered.as_slice()));
    }
}
