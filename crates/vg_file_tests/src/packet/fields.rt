//! Numbers whose bytes are known.
use crate::checks::same;
use vg_packet::{u16_at, u32_at};

#[test]
fn numbers_are_read_with_the_high_byte_first(rt: HostRuntime) {
    let bytes = [0x08, 0x00, 0x0a, 0x01, 0x02, 0x03];
    same(&rt, u16_at(&bytes, 0), 0x0800);
    same(&rt, u16_at(&bytes, 4), 0x0203);
    same(&rt, u32_at(&bytes, 2), 0x0a01_0203);
}
