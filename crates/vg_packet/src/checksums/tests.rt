//! Sums whose values are known.
use super::{has_all_bits, pair_sum, raised_checksum, word_sum};
use crate::laws;

#[test]
fn words_of_rfc_1071_are_summed(rt: HostRuntime) {
    let words = [0x00, 0x01, 0xf2, 0x03, 0xf4, 0xf5, 0xf6, 0xf7];
    assert_eq!(rt; word_sum(&words), 0x0002_ddf0);
    assert_eq!(rt; pair_sum(&words), 0x0001_f203 + 0xf4f5_f6f7);
    assert!(rt; has_all_bits(pair_sum(&words) + 0x220d));
}

#[test]
fn checksum_is_updated(rt: HostRuntime) {
    laws::lowered_header_verifies();
    laws::update_is_the_checksum_anew();
    assert_eq!(rt; raised_checksum(0xacd4), 0xadd4);
    assert_eq!(rt; raised_checksum(0xfeff), 0x0000);
    assert_eq!(rt; raised_checksum(0xffff), 0x0100);
}
