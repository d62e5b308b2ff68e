//! Numbers made of bytes, by which these are told apart first.
ghost use Rattle.std.specs.Prelude.{◌≡◌, ◌+◌, ◌≤◌, length};
ghost use Rattle.vg_match.specs.Hashes.{number64_at, mixed, hash_of as hash_of_bytes};

/// An odd number near 2^64 divided by the golden ratio.
const FACTOR: u64 = 0x9e37_79b9_7f4a_7c15;

// The 64-bit number at a place.
#[tactic(auto, unfolding(crate::specs::Hashes::number64_at))]
fn u64_at(bytes: &[u8], place: usize) -> u64
    requires { place + 8 ≤ length bytes.now }
    ensures { result ≡ number64_at bytes.now place }
{
    let mut octets = [0; 8];
    octets.copy_from_slice(&bytes[place..place + 8]);
    u64::from_be_bytes(octets)
}

// A hash with one number more.
#[tactic(auto, unfolding(crate::specs::Hashes::mixed))]
fn mix(hash: u64, number: u64) -> u64
    ensures { result ≡ mixed hash number }
{
    hash.wrapping_mul(FACTOR).wrapping_add(number)
}

/// A number made of all bytes, of eight at a time: the same for the same bytes, and seldom that of others. Fewer than eight bytes make 0.
#[tactic(auto, using(crate::proofs::HashLemmas::groups_more), unfolding(crate::specs::Hashes::hash_of))]
pub fn hash_of(bytes: &[u8]) -> u64
    ensures { result ≡ hash_of_bytes bytes.now }
{
    if bytes.len() < 8 {
        return 0;
    }
    let mut hash = 0;
    for group in 0..bytes.len() / 8 {
        hash = mix(hash, u64_at(bytes, 8 * group));
    }
    // Whole groups may leave fewer than eight bytes: the last eight hold these.
    mix(hash, u64_at(bytes, bytes.len() - 8))
}
