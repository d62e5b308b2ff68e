//! IPv6 addresses in words.
ghost use Rattle.std.specs.Prelude.{◌≡◌, ◌+◌, ◌/◌, ◌%◌, ◌<◌, ◌≤◌, [], ◌∷◌, length, take, drop, Some, None, option_map, IfSome, MatchOption};
ghost use Rattle.vg_script.specs.Address6.{group_of, groups_of, around_gap, if_eight, filled_up as filled_groups, number_of_groups, address6_of, address_groups as groups_of_address};
ghost use Rattle.vg_script.specs.Parts.{is_gap_at};

use crate::parts::first_part;
use arrayvec::ArrayVec;
use std::str;

/// The groups of an address.
const GROUPS: usize = 8;

/// The groups that are read of a text: at most eight.
type Groups = ArrayVec<u16, 8>;

/// A group: 1 to 4 hexadecimal digits.
fn group(text: &[u8]) -> Option<u16>
    ensures { result ≡ group_of text.now }
{
    if text.is_empty() || text.len() > 4 || !text.iter().all(|byte| byte.is_ascii_hexdigit()) {
        return None;
    }
    let Ok(digits) = str::from_utf8(text) else {
        return None;
    };
    match u16::from_str_radix(digits, 16) {
        Ok(group) => Some(group),
        Err(_) => None,
    }
}

/// Groups parted by `:`, none of them in no text. `None` also where there are more than eight.
fn groups(text: &[u8]) -> Option<Groups>
    ensures { MatchOption result (IfSome (groups_of text.now) (λ groups. 8 < length groups)) (λ groups. groups_of text.now ≡ Some groups.items) }
{
    let mut groups = ArrayVec::new();
    if text.is_empty() {
        return Some(groups);
    }
    let mut rest = Some(text);
    while let Some(text) = rest {
        let (part, others) = first_part(text, b':');
        let group = group(part)?;
        if groups.len() >= GROUPS {
            return None;
        }
        groups.push(group);
        rest = others;
    }
    Some(groups)
}

/// Whether a `::` begins at a place.
fn begins_gap(text: &[u8], place: usize) -> bool
    requires { place + 1 < length text.now }
    ensures { result ≡ is_gap_at text.now place }
{
    text[place] == b':' && text[place + 1] == b':'
}

/// The place of the first `::`.
fn gap(text: &[u8]) -> Option<usize>
    ensures { MatchOption result (around_gap text.now ≡ None) (λ place. (place + 2 ≤ length text.now) × (around_gap text.now ≡ Some (take place text.now, drop (place + 2) text.now))) }
{
    for place in 0..text.len().saturating_sub(1) {
        if begins_gap(text, place) {
            return Some(place);
        }
    }
    None
}

/// Groups with as many zeros between them as make them eight, at least one.
fn filled_up(before: Groups, behind: &[u16]) -> Option<Groups>
    ensures { option_map (λ groups. groups.items) result ≡ filled_groups before.items behind.now }
{
    let few = before.len();
    if behind.len() >= GROUPS || few + behind.len() >= GROUPS {
        return None;
    }
    let mut groups = before;
    for _zero in few + behind.len()..GROUPS {
        groups.push(0);
    }
    for group in behind {
        groups.push(*group);
    }
    Some(groups)
}

/// The number of eight groups; `None` where there are more or fewer.
fn number(groups: &[u16]) -> Option<u128>
    ensures { result ≡ option_map number_of_groups (if_eight groups.now) }
{
    if groups.len() != GROUPS {
        return None;
    }
    let high = half(groups[0], groups[1], groups[2], groups[3]);
    let low = half(groups[4], groups[5], groups[6], groups[7]);
    Some(u128::from(high) * 0x1_0000_0000_0000_0000 + u128::from(low))
}

/// The number of four groups.
fn half(a: u16, b: u16, c: u16, d: u16) -> u64
    ensures { result ≡ number_of_groups (a ∷ b ∷ c ∷ d ∷ []) }
{
    ((u64::from(a) * 65536 + u64::from(b)) * 65536 + u64::from(c)) * 65536 + u64::from(d)
}

/// The address that a text says.
pub fn address6(text: &[u8]) -> Option<u128>
    ensures { result ≡ address6_of text.now }
{
    match gap(text) {
        None => number(groups(text)?.as_slice()),
        Some(place) => {
            let before = groups(&text[..place])?;
            let behind = groups(&text[place + 2..])?;
            number(filled_up(before, behind.as_slice())?.as_slice())
        }
    }
}

/// A number's lowest group, and the number of the groups before it.
fn split_group(number: u128) -> (u128, u16)
    ensures others { result.0 ≡ number / 65536 }
    ensures last { result.1 ≡ number % 65536 }
{
    (number / 65536, (number % 65536) as u16)
}

/// The eight groups of an address, the highest first.
pub fn address_groups(addr: u128) -> [u16; 8]
    ensures { result ≡ groups_of_address addr }
{
    let (rest, eighth) = split_group(addr);
    let (rest, seventh) = split_group(rest);
    let (rest, sixth) = split_group(rest);
    let (rest, fifth) = split_group(rest);
    let (rest, fourth) = split_group(rest);
    let (rest, third) = split_group(rest);
    let (rest, second) = split_group(rest);
    let (_, first) = split_group(rest);
    [first, second, third, fourth, fifth, sixth, seventh, eighth]
}
