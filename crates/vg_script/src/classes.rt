//! The classes of words.
ghost use Rattle.std.specs.Prelude.{◌≡◌, ◌≢◌, [], ◌+◌, ◌++◌, ◌<◌, ◌≤◌, ◌==◌, ◌&&◌, if◌then◌else◌, true, nat_le, length, take, drop, unwrap_or, bytes_eq, decimal, Some, None, IfSome, MatchOption, MatchResult, ok_or, option_map, find, ◌-◌, ◌%◌, ◌^◌};
ghost use Rattle.std.specs.Option.{ForSome, option_copied};
ghost use Rattle.std.specs.Char.{is_ascii_digit};
ghost use Rattle.std.specs.List.{before_first, after_first, list_all};
ghost use Rattle.std.specs.Str.Parse.{digits_value};
ghost use Rattle.vg_model.specs.Graph.{plain_kinds};
ghost use Rattle.vg_script.specs.Fronts.{digit_in_front, behind_a_dot, number_in_front};
ghost use Rattle.vg_script.specs.Reader.{Refuses};
ghost use Rattle.vg_script.specs.Classes.{names_of, is_decimal as is_decimal_word, number_of, pair_of, mac_of, address_of, prefix_of};
ghost use Rattle.vg_script.specs.Classes.{prefix6_of, is_word_for as kind_word_is, number_behind as number_behind_text, vlan_behind as vlan_behind_text, numbered_kind as numbered_kind_of, kind_of};

use crate::address6::address6;
use crate::errors::ScriptCause;
use crate::parts::first_part;
use itoa::Buffer;
use std::alloc::Global;
use std::str;
use vg_model::kinds::{CONNECT_TEXT, MATCH_TEXT, PUSH_TEXT, REWRITE_TEXT};
use vg_model::limits::{LEAST_VLAN, MOST_INTERFACES, MOST_MEMBERS, MOST_VLAN};
use vg_model::{Kind, KindWord, Mac, Name, Names, Prefix, Prefix6, VlanId};

/// What stands before a place, and what stands behind the byte there: all and nothing where there is no place.
pub fn split_at(text: &[u8], place: Option<usize>) -> (&[u8], &[u8])
    requires { ForSome place (λ place. place < length text.now) }
    ensures before { result.0.now ≡ take (unwrap_or place (length text.now)) text.now }
    ensures after { result.1.now ≡ drop (unwrap_or place (length text.now) + 1) text.now }
{
    match place {
        Some(place) => (&text[..place], &text[place + 1..]),
        None => (text, &[]),
    }
}

/// What stands before the first such byte, and what stands behind it: all and nothing where there is none.
pub fn split_at_first(text: &[u8], mark: u8) -> (&[u8], &[u8])
    ensures before { result.0.now ≡ before_first (λ byte. byte == mark) text.now }
    ensures after { result.1.now ≡ after_first (λ byte. byte == mark) text.now }
{
    split_at(text, text.iter().position(|byte| *byte == mark))
}

/// The names that a word says, parted by `,`: 1 to 16.
pub fn names(alloc: Global, word: &[u8]) -> Result<Names, ScriptCause>
    ensures { MatchResult result (λ names. names_of word.now ≡ Some names) (λ cause. Refuses (ok_or (names_of word.now) ScriptCause.Name) cause) }
{
    // Most words are one name. For several there is room for as many as may be, so that the list never grows.
    let room = if word.contains(&b',') {
        MOST_MEMBERS
    } else {
        1
    };
    let Ok(mut names) = Vec::with_capacity(alloc, room) else {
        return Err(ScriptCause::Memory);
    };
    let mut rest = Some(word);
    while let Some(text) = rest {
        let (part, others) = first_part(text, b',');
        if names.len() >= MOST_MEMBERS {
            return Err(ScriptCause::Name);
        }
        let Some(name) = Name::of(part) else {
            return Err(ScriptCause::Name);
        };
        if names.push(name).is_err() {
            return Err(ScriptCause::Memory);
        }
        rest = others;
    }
    Ok(Names::from_vec(names))
}

/// Whether the word is decimal digits, the first of several not 0.
fn is_decimal(word: &[u8]) -> bool
    ensures { result ≡ is_decimal_word word.now }
{
    if word.is_empty() || !word.iter().all(|byte| byte.is_ascii_digit()) {
        return false;
    }
    word.len() == 1 || word[0] != b'0'
}

/// How many digits say a number below 2^64, whichever they are.
const FEW_DIGITS: usize = 19;

/// A number, where it is in this range.
fn within(number: u64, least: u64, most: u64) -> Option<u64>
    ensures { result ≡ (if nat_le least number && nat_le number most then Some number else None) }
{
    if least <= number && number <= most {
        Some(number)
    } else {
        None
    }
}

/// The number that so few digits say.
fn value_of_few(digits: &[u8]) -> u64
    requires digits { list_all is_ascii_digit digits.now ≡ true }
    requires few { length digits.now ≤ FEW_DIGITS }
    ensures { result ≡ digits_value 10 digits.now }
{
    let mut value: u64 = 0;
    for digit in digits {
        value = value * 10 + u64::from(*digit - b'0');
    }
    value
}

/// The number that a word says, where it is in its range.
pub fn number(word: &[u8], least: u64, most: u64) -> Option<u64>
    ensures value { result ≡ number_of least most word.now }
    ensures within { IfSome result (λ number. number ≤ most) }
{
    if !is_decimal(word) {
        return None;
    }
    if word.len() <= FEW_DIGITS {
        return within(value_of_few(word), least, most);
    }
    let Ok(digits) = str::from_utf8(word) else {
        return None;
    };
    match digits.parse::<u64>() {
        Ok(number) => within(number, least, most),
        Err(_) => None,
    }
}

/// The number that one to three digits say, the first of several not 0.
fn short_number(word: &[u8]) -> Option<u16>
    ensures { result ≡ number_of 0 999 word.now }
{
    match *word {
        [ones @ b'0'..=b'9'] => Some(u16::from(ones - b'0')),
        [tens @ b'1'..=b'9', ones @ b'0'..=b'9'] => {
            Some(u16::from(tens - b'0') * 10 + u16::from(ones - b'0'))
        }
        [
            hundreds @ b'1'..=b'9',
            tens @ b'0'..=b'9',
            ones @ b'0'..=b'9',
        ] => Some(
            u16::from(hundreds - b'0') * 100 + u16::from(tens - b'0') * 10 + u16::from(ones - b'0'),
        ),
        _ => None,
    }
}

/// A number of at most three digits, where it is no greater than this.
fn number_up_to(word: &[u8], most: u16) -> Option<u16>
    requires { most ≤ 999 }
    ensures value { result ≡ number_of 0 most word.now }
    ensures within { IfSome result (λ number. number ≤ most) }
{
    let number = short_number(word)?;
    if number <= most { Some(number) } else { None }
}

/// The byte of two hexadecimal digits.
fn pair(text: &[u8]) -> Option<u8>
    ensures { result ≡ pair_of text.now }
{
    if text.len() != 2 || !text.iter().all(|byte| byte.is_ascii_hexdigit()) {
        return None;
    }
    let Ok(digits) = str::from_utf8(text) else {
        return None;
    };
    match u8::from_str_radix(digits, 16) {
        Ok(byte) => Some(byte),
        Err(_) => None,
    }
}

/// The link-layer address that a word says.
pub fn mac(word: &[u8]) -> Option<Mac>
    ensures { result ≡ mac_of word.now }
{
    let (first, rest) = split_at_first(word, b':');
    let (second, rest) = split_at_first(rest, b':');
    let (third, rest) = split_at_first(rest, b':');
    let (fourth, rest) = split_at_first(rest, b':');
    let (fifth, sixth) = split_at_first(rest, b':');
    Some(Mac([
        pair(first)?,
        pair(second)?,
        pair(third)?,
        pair(fourth)?,
        pair(fifth)?,
        pair(sixth)?,
    ]))
}

/// A byte in decimal digits.
fn byte(word: &[u8]) -> Option<u8>
    ensures { result ≡ number_of 0 255 word.now }
{
    let number = number_up_to(word, 255)?;
    Some(number as u8)
}

/// The digit that a text begins with, and what stands behind it.
fn digit_front(text: &[u8]) -> Option<(u16, &[u8])>
    ensures value { option_map (λ found. (found.0, found.1.now)) result ≡ digit_in_front text.now }
    ensures small { IfSome result (λ found. found.0 ≤ 9) }
{
    match text {
        [digit @ b'0'..=b'9', rest @ ..] => Some((u16::from(*digit - b'0'), rest)),
        _ => None,
    }
}

/// What stands behind the `.` that a text begins with.
fn behind_dot(text: &[u8]) -> Option<&[u8]>
    ensures { option_copied result ≡ behind_a_dot text.now }
{
    match text {
        [b'.', rest @ ..] => Some(rest),
        _ => None,
    }
}

/// The number of one to three digits in front of a `.`, the first of several not 0, and what stands behind that `.`.
fn number_before_dot(text: &[u8]) -> Option<(u16, &[u8])>
    ensures value { option_map (λ found. (found.0, found.1.now)) result ≡ number_in_front text.now }
    ensures small { IfSome result (λ found. found.0 ≤ 999) }
{
    let (first, rest) = digit_front(text)?;
    if let Some(behind) = behind_dot(rest) {
        return Some((first, behind));
    }
    if first == 0 {
        return None;
    }
    let (second, rest) = digit_front(rest)?;
    let number = first * 10 + second;
    if let Some(behind) = behind_dot(rest) {
        return Some((number, behind));
    }
    let (third, rest) = digit_front(rest)?;
    let behind = behind_dot(rest)?;
    Some((number * 10 + third, behind))
}

/// The byte that the digits before the first `.` say, and what stands behind that; `None` where they say none, or where no `.` stands.
fn byte_before_dot(text: &[u8]) -> Option<(u8, &[u8])>
    ensures { MatchOption result
        (after_first (λ byte. byte == 46) text.now ≢ [] → None ≡ number_of 0 255 (before_first (λ byte. byte == 46) text.now))
        (λ found. (Some found.0 ≡ number_of 0 255 (before_first (λ byte. byte == 46) text.now)) × (found.1.now ≡ after_first (λ byte. byte == 46) text.now)) }
{
    let (number, rest) = number_before_dot(text)?;
    if number <= 255 {
        Some((number as u8, rest))
    } else {
        None
    }
}

/// The address that a text says.
fn address(text: &[u8]) -> Option<u32>
    ensures { result ≡ address_of text.now }
{
    let (first, rest) = byte_before_dot(text)?;
    let (second, rest) = byte_before_dot(rest)?;
    let (third, rest) = byte_before_dot(rest)?;
    let fourth = byte(rest)?;
    Some(u32::from_be_bytes([first, second, third, fourth]))
}

/// The prefix that a word says.
pub fn prefix(word: &[u8]) -> Option<Prefix>
    ensures { result ≡ prefix_of word.now }
{
    let (addr, len) = split_at_first(word, b'/');
    let addr = address(addr)?;
    let len = number_up_to(len, 32)?;
    let step = 1u64 << (32 - len);
    if u64::from(addr) % step != 0 {
        return None;
    }
    Some(Prefix {
        addr,
        len: len as u8,
    })
}

/// The IPv6 prefix that a word says.
pub fn prefix6(word: &[u8]) -> Option<Prefix6>
    ensures { result ≡ prefix6_of word.now }
{
    let (addr, len) = split_at_first(word, b'/');
    let addr = address6(addr)?;
    let len = number_up_to(len, 128)?;
    if !has_no_host_bits(addr, len as u8) {
        return None;
    }
    Some(Prefix6 {
        addr,
        len: len as u8,
    })
}

/// Whether all bits of an IPv6 address behind so many are 0.
fn has_no_host_bits(addr: u128, len: u8) -> bool
    requires { len ≤ 128 }
    ensures { result ≡ (addr % 2 ^ (128 - len) == 0) }
{
    if len == 0 {
        addr == 0
    } else {
        addr % (1u128 << (128 - len)) == 0
    }
}

/// Whether the word is a text with a number behind it.
fn is_text_and_number(word: &[u8], text: &[u8], number: u16) -> bool
    ensures { result ≡ bytes_eq word.now (text.now ++ decimal number) }
{
    match word.strip_prefix(text) {
        Some(digits) => digits == Buffer::new().format(number).as_bytes(),
        None => false,
    }
}

/// Whether this is the kind's word.
fn is_word_for(word: &[u8], kind: Kind) -> bool
    ensures { result ≡ kind_word_is word.now kind }
{
    match kind.word() {
        Some(KindWord { text, number }) => match number {
            None => word == text.as_bytes(),
            Some(number) => is_text_and_number(word, text.as_bytes(), number),
        },
        None => false,
    }
}

/// The number behind a text, where it is in its range.
fn number_behind(word: &[u8], text: &str, least: u16, most: u16) -> Option<u16>
    ensures { result ≡ number_behind_text text.now least most word.now }
{
    let digits = word.strip_prefix(text.as_bytes())?;
    let number = number(digits, u64::from(least), u64::from(most))?;
    Some(number as u16)
}

/// The VLAN id behind a text.
fn vlan_behind(word: &[u8], text: &str) -> Option<VlanId>
    ensures { result ≡ vlan_behind_text text.now word.now }
{
    let number = number_behind(word, text, LEAST_VLAN, MOST_VLAN)?;
    Some(VlanId { number })
}

/// The kind with a number that a word says.
fn numbered_kind(word: &[u8]) -> Option<Kind>
    ensures { result ≡ numbered_kind_of word.now }
{
    if let Some(id) = vlan_behind(word, MATCH_TEXT) {
        return Some(Kind::Dot1qMatch(id));
    }
    if let Some(id) = vlan_behind(word, PUSH_TEXT) {
        return Some(Kind::Dot1qPush(id));
    }
    if let Some(id) = vlan_behind(word, REWRITE_TEXT) {
        return Some(Kind::Dot1qRewrite(id));
    }
    let interface = number_behind(word, CONNECT_TEXT, 0, MOST_INTERFACES as u16 - 1)?;
    Some(Kind::CrossConnect(interface as u8))
}

/// The kind without a number that a word says.
fn plain_kind(word: &[u8]) -> Option<Kind>
    ensures { result ≡ find (kind_word_is word.now) plain_kinds }
{
    Kind::PLAIN
        .iter()
        .find(|kind| is_word_for(word, **kind))
        .copied()
}

/// The kind that a word says.
pub fn kind(word: &[u8]) -> Option<Kind>
    ensures { result ≡ kind_of word.now }
{
    match plain_kind(word) {
        Some(kind) => Some(kind),
        None => numbered_kind(word),
    }
}
