//! Numbers and addresses as text. Each function appends to one growing buffer; where memory runs out it stops.
ghost use Rattle.std.specs.Prelude.{◌≡◌, ◌/◌, ◌%◌, ◌*◌, ◌+◌, ◌<◌, ◌++◌, [], ◌∷◌, decimal, map, OnOk};
ghost use Rattle.std.specs.Char.{digit_char};
ghost use Rattle.std.specs.List.{join_with_byte};
ghost use Rattle.vg_script.specs.Address6.{address_groups as groups_of_address};
ghost use Rattle.vg_script.specs.Plain.{pair_text, address_text, prefix_text, group_text, address6_text, prefix6_text};
ghost use Rattle.vg_story.specs.Text.{hex_text, link_text};

use itoa::Buffer;
use std::alloc::AllocError;
use vg_model::{Prefix, Prefix6};

/// Appends these bytes.
///
/// # Errors
///
/// [`AllocError`] where memory runs out, as for all that append.
pub fn put(out: &mut Vec<u8>, bytes: &[u8]) -> Result<(), AllocError>
    ensures { OnOk result (out.new.items ≡ out.old.items ++ bytes.now) }
{
    out.extend_from_slice(bytes)
}

/// Appends the digits of a number.
pub fn put_decimal(out: &mut Vec<u8>, number: u64) -> Result<(), AllocError>
    ensures { OnOk result (out.new.items ≡ out.old.items ++ decimal number) }
{
    put(out, Buffer::new().format(number).as_bytes())
}

fn hex_digit(value: u8) -> u8
    requires { value < 16 }
    ensures { result ≡ digit_char value }
{
    if value < 10 {
        b'0' + value
    } else {
        b'a' + (value - 10)
    }
}

// Appends a byte as two hexadecimal digits.
fn put_pair(out: &mut Vec<u8>, byte: u8) -> Result<(), AllocError>
    ensures { OnOk result (out.new.items ≡ out.old.items ++ pair_text byte) }
{
    put(out, &[hex_digit(byte / 16), hex_digit(byte % 16)])
}

// Appends a number as four hexadecimal digits.
pub(crate) fn put_hex(out: &mut Vec<u8>, number: u16) -> Result<(), AllocError>
    ensures { OnOk result (out.new.items ≡ out.old.items ++ hex_text number) }
{
    put(out, b"0x")?;
    put_pair(out, (number / 256) as u8)?;
    put_pair(out, (number % 256) as u8)
}

// Appends the pairs of these bytes, parted by `:`.
fn put_pairs(out: &mut Vec<u8>, bytes: &[u8]) -> Result<(), AllocError>
    ensures { OnOk result (out.new.items ≡ out.old.items ++ join_with_byte 58 (map pair_text bytes.now)) }
{
    let Some((first, others)) = bytes.split_first() else {
        return Ok(());
    };
    put_pair(out, *first)?;
    for byte in others {
        put(out, b":")?;
        put_pair(out, *byte)?;
    }
    Ok(())
}

// Appends a number of 48 bits as a link-layer address.
pub(crate) fn put_link(out: &mut Vec<u8>, number: u64) -> Result<(), AllocError>
    ensures { OnOk result (out.new.items ≡ out.old.items ++ link_text number) }
{
    let bytes = number.to_be_bytes();
    put_pairs(out, &bytes[2..])
}

// Appends these numbers, parted by `.`.
fn put_parts(out: &mut Vec<u8>, numbers: &[u8]) -> Result<(), AllocError>
    ensures { OnOk result (out.new.items ≡ out.old.items ++ join_with_byte 46 (map decimal numbers.now)) }
{
    let Some((first, others)) = numbers.split_first() else {
        return Ok(());
    };
    put_decimal(out, u64::from(*first))?;
    for number in others {
        put(out, b".")?;
        put_decimal(out, u64::from(*number))?;
    }
    Ok(())
}

// Appends an IPv4 address.
pub(crate) fn put_address(out: &mut Vec<u8>, address: u32) -> Result<(), AllocError>
    ensures { OnOk result (out.new.items ≡ out.old.items ++ address_text address) }
{
    put_parts(out, &address.to_be_bytes())
}

// Appends an IPv4 prefix.
pub(crate) fn put_prefix(out: &mut Vec<u8>, prefix: Prefix) -> Result<(), AllocError>
    ensures { OnOk result (out.new.items ≡ out.old.items ++ prefix_text prefix) }
{
    put_address(out, prefix.addr)?;
    put(out, b"/")?;
    put_decimal(out, u64::from(prefix.len))
}

// Appends a group of an IPv6 address, without zeros in front.
fn put_group(out: &mut Vec<u8>, group: u16) -> Result<(), AllocError>
    ensures { OnOk result (out.new.items ≡ out.old.items ++ group_text group) }
{
    let high = (group / 256) as u8;
    let low = (group % 256) as u8;
    if group < 16 {
        return put(out, &[hex_digit(low)]);
    }
    if group >= 4096 {
        put_pair(out, high)?;
    } else if group >= 256 {
        put(out, &[hex_digit(high)])?;
    }
    put_pair(out, low)
}

// Appends groups, parted by `:`.
fn put_groups(out: &mut Vec<u8>, groups: &[u16]) -> Result<(), AllocError>
    ensures { OnOk result (out.new.items ≡ out.old.items ++ join_with_byte 58 (map group_text groups.now)) }
{
    let Some((first, others)) = groups.split_first() else {
        return Ok(());
    };
    put_group(out, *first)?;
    for group in others {
        put(out, b":")?;
        put_group(out, *group)?;
    }
    Ok(())
}

// The last group of an address, and what stands before it.
fn split_group(address: u128) -> (u128, u16)
    ensures others { result.0 ≡ address / 65536 }
    ensures last { result.1 ≡ address % 65536 }
{
    (address / 65_536, (address % 65_536) as u16)
}

// The eight groups of an address, the highest first.
fn address_groups(address: u128) -> [u16; 8]
    ensures { result ≡ groups_of_address address }
{
    let (rest, eighth) = split_group(address);
    let (rest, seventh) = split_group(rest);
    let (rest, sixth) = split_group(rest);
    let (rest, fifth) = split_group(rest);
    let (rest, fourth) = split_group(rest);
    let (rest, third) = split_group(rest);
    let (rest, second) = split_group(rest);
    let (_, first) = split_group(rest);
    [first, second, third, fourth, fifth, sixth, seventh, eighth]
}

// Appends an IPv6 address, all eight groups of it.
pub(crate) fn put_address6(out: &mut Vec<u8>, address: u128) -> Result<(), AllocError>
    ensures { OnOk result (out.new.items ≡ out.old.items ++ address6_text address) }
{
    put_groups(out, &address_groups(address))
}

// Appends an IPv6 prefix.
pub(crate) fn put_prefix6(out: &mut Vec<u8>, prefix: Prefix6) -> Result<(), AllocError>
    ensures { OnOk result (out.new.items ≡ out.old.items ++ prefix6_text prefix) }
{
    put_address6(out, prefix.addr)?;
    put(out, b"/")?;
    put_decimal(out, u64::from(prefix.len))
}
