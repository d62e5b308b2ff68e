//! Addresses and prefixes as text. Each function appends to one growing buffer; where memory runs out it stops.
ghost use Rattle.std.specs.Prelude.{◌≡◌, ◌/◌, ◌%◌, ◌++◌, decimal, map, OnOk};
ghost use Rattle.std.specs.List.{join_with_byte};
ghost use Rattle.vg_script.specs.Address6.{address_groups as groups_of_address};
ghost use Rattle.vg_script.specs.Plain.{pair_text, mac_text, address_text, prefix_text, group_text, prefix6_text};

use crate::texts::{hex_digit, put, put_decimal, put_pair};
use std::alloc::AllocError;
use vg_model::{Mac, Prefix, Prefix6};

// Appends the pairs of these bytes, parted by `:`.
fn put_pairs(out: &mut Vec<u8>, bytes: &[u8]) -> Result<(), AllocError>
    ensures { OnOk result (out.new.items ≡ out.old.items ++ join_with_byte 58 (map pair_text bytes.now)) }
{
    let Some((first, others)) = bytes.split_first() else {
        return Ok(());
    };
    put_pair(out, *first)?;
    for byte in others {
        put(out, b":")?;
        put_pair(out, *byte)?;
    }
    Ok(())
}

/// Appends a link-layer address.
pub fn put_mac(out: &mut Vec<u8>, mac: Mac) -> Result<(), AllocError>
    ensures { OnOk result (out.new.items ≡ out.old.items ++ mac_text mac) }
{
    put_pairs(out, &mac.0)
}

// Appends these numbers, parted by `.`.
fn put_parts(out: &mut Vec<u8>, numbers: &[u8]) -> Result<(), AllocError>
    ensures { OnOk result (out.new.items ≡ out.old.items ++ join_with_byte 46 (map decimal numbers.now)) }
{
    let Some((first, others)) = numbers.split_first() else {
        return Ok(());
    };
    put_decimal(out, u64::from(*first))?;
    for number in others {
        put(out, b".")?;
        put_decimal(out, u64::from(*number))?;
    }
    Ok(())
}

/// Appends an IPv4 address.
pub fn put_address(out: &mut Vec<u8>, address: u32) -> Result<(), AllocError>
    ensures { OnOk result (out.new.items ≡ out.old.items ++ address_text address) }
{
    put_parts(out, &address.to_be_bytes())
}

/// Appends an IPv4 prefix.
pub fn put_prefix(out: &mut Vec<u8>, prefix: Prefix) -> Result<(), AllocError>
    ensures { OnOk result (out.new.items ≡ out.old.items ++ prefix_text prefix) }
{
    put_address(out, prefix.addr)?;
    put(out, b"/")?;
    put_decimal(out, u64::from(prefix.len))
}

/// Appends a group of an IPv6 address, without zeros in front.
pub fn put_group(out: &mut Vec<u8>, group: u16) -> Result<(), AllocError>
    ensures { OnOk result (out.new.items ≡ out.old.items ++ group_text group) }
{
    let high = (group / 256) as u8;
    let low = (group % 256) as u8;
    if group < 16 {
        return put(out, &[hex_digit(low)]);
    }
    if group >= 4096 {
        put_pair(out, high)?;
    } else if group >= 256 {
        put(out, &[hex_digit(high)])?;
    }
    put_pair(out, low)
}

// Appends groups, parted by `:`.
fn put_groups(out: &mut Vec<u8>, groups: &[u16]) -> Result<(), AllocError>
    ensures { OnOk result (out.new.items ≡ out.old.items ++ join_with_byte 58 (map group_text groups.now)) }
{
    let Some((first, others)) = groups.split_first() else {
        return Ok(());
    };
    put_group(out, *first)?;
    for group in others {
        put(out, b":")?;
        put_group(out, *group)?;
    }
    Ok(())
}

// The last group of an address, and what stands before it.
fn split_group(address: u128) -> (u128, u16)
    ensures others { result.0 ≡ address / 65536 }
    ensures last { result.1 ≡ address % 65536 }
{
    (address / 65_536, (address % 65_536) as u16)
}

// The eight groups of an address, the highest first.
fn address_groups(address: u128) -> [u16; 8]
    ensures { result ≡ groups_of_address address }
{
    let (rest, eighth) = split_group(address);
    let (rest, seventh) = split_group(rest);
    let (rest, sixth) = split_group(rest);
    let (rest, fifth) = split_group(rest);
    let (rest, fourth) = split_group(rest);
    let (rest, third) = split_group(rest);
    let (rest, second) = split_group(rest);
    let (_, first) = split_group(rest);
    [first, second, third, fourth, fifth, sixth, seventh, eighth]
}

/// Appends an IPv6 prefix, all eight groups of its address.
pub fn put_prefix6(out: &mut Vec<u8>, prefix: Prefix6) -> Result<(), AllocError>
    ensures { OnOk result (out.new.items ≡ out.old.items ++ prefix6_text prefix) }
{
    put_groups(out, &address_groups(prefix.addr))?;
    put(out, b"/")?;
    put_decimal(out, u64::from(prefix.len))
}
