//! The words of a drawing. Each function appends to one growing buffer; where memory runs out it stops.
ghost use Rattle.std.specs.Prelude.{◌≡◌, ◌<◌, ◌++◌, [], ◌∷◌, codes, decimal, length, map, OnOk, Some, slice_get};
ghost use Rattle.std.specs.Char.{digit_char};
ghost use Rattle.std.specs.List.{join_with_byte};
ghost use Rattle.vg_model.specs.Graph.{slots};
ghost use Rattle.vg_draw.specs.Drawing.{pair_text, mac_text, kind_word, id, count_text};

use itoa::Buffer;
use std::alloc::AllocError;
use vg_model::{Kind, KindWord, Mac};

/// Appends these bytes.
pub fn put(out: &mut Vec<u8>, bytes: &[u8]) -> Result<(), AllocError>
    ensures { OnOk result (out.new.items ≡ out.old.items ++ bytes.now) }
{
    out.extend_from_slice(bytes)
}

/// Appends the digits of a number.
pub fn put_decimal(out: &mut Vec<u8>, number: u64) -> Result<(), AllocError>
    ensures { OnOk result (out.new.items ≡ out.old.items ++ decimal number) }
{
    put(out, Buffer::new().format(number).as_bytes())
}

/// A hexadecimal digit.
pub fn hex_digit(value: u8) -> u8
    requires { value < 16 }
    ensures { result ≡ digit_char value }
{
    if value < 10 {
        b'0' + value
    } else {
        b'a' + (value - 10)
    }
}

/// Appends a byte as two hexadecimal digits.
pub fn put_pair(out: &mut Vec<u8>, byte: u8) -> Result<(), AllocError>
    ensures { OnOk result (out.new.items ≡ out.old.items ++ pair_text byte) }
{
    put(out, &[hex_digit(byte / 16), hex_digit(byte % 16)])
}

// Appends the pairs of these bytes, parted by `:`.
fn put_pairs(out: &mut Vec<u8>, bytes: &[u8]) -> Result<(), AllocError>
    ensures { OnOk result (out.new.items ≡ out.old.items ++ join_with_byte 58 (map pair_text bytes.now)) }
{
    let Some((first, others)) = bytes.split_first() else {
        return Ok(());
    };
    put_pair(out, *first)?;
    for byte in others {
        put(out, b":")?;
        put_pair(out, *byte)?;
    }
    Ok(())
}

/// Appends a link-layer address.
pub fn put_mac(out: &mut Vec<u8>, mac: Mac) -> Result<(), AllocError>
    ensures { OnOk result (out.new.items ≡ out.old.items ++ mac_text mac) }
{
    put_pairs(out, &mac.0)
}

/// Appends what a thing is named in the text: a letter and its number.
pub fn put_id(out: &mut Vec<u8>, letter: u8, number: u16) -> Result<(), AllocError>
    ensures { OnOk result (out.new.items ≡ out.old.items ++ id letter number) }
{
    put(out, &[letter])?;
    put_decimal(out, u64::from(number))
}

/// Appends a further line of a label: a word and its count.
pub fn put_count(out: &mut Vec<u8>, word: &[u8], count: u64) -> Result<(), AllocError>
    ensures { OnOk result (out.new.items ≡ out.old.items ++ count_text word.now count) }
{
    put(out, b"\\n")?;
    put(out, word)?;
    put(out, b" ")?;
    put_decimal(out, count)
}

/// Appends the name of a kind: a text, and the number behind it where the kind has one.
pub fn put_kind(out: &mut Vec<u8>, kind: Kind) -> Result<(), AllocError>
    ensures { OnOk result (out.new.items ≡ out.old.items ++ kind_word kind) }
{
    let KindWord { text, number } = kind.name();
    put(out, text.as_bytes())?;
    match number {
        Some(number) => put_decimal(out, u64::from(number)),
        None => Ok(()),
    }
}

/// The name of a slot of a kind.
pub fn slot_name(kind: Kind, slot: u8) -> &'static str
    requires { slot < length (slots kind) }
    ensures { slice_get (slots kind) slot ≡ Some result.now }
{
    kind.slot_names()[usize::from(slot)]
}
