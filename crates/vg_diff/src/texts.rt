//! The words of what is printed. Each function appends to one growing buffer; where memory runs out it stops.
ghost use Rattle.std.specs.Prelude.{◌≡◌, ◌<◌, ◌++◌, decimal, OnOk};
ghost use Rattle.std.specs.Char.{digit_char};
ghost use Rattle.vg_diff.specs.Texts.{pair_text, hex_text, line_begin, count_line};

use itoa::Buffer;
use std::alloc::AllocError;

/// Appends these bytes.
pub fn put(out: &mut Vec<u8>, bytes: &[u8]) -> Result<(), AllocError>
    ensures { OnOk result (out.new.items ≡ out.old.items ++ bytes.now) }
{
    out.extend_from_slice(bytes)
}

/// Appends the digits of a number.
pub fn put_decimal(out: &mut Vec<u8>, number: u64) -> Result<(), AllocError>
    ensures { OnOk result (out.new.items ≡ out.old.items ++ decimal number) }
{
    put(out, Buffer::new().format(number).as_bytes())
}

/// A hexadecimal digit.
pub fn hex_digit(value: u8) -> u8
    requires { value < 16 }
    ensures { result ≡ digit_char value }
{
    if value < 10 {
        b'0' + value
    } else {
        b'a' + (value - 10)
    }
}

/// Appends a byte as two hexadecimal digits.
pub fn put_pair(out: &mut Vec<u8>, byte: u8) -> Result<(), AllocError>
    ensures { OnOk result (out.new.items ≡ out.old.items ++ pair_text byte) }
{
    put(out, &[hex_digit(byte / 16), hex_digit(byte % 16)])
}

/// Appends bytes as hexadecimal digits, or `-` where there is none.
pub fn put_hex(out: &mut Vec<u8>, bytes: &[u8]) -> Result<(), AllocError>
    ensures { OnOk result (out.new.items ≡ out.old.items ++ hex_text bytes.now) }
{
    if bytes.is_empty() {
        return put(out, b"-");
    }
    for byte in bytes {
        put_pair(out, *byte)?;
    }
    Ok(())
}

/// Appends the beginning of a line: a word and a number, each with a space behind it.
pub fn put_begin(out: &mut Vec<u8>, word: &str, number: u64) -> Result<(), AllocError>
    ensures { OnOk result (out.new.items ≡ out.old.items ++ line_begin word.now number) }
{
    put(out, word.as_bytes())?;
    put(out, b" ")?;
    put_decimal(out, number)?;
    put(out, b" ")
}

/// Appends a line of a word and a number.
pub fn put_count(out: &mut Vec<u8>, word: &str, count: u64) -> Result<(), AllocError>
    ensures { OnOk result (out.new.items ≡ out.old.items ++ count_line word.now count) }
{
    put(out, word.as_bytes())?;
    put(out, b" ")?;
    put_decimal(out, count)?;
    put(out, b"\n")
}
