//! Bytes in hexadecimal digits.
ghost use Rattle.std.specs.Prelude.{◌≡◌, ◌<◌, IfOk, IfSome, IsTrue, None, OnOk, Some};
ghost use Rattle.vg_row.specs.Hex.{hex_read, is_digit as is_a_digit, left_over, with_digit, worth as worth_of};

use crate::rows::Cause;
use std::alloc::AllocError;

/// Whether a byte is a digit, in lower case.
fn is_digit(byte: u8) -> bool
    ensures { result ≡ is_a_digit byte }
{
    matches!(byte, b'0'..=b'9' | b'a'..=b'f')
}

/// What a digit is worth.
fn worth(byte: u8) -> u8
    requires { IsTrue (is_a_digit byte) }
    ensures value { result ≡ worth_of byte }
    ensures below { result < 16 }
{
    if byte <= b'9' { byte - b'0' } else { byte - 87 }
}

/// Takes a digit behind the first one of a byte, if that is known, and appends the byte. What is answered is the first digit of the next.
fn put_digit(out: &mut Vec<u8>, high: Option<u8>, digit: u8) -> Result<Option<u8>, AllocError>
    requires high { IfSome high (λ high. high < 16) }
    requires digit { digit < 16 }
    ensures left { IfOk result (λ left. left ≡ left_over high digit) }
    ensures below { IfOk result (λ left. IfSome left (λ high. high < 16)) }
    ensures items { OnOk result (out.new.items ≡ with_digit out.old.items high digit) }
{
    match high {
        None => Ok(Some(digit)),
        Some(high) => {
            out.push(high * 16 + digit)?;
            Ok(None)
        }
    }
}

/// Appends the bytes that pairs of digits say. Blanks may stand anywhere.
pub(crate) fn put_hex(out: &mut Vec<u8>, text: &str) -> Result<(), Cause>
    ensures { OnOk result (hex_read out.old.items None text.now ≡ Some out.new.items) }
{
    let mut rest = text.as_bytes();
    let mut high = None;
    while let [byte, others @ ..] = rest {
        if *byte != b' ' {
            if !is_digit(*byte) {
                return Err(Cause::Digits);
            }
            high = put_digit(out, high, worth(*byte))?;
        }
        rest = others;
    }
    if high.is_some() {
        return Err(Cause::Digits);
    }
    Ok(())
}
