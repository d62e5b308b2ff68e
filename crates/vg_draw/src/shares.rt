//! What a line of a drawing carried: its count, and its width by the share of a run's packets. Each function appends to one growing buffer;
//! where memory runs out it stops.
ghost use Rattle.std.specs.Prelude.{◌≡◌, ◌++◌, OnOk};
ghost use Rattle.vg_draw.specs.Drawing.{width as width_of, grey_text, looks_text, share_text, behind_text, carrying, sent_text};

use crate::words::{put, put_decimal};
use std::alloc::AllocError;

// The width of a line that carried so many of a run's packets: 1 to 5, by their share.
fn width(packets: u64, count: u64) -> u64
    ensures { result ≡ width_of packets count }
{
    let share = u128::from(count.min(packets)) * 4 / u128::from(packets.max(1));
    1 + share as u64
}

/// Appends the color grey where nothing came.
pub fn put_grey(out: &mut Vec<u8>, nothing: bool) -> Result<(), AllocError>
    ensures { OnOk result (out.new.items ≡ out.old.items ++ grey_text nothing) }
{
    if nothing {
        put(out, b", color=grey, fontcolor=grey")
    } else {
        Ok(())
    }
}

// Appends the looks of a line by what it carried: grey for nothing, else as wide as its share.
fn put_looks(out: &mut Vec<u8>, packets: u64, count: u64) -> Result<(), AllocError>
    ensures { OnOk result (out.new.items ≡ out.old.items ++ looks_text packets count) }
{
    if count == 0 {
        return put_grey(out, true);
    }
    put(out, b", penwidth=")?;
    put_decimal(out, width(packets, count))
}

/// Appends the looks of a line by what it carried, where that is known.
pub fn put_share(out: &mut Vec<u8>, packets: u64, count: Option<u64>) -> Result<(), AllocError>
    ensures { OnOk result (out.new.items ≡ out.old.items ++ share_text packets count) }
{
    match count {
        None => Ok(()),
        Some(count) => put_looks(out, packets, count),
    }
}

// Appends a count behind a word, where there is one.
fn put_behind(out: &mut Vec<u8>, count: Option<u64>) -> Result<(), AllocError>
    ensures { OnOk result (out.new.items ≡ out.old.items ++ behind_text count) }
{
    match count {
        None => Ok(()),
        Some(count) => {
            put(out, b" ")?;
            put_decimal(out, count)
        }
    }
}

/// Appends the label of a line, its word and what it carried, and its looks.
pub fn put_carrying(
    out: &mut Vec<u8>,
    packets: u64,
    word: &[u8],
    count: Option<u64>,
) -> Result<(), AllocError>
    ensures { OnOk result (out.new.items ≡ out.old.items ++ carrying packets word.now count) }
{
    // A blank keeps the label off a wide line.
    put(out, b"label=\" ")?;
    put(out, word)?;
    put_behind(out, count)?;
    put(out, b"\"")?;
    put_share(out, packets, count)
}

/// Appends what was transmitted on an interface, as the label and the looks of the line to it.
pub fn put_sent(out: &mut Vec<u8>, packets: u64, count: Option<u64>) -> Result<(), AllocError>
    ensures { OnOk result (out.new.items ≡ out.old.items ++ sent_text packets count) }
{
    match count {
        None => Ok(()),
        Some(_) => {
            put(out, b", ")?;
            put_carrying(out, packets, b"tx", count)
        }
    }
}
