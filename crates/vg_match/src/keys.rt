//! What frames are compared by.
ghost use Rattle.std.specs.Prelude.{◌≡◌, ◌++◌, IfOk, OnOk, IsTrue};
ghost use Rattle.vg_match.specs.Frames.{IsSmall, layout_of as layout_in};
ghost use Rattle.vg_match.specs.Keys.{compared as compared_bytes, kept as kept_at, cut as cut_of, from as bytes_from, joined, has_parts};
ghost use Rattle.vg_match.specs.Keys.{parts_of as parts_alike, other_parts as parts_alike_of_others, ports_span as span_of_ports, identification_span as span_of_identification};

use crate::fields::{Field, Span, is_among};
use crate::frames::{Carried, Layout, front, layout_of};
use std::alloc::{AllocError, Global};
use vg_model::Bytes;

/// What two frames are alike by.
#[derive(Clone, Copy, Debug, PartialEq, Eq)]
pub enum Likeness {
    /// Addresses, protocol, identification and payload of the datagram; of a frame of another type all behind its addresses.
    Datagram,
    /// Addresses and payload of the datagram; of a frame of another type all behind its addresses.
    Payload,
    /// Addresses, protocol and ports; of a frame of another type its addresses and its type.
    Flow,
}

/// The parts of a frame by which it is like another.
#[derive(Clone, Copy, Debug)]
pub struct Parts {
    /// 4, 6, or 0 where the frame carries neither IPv4 nor IPv6.
    pub version: u8,
    /// Three spans of the frame.
    pub first: Span,
    pub second: Span,
    pub third: Span,
    /// All from this place on, where there is one.
    pub rest: Option<usize>,
}

// A byte at a place, or 0 where the place is in a field that is ignored.
fn kept(ignored: &[Field], layout: &Layout, place: usize, byte: u8) -> u8
    requires { IsSmall layout.now }
    ensures { result ≡ kept_at ignored.now layout.now place byte }
{
    if is_among(ignored, layout, place) {
        0
    } else {
        byte
    }
}

/// What a frame is compared by: its bytes up to the end of the IP datagram, with 0 in place of each byte of a field that is ignored.
///
/// # Errors
///
/// [`AllocError`] where memory runs out.
#[tactic(auto, using(crate::proofs::MaskLemmas::masked_more))]
pub fn compared(alloc: Global, frame: &[u8], ignored: &[Field]) -> Result<Bytes, AllocError>
    ensures { IfOk result (λ bytes. bytes ≡ compared_bytes ignored.now frame.now) }
{
    let layout = layout_of(frame);
    let front = front(frame);
    let mut out = Vec::with_capacity(alloc, front.len())?;
    for (place, byte) in front.iter().enumerate() {
        out.push(kept(ignored, &layout, place, *byte))?;
    }
    Ok(Bytes::from_vec(out))
}

/// The bytes of a span, as far as there are such.
pub fn cut(bytes: &[u8], span: Span) -> &[u8]
    ensures { result.now ≡ cut_of bytes.now span }
{
    let behind = &bytes[span.at.min(bytes.len())..];
    &behind[..span.len.min(behind.len())]
}

// The bytes from a place on, where there is one.
fn from(bytes: &[u8], place: Option<usize>) -> &[u8]
    ensures { result.now ≡ bytes_from bytes.now place }
{
    match place {
        Some(at) => &bytes[at.min(bytes.len())..],
        None => &[],
    }
}

const NO_SPAN: Span = Span { at: 0, len: 0 };

// The span of the ports, where there are such.
fn ports_span(ports_at: Option<usize>) -> Span
    ensures { result ≡ span_of_ports ports_at }
{
    match ports_at {
        Some(at) => Span { at, len: 4 },
        None => NO_SPAN,
    }
}

// So many bytes from a place on.
fn span(at: usize, len: usize) -> Span
    ensures { result ≡ record { at = at; len = len } }
{
    Span { at, len }
}

// The span of the identification, which IPv4 alone has.
fn identification_span(layout: &Layout) -> Span
    requires { IsSmall layout.now }
    ensures { result ≡ span_of_identification layout.now.carried layout.now.at }
{
    match layout.carried {
        Carried::Ip4 => span(layout.at + 4, 2),
        _ => NO_SPAN,
    }
}

// The parts by which a frame that carries no IP datagram is like another.
fn other_parts(likeness: Likeness) -> Parts
    ensures { result ≡ parts_alike_of_others likeness }
{
    let (first, rest) = match likeness {
        Likeness::Flow => (span(0, 14), None),
        _ => (NO_SPAN, Some(12)),
    };
    Parts {
        version: 0,
        first,
        second: NO_SPAN,
        third: NO_SPAN,
        rest,
    }
}

// The parts by which a frame of this layout is like another.
fn parts_of(likeness: Likeness, layout: &Layout) -> Parts
    requires { IsSmall layout.now }
    ensures { result ≡ parts_alike likeness layout.now }
{
    let (version, addresses, protocol) = match layout.carried {
        Carried::Ip4 => (4, span(layout.at + 12, 8), span(layout.at + 9, 1)),
        Carried::Ip6 => (6, span(layout.at + 8, 32), span(layout.at + 6, 1)),
        Carried::Other => return other_parts(likeness),
    };
    match likeness {
        Likeness::Datagram => Parts {
            version,
            first: addresses,
            second: protocol,
            third: identification_span(layout),
            rest: Some(layout.payload_at),
        },
        Likeness::Payload => Parts {
            version,
            first: addresses,
            second: NO_SPAN,
            third: NO_SPAN,
            rest: Some(layout.payload_at),
        },
        Likeness::Flow => Parts {
            version,
            first: addresses,
            second: protocol,
            third: ports_span(layout.ports_at),
            rest: None,
        },
    }
}

// Room for the bytes of all parts, the rest among them, so that they are taken at once.
fn room_for(parts: &Parts, rest: &[u8]) -> usize {
    let spans = parts
        .first
        .len
        .saturating_add(parts.second.len)
        .saturating_add(parts.third.len);
    spans.saturating_add(rest.len()).saturating_add(1)
}

/// Appends what a frame is alike by, of the bytes that it is compared by.
///
/// # Errors
///
/// [`AllocError`] where memory runs out.
pub fn put_likeness(
    out: &mut Vec<u8>,
    likeness: Likeness,
    frame: &[u8],
    key: &[u8],
) -> Result<(), AllocError>
    ensures { OnOk result (out.new.items ≡ out.old.items ++ joined (parts_alike likeness (layout_in frame.now)) key.now) }
{
    let parts = parts_of(likeness, &layout_of(frame));
    let rest = from(key, parts.rest);
    out.reserve_exact(room_for(&parts, rest))?;
    out.push(parts.version)?;
    out.extend_from_slice(cut(key, parts.first))?;
    out.extend_from_slice(cut(key, parts.second))?;
    out.extend_from_slice(cut(key, parts.third))?;
    out.extend_from_slice(rest)?;
    Ok(())
}

/// What a frame is alike by, of the bytes that it is compared by.
///
/// # Errors
///
/// [`AllocError`] where memory runs out.
pub fn likeness_of(
    alloc: Global,
    likeness: Likeness,
    frame: &[u8],
    key: &[u8],
) -> Result<Bytes, AllocError>
    ensures { IfOk result (λ bytes. bytes ≡ joined (parts_alike likeness (layout_in frame.now)) key.now) }
{
    let mut out = Vec::new(alloc);
    put_likeness(&mut out, likeness, frame, key)?;
    Ok(Bytes::from_vec(out))
}

/// Whether two frames are the same in each part by which they may be alike; where they are, they are alike. Nothing is copied.
pub fn have_same_parts(likeness: Likeness, one: &[u8], other: &[u8]) -> bool
    ensures value { result ≡ has_parts (parts_alike likeness (layout_in one.now)) one.now (parts_alike likeness (layout_in other.now)) other.now }
    ensures alike { IsTrue result → joined (parts_alike likeness (layout_in one.now)) one.now ≡ joined (parts_alike likeness (layout_in other.now)) other.now }
{
    let mine = parts_of(likeness, &layout_of(one));
    let theirs = parts_of(likeness, &layout_of(other));
    mine.version == theirs.version
        && cut(one, mine.first) == cut(other, theirs.first)
        && cut(one, mine.second) == cut(other, theirs.second)
        && cut(one, mine.third) == cut(other, theirs.third)
        && from(one, mine.rest) == from(other, theirs.rest)
}
