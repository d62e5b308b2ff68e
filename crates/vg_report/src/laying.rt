//! The lines of most packets, laid one behind the other into a list from which many are appended at once.
ghost use Rattle.std.specs.Prelude.{◌≡◌, ◌+◌, ◌*◌, ◌/◌, ◌%◌, ◌<◌, ◌≤◌, ◌^◌, ◌++◌, [], ◌∷◌, codes, decimal, length, map, take, IfSome};
ghost use Rattle.std.specs.Bool.{OnTrue};
ghost use Rattle.vg_fates.specs.Seen.{fate_seen};
ghost use Rattle.vg_report.specs.Text.{leg_text, sent_end as sent_end_of};
ghost use Rattle.vg_report.specs.Named.{IsNamed};
ghost use Rattle.vg_report.specs.Ready.{end_text, IsReady, IsShort};

use crate::lists::NamedFates;
use crate::pieces::{Piece, ROOM};
use itoa::Buffer;
use std::marker::Model;
use vg_fates::FateRef;
use vg_model::{DropError, End, Leg};

/// How many bytes a line is laid in at most: its front, the last two digits of its number with a leg, and its end.
pub(crate) const LINE_ROOM: usize = ROOM + 8 + ROOM;

// The digits of the numbers below 100, two for each.
static PAIRS: [u8; 200] =
    *b"00010203040506070809101112131415161718192021222324252627282930313233343536373839404142434445464748495051525354555657585960616263646566676869707172737475767778798081828384858687888990919293949596979899";

/// The front of a packet's line: `packet`, and the number of the packet. All digits but the last two stand ready, for a hundred packets.
#[derive(Drop)]
pub(crate) struct Front {
    hundred: usize,
    low: usize,
    text: Piece,
}

impl Model for Front {
    ghost use Rattle.std.specs.Prelude.{◌≡◌, ◌+◌, ◌*◌, ◌<◌, ◌++◌, ℕ, codes, decimal};

    ghost Value = { ℕ };

    ghost view = { λ f. f.hundred * 100 + f.low };

    ghost invariant = { λ f. (f.low < 100) × (f.text ≡ codes "packet " ++ decimal f.hundred) };
}

/// The end of the lines of packets that a node dropped with an error.
#[derive(Drop)]
pub(crate) struct DroppedEnd {
    pub node: u16,
    pub error: DropError,
    pub text: Piece,
}

/// What is laid of the line of a packet with one leg, of a worker below 10 and a generation below 1,000: the leg, and the text from the space behind
/// it on.
#[derive(Clone, Copy)]
pub(crate) struct Short<'a> {
    pub leg: Leg,
    pub end: &'a Piece,
}

impl Front {
    // The front of the line of the first packet of a hundred.
    fn of(hundred: usize) -> Front
        requires { hundred < 2 ^ 64 }
        ensures { result ≡ hundred * 100 }
    {
        let mut text = Piece::of(b"packet ");
        text.add(Buffer::new().format(hundred as u64).as_bytes());
        Front {
            hundred,
            low: 0,
            text,
        }
    }

    /// The front of the line of the first packet.
    pub(crate) fn first() -> Front
        ensures { result ≡ 0 }
    {
        Front::of(0)
    }

    /// Goes on to the next packet.
    #[inline]
    pub(crate) fn step(&mut self)
        requires { self.old < 2 ^ 64 }
        ensures { self.new ≡ self.old + 1 }
    {
        if self.low < 99 {
            self.low += 1;
        } else {
            self.renew(self.hundred + 1);
        }
    }

    #[cold]
    #[inline(never)]
    fn renew(&mut self, hundred: usize)
        requires { hundred < 2 ^ 64 }
        ensures { self.new ≡ hundred * 100 }
    {
        *self = Front::of(hundred);
    }

    // Whether the number has three digits or more.
    #[inline]
    fn is_high(&self) -> bool
        ensures { OnTrue result (100 ≤ self.now) }
    {
        self.hundred > 0
    }

    // Lays it into a list, from this place on, and answers where it ends.
    #[inline]
    fn lay(&self, list: &mut [u8], at: usize) -> usize
        requires room { at + 42 ≤ length list.old }
        requires number { (100 ≤ self.now) × (self.now < 2 ^ 64) }
        ensures end { result ≤ at + 42 }
        ensures laid { take result list.new ≡ take at list.old ++ (codes "packet " ++ decimal self.now) }
    {
        let end = self.text.lay(list, at);
        lay_digits(list, end, self.low)
    }
}

// Lays the two digits of a number below 100, and answers where they end.
#[inline]
fn lay_digits(list: &mut [u8], at: usize, number: usize) -> usize
    requires room { at + 2 ≤ length list.old }
    requires low { number < 100 }
    ensures end { result ≡ at + 2 }
    ensures laid { take result list.new ≡ take at list.old ++ ((48 + number / 10) ∷ (48 + number % 10) ∷ []) }
{
    list[at] = PAIRS[number * 2];
    list[at + 1] = PAIRS[number * 2 + 1];
    at + 2
}

// Lays a digit, and answers where it ends.
#[inline]
fn lay_digit(list: &mut [u8], at: usize, digit: u8) -> usize
    requires room { at < length list.old }
    requires low { digit < 10 }
    ensures end { result ≡ at + 1 }
    ensures laid { take result list.new ≡ take at list.old ++ (48 + digit) ∷ [] }
{
    list[at] = b'0' + digit;
    at + 1
}

// Lays a number below 1,000, and answers where it ends.
#[inline]
fn lay_number(list: &mut [u8], at: usize, number: usize) -> usize
    requires room { at + 3 ≤ length list.old }
    requires low { number < 1000 }
    ensures end { result ≤ at + 3 }
    ensures laid { take result list.new ≡ take at list.old ++ decimal number }
{
    if number < 10 {
        return lay_digit(list, at, number as u8);
    }
    if number < 100 {
        return lay_digits(list, at, number);
    }
    let tens = lay_digit(list, at, (number / 100) as u8);
    lay_digits(list, tens, number % 100)
}

// Lays a space, and a leg of a worker below 10 and a generation below 1,000. Answers where it ends.
#[inline]
fn lay_leg(list: &mut [u8], at: usize, leg: Leg) -> usize
    requires room { at + 6 ≤ length list.old }
    requires leg { (leg.worker < 10) × (leg.generation < 1000) }
    ensures end { result ≤ at + 6 }
    ensures laid { take result list.new ≡ take at list.old ++ 32 ∷ leg_text leg }
{
    list[at] = b' ';
    list[at + 1] = b'0' + leg.worker;
    list[at + 2] = b':';
    lay_number(list, at + 3, leg.generation as usize)
}

/// Lays the line of a packet: its front, its leg and its end. Answers where it ends.
#[inline]
pub(crate) fn lay_line(list: &mut [u8], at: usize, front: &Front, short: Short<'_>) -> usize
    requires room { at + 88 ≤ length list.old }
    requires number { (100 ≤ front.now) × (front.now < 2 ^ 64) }
    requires leg { (short.leg.worker < 10) × (short.leg.generation < 1000) }
    ensures end { result ≤ at + 88 }
    ensures laid { take result list.new ≡ take at list.old ++ ((codes "packet " ++ decimal front.now) ++ 32 ∷ (leg_text short.entry.leg ++ short.entry.end.now)) }
{
    let front_end = front.lay(list, at);
    let leg_end = lay_leg(list, front_end, short.leg);
    short.end.lay(list, leg_end)
}

// The end of a packet's line, where its text stands ready: by interface for packets that were transmitted, and for one way to be dropped.
#[inline]
fn ready_end<'a>(
    end: End,
    names: &NamedFates<'_>,
    sent: &'a [Piece],
    dropped: &'a Option<DroppedEnd>,
) -> Option<&'a Piece>
    requires named { IsNamed names.now.interfaces.now names.now.nodes.now end }
    requires sent { sent.now ≡ map sent_end_of names.now.interfaces.now }
    requires dropped { IfSome dropped.now (IsReady names.now.interfaces.now names.now.nodes.now) }
    ensures { IfSome result (λ text. text.now ≡ end_text names.now.interfaces.now names.now.nodes.now end) }
{
    match end {
        End::Tx { interface } => Some(&sent[usize::from(interface)]),
        End::Dropped { node, error } => match dropped {
            Some(ready) => {
                if ready.node == node && ready.error == error {
                    Some(&ready.text)
                } else {
                    None
                }
            }
            None => None,
        },
    }
}

/// What is laid of the line of a packet with this fate behind its front, where all of it stands ready.
#[inline]
pub(crate) fn short_of<'a>(
    front: &Front,
    fate: FateRef<'_>,
    names: &NamedFates<'_>,
    sent: &'a [Piece],
    dropped: &'a Option<DroppedEnd>,
) -> Option<Short<'a>>
    requires named { IsNamed names.now.interfaces.now names.now.nodes.now (fate_seen fate).end }
    requires sent { sent.now ≡ map sent_end_of names.now.interfaces.now }
    requires dropped { IfSome dropped.now (IsReady names.now.interfaces.now names.now.nodes.now) }
    ensures { IfSome result (λ short. IsShort names.now.interfaces.now names.now.nodes.now front.now (fate_seen fate.entry) short.leg short.end.now) }
{
    match fate {
        FateRef::Plain { leg, end, .. } => {
            if !front.is_high() || leg.worker >= 10 || leg.generation >= 1000 {
                return None;
            }
            match ready_end(end, names, sent, dropped) {
                Some(end) => Some(Short { leg, end }),
                None => None,
            }
        }
        FateRef::Other(_) => None,
    }
}
