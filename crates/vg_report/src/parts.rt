//! Texts that are cut at a byte.
ghost use Rattle.std.specs.Prelude.{◌≡◌, ◌==◌, [], ◌∷◌, MatchOption, IsTrue, ◌↔◌};
ghost use Rattle.std.specs.List.{slice_split};
ghost use Rattle.vg_report.specs.Parts.{IsCut};

use memchr::memchr;
use std::marker::Model;

/// What stands before the first such byte, and what stands behind it; `None` where there is none.
pub fn cut_at_first(text: &[u8], mark: u8) -> Option<(&[u8], &[u8])>
    ensures { MatchOption result (IsCut mark text.now None) (λ cut. IsCut mark text.now (Some (cut.0.now, cut.1.now))) }
{
    match memchr(mark, text) {
        Some(place) => Some((&text[..place], &text[place + 1..])),
        None => None,
    }
}

/// The same of a text whose byte mostly stands near: it looks at one byte after the other.
pub fn cut_at_near(text: &[u8], mark: u8) -> Option<(&[u8], &[u8])>
    ensures { MatchOption result (IsCut mark text.now None) (λ cut. IsCut mark text.now (Some (cut.0.now, cut.1.now))) }
{
    for (place, byte) in text.iter().enumerate() {
        if *byte == mark {
            return Some((&text[..place], &text[place + 1..]));
        }
    }
    None
}

/// The parts of a text between the bytes of one value, one after the other.
#[derive(Drop)]
pub struct Parts<'a> {
    rest: Option<&'a [u8]>,
    mark: u8,
}

impl<'a> Model for Parts<'a> {
    ghost use Rattle.std.specs.Prelude.{List, ℕ};
    ghost use Rattle.std.specs.Option.{option_copied};
    ghost use Rattle.vg_report.specs.Parts.{parts_of};

    ghost Value = { List (List ℕ) };

    ghost view = { λ p. parts_of p.mark (option_copied p.rest) };
}

impl<'a> Parts<'a> {
    /// The parts of a text.
    pub fn of(text: &'a [u8], mark: u8) -> Parts<'a>
        ensures { result ≡ slice_split (λ byte. byte == mark) text.now }
    {
        Parts {
            rest: Some(text),
            mark,
        }
    }

    /// Whether no part is left.
    pub fn is_empty(&self) -> bool
        ensures { IsTrue result ↔ (self.now ≡ []) }
    {
        self.rest.is_none()
    }

    /// The next part; `None` behind the last one.
    pub fn next(&mut self) -> Option<&'a [u8]>
        ensures { MatchOption result ((self.old ≡ []) × (self.new ≡ [])) (λ part. self.old ≡ part.now ∷ self.new) }
    {
        let mark = self.mark;
        let text = self.rest?;
        match cut_at_near(text, mark) {
            Some((part, rest)) => {
                *self = Parts {
                    rest: Some(rest),
                    mark,
                };
                Some(part)
            }
            None => {
                *self = Parts { rest: None, mark };
                Some(text)
            }
        }
    }
}
