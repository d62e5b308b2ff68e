//! The words of a line, one after the other.
ghost use Rattle.std.specs.Prelude.{◌≡◌, ◌≤◌, IfOk, MatchOption, MatchResult, [], ◌∷◌, codes};
ghost use Rattle.std.specs.List.{before_first, after_first};
ghost use Rattle.vg_script.specs.Keywords.{found, Finds};
ghost use Rattle.vg_script.specs.Lines.{is_blank as blank};
ghost use Rattle.vg_script.specs.Statements.{a_name, some_names, a_mac, a_prefix, a_prefix6, a_kind, a_number, a_word, fixed, up_or_down, filter_or_nothing, a_target, end_of_line};

use crate::classes::{self, split_at};
use crate::errors::ScriptCause;
use std::alloc::Global;
use std::marker::Model;
use vg_model::{Kind, Mac, Name, Names, Prefix, Prefix6, RouteWord};

/// The words of a line that are still to be read.
#[derive(Drop)]
pub struct Words<'a>(&'a [u8]);

impl<'a> Model for Words<'a> {
    ghost use Rattle.std.specs.Prelude.{List, ℕ};
    ghost use Rattle.vg_script.specs.Lines.{words};

    ghost Value = { List (List ℕ) };

    ghost view = { λ w. words w.0.now };
}

/// Whether it is a space, a tab or a carriage return.
fn is_blank(byte: u8) -> bool
    ensures { result ≡ blank byte }
{
    byte == b' ' || byte == b'\t' || byte == b'\r'
}

/// What stands before the first blank, and what stands behind it: all and nothing where there is none.
fn split_at_blank(text: &[u8]) -> (&[u8], &[u8])
    ensures before { result.0.now ≡ before_first blank text.now }
    ensures after { result.1.now ≡ after_first blank text.now }
{
    split_at(text, text.iter().position(|byte| is_blank(*byte)))
}

impl<'a> Words<'a> {
    ghost use Rattle.vg_script.specs.Lines.{words};

    /// The words of a text.
    pub fn of(text: &'a [u8]) -> Words<'a>
        ensures { result ≡ words text.now }
    {
        Words(text)
    }

    /// The next word; `None` at the end of the line.
    pub fn next(&mut self) -> Option<&'a [u8]>
        ensures { MatchOption result ((self.old ≡ []) × (self.new ≡ [])) (λ word. self.old ≡ word.now ∷ self.new) }
    {
        while !self.0.is_empty() {
            let (word, rest) = split_at_blank(self.0);
            self.0 = rest;
            if !word.is_empty() {
                return Some(word);
            }
        }
        None
    }

    /// Any word.
    pub fn word(&mut self) -> Result<&'a [u8], ScriptCause>
        ensures { MatchResult result (λ word. a_word self.old ≡ Ok (word.now, self.new)) (λ cause. a_word self.old ≡ Err cause) }
    {
        self.next().ok_or(ScriptCause::Word)
    }

    /// A name.
    pub fn name(&mut self) -> Result<Name, ScriptCause>
        ensures { a_name self.old ≡ found result self.new }
    {
        let word = self.word()?;
        Name::of(word).ok_or(ScriptCause::Name)
    }

    /// Names.
    pub fn names(&mut self, alloc: Global) -> Result<Names, ScriptCause>
        ensures { Finds (some_names self.old) result self.new }
    {
        classes::names(alloc, self.word()?)
    }

    /// A link-layer address.
    pub fn mac(&mut self) -> Result<Mac, ScriptCause>
        ensures { a_mac self.old ≡ found result self.new }
    {
        classes::mac(self.word()?).ok_or(ScriptCause::Mac)
    }

    /// A prefix.
    pub fn prefix(&mut self) -> Result<Prefix, ScriptCause>
        ensures { a_prefix self.old ≡ found result self.new }
    {
        classes::prefix(self.word()?).ok_or(ScriptCause::Prefix)
    }

    /// An IPv6 prefix.
    pub fn prefix6(&mut self) -> Result<Prefix6, ScriptCause>
        ensures { a_prefix6 self.old ≡ found result self.new }
    {
        classes::prefix6(self.word()?).ok_or(ScriptCause::Prefix)
    }

    /// A kind of which scripts make nodes.
    pub fn kind(&mut self) -> Result<Kind, ScriptCause>
        ensures { a_kind self.old ≡ found result self.new }
    {
        classes::kind(self.word()?).ok_or(ScriptCause::Kind)
    }

    /// A number in its range.
    pub fn number(&mut self, least: u64, most: u64) -> Result<u64, ScriptCause>
        ensures value { a_number least most self.old ≡ found result self.new }
        ensures within { IfOk result (λ number. number ≤ most) }
    {
        classes::number(self.word()?, least, most).ok_or(ScriptCause::Number)
    }

    /// This very word.
    pub fn fixed(&mut self, text: &str) -> Result<(), ScriptCause>
        ensures { fixed text.now self.old ≡ found result self.new }
    {
        if self.word()? == text.as_bytes() {
            Ok(())
        } else {
            Err(ScriptCause::Word)
        }
    }

    /// `up` or `down`: whether it is `up`.
    pub fn up_or_down(&mut self) -> Result<bool, ScriptCause>
        ensures { up_or_down self.old ≡ found result self.new }
    {
        match self.word()? {
            b"up" => Ok(true),
            b"down" => Ok(false),
            _ => Err(ScriptCause::Word),
        }
    }

    /// `filter` or nothing: whether it is `filter`.
    pub fn filter_or_nothing(&mut self) -> Result<bool, ScriptCause>
        ensures { filter_or_nothing self.old ≡ found result self.new }
    {
        match self.next() {
            None => Ok(false),
            Some(b"filter") => Ok(true),
            Some(_) => Err(ScriptCause::Word),
        }
    }

    /// Where a route leads: `via` and the adjacencies' names, `local` or `drop`.
    pub fn target(&mut self, alloc: Global) -> Result<RouteWord, ScriptCause>
        ensures { Finds (a_target self.old) result self.new }
    {
        match self.word()? {
            b"via" => Ok(RouteWord::Via(self.names(alloc)?)),
            b"local" => Ok(RouteWord::Local),
            b"drop" => Ok(RouteWord::Drop),
            _ => Err(ScriptCause::Word),
        }
    }

    /// The end of the line.
    pub fn end(&mut self) -> Result<(), ScriptCause>
        ensures { end_of_line self.old ≡ found result self.new }
    {
        match self.next() {
            None => Ok(()),
            Some(_) => Err(ScriptCause::Word),
        }
    }
}
