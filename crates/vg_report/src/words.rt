//! The words of a line, and what they mean.
ghost use Rattle.std.specs.Prelude.{◌≡◌, ◌+◌, ◌-◌, ◌*◌, ◌^◌, ◌≤◌, ◌<◌, ◌==◌, ◌&&◌, ◌||◌, not, nat_lt, true, length, slice_index, IfSome, IfOk, MatchOption, MatchResult, [], ◌∷◌, bytes_eq, if◌then◌else◌};
ghost use Rattle.std.specs.Char.{is_ascii_digit};
ghost use Rattle.std.specs.List.{position_from};
ghost use Rattle.std.specs.Str.Parse.{digits_value};
ghost use Rattle.vg_model.specs.Errors.{error_word};
ghost use Rattle.vg_report.specs.Answers.{found};
ghost use Rattle.vg_report.specs.Forms.{a_word, fixed, a_number, a_running_number, a_new_name, a_declared_name, an_error, end_of_line, is_congestion as congestion, a_word_of};
ghost use Rattle.vg_report.specs.Lawful.{names, number_of};
ghost use Rattle.vg_report.specs.Kinds.{kind_of};
ghost use Rattle.vg_report.specs.Words.{is_decimal as is_decimal_word, number_within, number_below, leg_of, legs_of, error_of, name_of};

use crate::errors::ReportCause;
use crate::kinds::LineKind;
use crate::parts::{Parts, cut_at_near};
use vg_model::limits::MOST_LEGS;
use vg_model::{DropError, Leg, Legs, Name};

/// Whether the word isn't empty, and has no 0 in front of further bytes.
fn begins_as_decimal(word: &[u8]) -> bool
    ensures { result ≡ (nat_lt 0 (length word.now) && (length word.now == 1 || not (slice_index word.now 0 == 48))) }
{
    if word.is_empty() {
        return false;
    }
    word.len() == 1 || word[0] != b'0'
}

/// Whether the word is decimal digits, the first of several not 0.
fn is_decimal(word: &[u8]) -> bool
    ensures { result ≡ is_decimal_word word.now }
{
    if !word.iter().all(|byte| byte.is_ascii_digit()) {
        return false;
    }
    begins_as_decimal(word)
}

/// A number with one more digit behind it, where the byte is one and 64 bits are enough.
#[inline]
fn with_digit(number: u64, byte: u8) -> Option<u64>
    ensures { MatchOption result (is_ascii_digit byte ≡ true → 2 ^ 64 ≤ number * 10 + (byte - 48)) (λ more. (is_ascii_digit byte ≡ true) × (more ≡ number * 10 + (byte - 48))) }
{
    if !byte.is_ascii_digit() {
        return None;
    }
    let tens = number.checked_mul(10)?;
    let more = tens.checked_add((byte - b'0') as u64)?;
    Some(more)
}

/// The number that a word says, where 64 bits are enough for it.
fn value_of(word: &[u8]) -> Option<u64>
    ensures { MatchOption result (is_decimal_word word.now ≡ true → 2 ^ 64 ≤ digits_value 10 word.now) (λ number. (is_decimal_word word.now ≡ true) × (number ≡ digits_value 10 word.now)) }
{
    if !begins_as_decimal(word) {
        return None;
    }
    let mut number = 0;
    for byte in word {
        number = with_digit(number, *byte)?;
    }
    Some(number)
}

/// The number that a word says, where it is in its range.
fn number(word: &[u8], least: u64, most: u64) -> Option<u64>
    ensures value { result ≡ number_within least most word.now }
    ensures within { IfSome result (λ number. (least ≤ number) × (number ≤ most)) }
{
    let number = value_of(word)?;
    if least <= number && number <= most {
        return Some(number);
    }
    None
}

/// The number that a word says, where it is below the bound.
fn number_under(word: &[u8], bound: u64) -> Option<u64>
    ensures value { result ≡ number_below bound word.now }
    ensures within { IfSome result (λ number. number < bound) }
{
    if bound == 0 {
        return None;
    }
    number(word, 0, bound - 1)
}

/// Why a word that isn't the running number that is next can't stand there.
fn refused_number(word: &[u8]) -> ReportCause
    ensures { result ≡ (if is_decimal_word word.now then ReportCause.Order else ReportCause.Number) }
{
    if is_decimal(word) {
        ReportCause::Order
    } else {
        ReportCause::Number
    }
}

/// The leg that a text says.
fn leg(text: &[u8], workers: u8, generations: u32) -> Option<Leg>
    ensures { result ≡ leg_of workers generations text.now }
{
    let (worker, generation) = cut_at_near(text, b':')?;
    let worker = number_under(worker, u64::from(workers))?;
    let generation = number_under(generation, u64::from(generations))?;
    Some(Leg {
        worker: worker as u8,
        generation: generation as u32,
    })
}

/// The legs that a word says.
fn legs(word: &[u8], workers: u8, generations: u32) -> Option<Legs>
    ensures { result ≡ legs_of workers generations word.now }
{
    let mut legs = Legs::new();
    let mut texts = Parts::of(word, b',');
    while let Some(text) = texts.next() {
        if legs.as_slice().len() >= MOST_LEGS {
            return None;
        }
        legs.push(leg(text, workers, generations)?);
    }
    Some(legs)
}

/// Whether this is how the error is written.
fn is_word_for(word: &[u8], error: DropError) -> bool
    ensures { result ≡ bytes_eq word.now (error_word error) }
{
    word == error.word().as_bytes()
}

/// The error that a word names.
fn error(word: &[u8]) -> Option<DropError>
    ensures { result ≡ error_of word.now }
{
    DropError::ALL
        .iter()
        .find(|error| is_word_for(word, **error))
        .copied()
}

/// The place of the first of these that has the name.
fn position_of(entries: &[(Name, u64)], name: &[u8]) -> Option<usize>
    ensures value { result ≡ position_from (λ entry. bytes_eq entry.0 name.now) 0 entries.now }
    ensures within { IfSome result (λ place. place < length entries.now) }
{
    entries.iter().position(|entry| entry.0.bytes() == name)
}

/// The number of the name among the names of these.
pub fn place_of(entries: &[(Name, u64)], name: &[u8]) -> Option<usize>
    ensures value { result ≡ number_of (names entries.now) name.now }
    ensures within { IfSome result (λ place. place < length entries.now) }
{
    position_of(entries, name)
}

/// Whether it is the error of a full queue.
pub fn is_congestion(error: DropError) -> bool
    ensures { result ≡ congestion error }
{
    error.number() == DropError::Congestion.number()
}

impl<'a> Parts<'a> {
    /// Any word.
    pub fn word(&mut self) -> Result<&'a [u8], ReportCause>
        ensures { MatchResult result (λ word. a_word self.old ≡ Ok (word.now, self.new)) (λ cause. a_word self.old ≡ Err cause) }
    {
        match self.next() {
            Some(word) if !word.is_empty() => Ok(word),
            _ => Err(ReportCause::Form),
        }
    }

    /// This very word.
    pub fn fixed(&mut self, text: &str) -> Result<(), ReportCause>
        ensures { fixed text.now self.old ≡ found result self.new }
    {
        if self.word()? == text.as_bytes() {
            Ok(())
        } else {
            Err(ReportCause::Form)
        }
    }

    /// A number in its range.
    pub fn number(&mut self, least: u64, most: u64) -> Result<u64, ReportCause>
        ensures value { a_number least most self.old ≡ found result self.new }
        ensures within { IfOk result (λ number. (least ≤ number) × (number ≤ most)) }
    {
        number(self.word()?, least, most).ok_or(ReportCause::Number)
    }

    /// The running number that is next.
    pub fn running_number(&mut self, next: usize) -> Result<(), ReportCause>
        ensures { a_running_number next self.old ≡ found result self.new }
    {
        let word = self.word()?;
        match number(word, next as u64, next as u64) {
            Some(_) => Ok(()),
            None => Err(refused_number(word)),
        }
    }

    /// A name.
    fn name(&mut self) -> Result<Name, ReportCause>
        ensures { a_word_of name_of ReportCause.Unknown self.old ≡ found result self.new }
    {
        let word = self.word()?;
        Name::of(word).ok_or(ReportCause::Unknown)
    }

    /// A name that none of these has.
    pub fn new_name(&mut self, taken: &[(Name, u64)]) -> Result<Name, ReportCause>
        ensures { a_new_name (names taken.now) self.old ≡ found result self.new }
    {
        let name = self.name()?;
        match place_of(taken, name.bytes()) {
            Some(_) => Err(ReportCause::Unknown),
            None => Ok(name),
        }
    }

    /// A name that one of these has.
    pub fn declared_name(&mut self, declared: &[(Name, u64)]) -> Result<Name, ReportCause>
        ensures { a_declared_name (names declared.now) self.old ≡ found result self.new }
    {
        let word = self.word()?;
        match place_of(declared, word) {
            Some(place) => Ok(declared[place].0.copied()),
            None => Err(ReportCause::Unknown),
        }
    }

    /// The word for an error.
    pub fn error(&mut self) -> Result<DropError, ReportCause>
        ensures { an_error self.old ≡ found result self.new }
    {
        error(self.word()?).ok_or(ReportCause::Unknown)
    }

    /// The legs of a packet.
    pub fn legs(&mut self, workers: u8, generations: u32) -> Result<Legs, ReportCause>
        ensures { a_word_of (legs_of workers generations) ReportCause.Number self.old ≡ found result self.new }
    {
        legs(self.word()?, workers, generations).ok_or(ReportCause::Number)
    }

    /// The first word of a line behind the first five.
    pub fn kind(&mut self) -> Result<LineKind, ReportCause>
        ensures { a_word_of kind_of ReportCause.Form self.old ≡ found result self.new }
    {
        LineKind::of(self.word()?).ok_or(ReportCause::Form)
    }

    /// The end of the line.
    pub fn end(&mut self) -> Result<(), ReportCause>
        ensures { end_of_line self.old ≡ found result self.new }
    {
        match self.next() {
            None => Ok(()),
            Some(_) => Err(ReportCause::Form),
        }
    }
}
