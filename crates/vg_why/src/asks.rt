//! What the words of the command line ask for.
ghost use Rattle.std.specs.Prelude.{◌≡◌, ◌≤◌, ◌<◌, ◌&&◌, ◌==◌, ℕ, length, false, true, bytes_eq, nat_le, nat_lt, slice_index_or, slice_set, option_map, IfOk, IfSome};
ghost use Rattle.std.specs.List.{list_all};
ghost use Rattle.vg_model.specs.Errors.{error_word};
ghost use Rattle.vg_words.specs.Command.{is_decimal as is_decimal_word, is_plain as is_plain_text, number_of, texts};
ghost use Rattle.vg_why.specs.Asked as specs;

use crate::filters::Filter;
use crate::routes::route_of;
use std::alloc::{AllocError, Global};
use vg_model::{DropError, Name};

/// What is asked for.
#[derive(Drop)]
pub enum Asked<'a> {
    /// The ways of the packets of these numbers.
    Packets(Vec<u32>),
    /// The ways of all packets that pass a filter.
    All(Filter<'a>),
    /// How many packets went which way.
    Counts,
}

/// A call: what is asked for, and the names of the files.
#[derive(Drop)]
pub struct Ask<'a> {
    pub asked: Asked<'a>,
    pub capture: &'a str,
    pub script: &'a str,
    pub report: &'a str,
}

/// The greatest number of a packet.
const LAST_PACKET: u64 = 65_535;

// Whether the word may be a name: it isn't empty, and begins with no `-`.
pub(crate) fn is_plain(word: &str) -> bool
    ensures { result ≡ is_plain_text word.now }
{
    match word.as_bytes() {
        [] => false,
        [first, ..] => *first != b'-',
    }
}

// Whether the word is decimal digits, the first of several not 0.
fn is_decimal(word: &[u8]) -> bool
    ensures { result ≡ is_decimal_word word.now }
{
    if word.is_empty() || !word.iter().all(|byte| byte.is_ascii_digit()) {
        return false;
    }
    word.len() == 1 || word[0] != b'0'
}

// The number of a packet that a word says, as it is read.
fn number_in(word: &str) -> Option<u64>
    ensures value { result ≡ number_of 0 65535 word.now }
    ensures within { IfSome result (λ number. number ≤ 65535) }
{
    if !is_decimal(word.as_bytes()) {
        return None;
    }
    match word.parse::<u64>() {
        Ok(number) if number <= LAST_PACKET => Some(number),
        _ => None,
    }
}

// The number of a packet that a word says.
pub(crate) fn packet_number(word: &str) -> Option<u32>
    ensures { result ≡ specs.packet_number word.now }
{
    match number_in(word) {
        Some(number) => Some(number as u32),
        None => None,
    }
}

// Whether a word says this error.
fn says(word: &[u8], error: DropError) -> bool
    ensures { result ≡ bytes_eq word.now (error_word error) }
{
    word == error.word().as_bytes()
}

// The error that a word says.
pub(crate) fn error_named(word: &[u8]) -> Option<DropError>
    ensures { result ≡ specs.error_named word.now }
{
    DropError::ALL
        .iter()
        .find(|error| says(word, **error))
        .copied()
}

// A name that a script may give, where a word is one.
pub(crate) fn name_of<'a>(word: &'a str) -> Option<&'a str>
    ensures { option_map (λ name. name.now) result ≡ specs.name_of word.entry.now }
{
    match Name::of(word.as_bytes()) {
        Some(_) => Some(word),
        None => None,
    }
}

// The three files, where there are these names and no others.
fn files<'a>(asked: Asked<'a>, names: &[&'a str]) -> Option<Ask<'a>>
    ensures { option_map specs.ask_shown result ≡ specs.files_of (specs.asked_shown asked.entry) (texts names.now) }
{
    let [capture, script, report] = names else {
        return None;
    };
    if !is_plain(capture) || !is_plain(script) || !is_plain(report) {
        return None;
    }
    Some(Ask {
        asked,
        capture,
        script,
        report,
    })
}

// The filter with one more condition, which isn't on routes: a word, and its value.
fn with_other<'a>(filter: Filter<'a>, word: &str, value: &'a str) -> Option<Filter<'a>>
    ensures { option_map specs.filter_shown result ≡ specs.with_other (specs.filter_shown filter.entry) word.now value.entry.now }
{
    if word == "--drop" {
        let error = error_named(value.as_bytes())?;
        return Some(Filter {
            drop: Some(error),
            ..filter
        });
    }
    if word == "--via" {
        let name = name_of(value)?;
        return Some(Filter {
            via: Some(name),
            ..filter
        });
    }
    if word == "--node" {
        let name = name_of(value)?;
        return Some(Filter {
            node: Some(name),
            ..filter
        });
    }
    if word == "--from" {
        let from = packet_number(value)?;
        return Some(Filter { from, ..filter });
    }
    if word == "--to" {
        let to = packet_number(value)?;
        return Some(Filter { to, ..filter });
    }
    None
}

// The filter with the condition on routes.
fn with_route<'a>(
    alloc: Global,
    filter: Filter<'a>,
    value: &str,
) -> Result<Option<Filter<'a>>, AllocError>
    ensures { IfOk result (λ with. option_map specs.filter_shown with ≡ specs.with_route (specs.filter_shown filter.entry) value.now) }
{
    match route_of(alloc, value)? {
        Some(route) => Ok(Some(Filter {
            route: Some(route),
            ..filter
        })),
        None => Ok(None),
    }
}

// The filter with one more condition.
fn with_condition<'a>(
    alloc: Global,
    filter: Filter<'a>,
    word: &str,
    value: &'a str,
) -> Result<Option<Filter<'a>>, AllocError>
    ensures { IfOk result (λ with. option_map specs.filter_shown with ≡ specs.with_condition (specs.filter_shown filter.entry) word.now value.entry.now) }
{
    if word == "--route" {
        return with_route(alloc, filter, value);
    }
    Ok(with_other(filter, word, value))
}

// A filter that all packets pass.
fn no_filter<'a>() -> Filter<'a>
    ensures { specs.filter_shown result ≡ specs.no_filter }
{
    Filter {
        drop: None,
        via: None,
        route: None,
        node: None,
        from: 0,
        to: LAST_PACKET as u32,
    }
}

// The words behind `--all`, with these conditions so far: conditions, each a word and its value, and then the files.
fn all_from<'a>(
    alloc: Global,
    filter: Filter<'a>,
    words: &[&'a str],
) -> Result<Option<Ask<'a>>, AllocError>
    ensures { IfOk result (λ ask. option_map specs.ask_shown ask ≡ specs.all_from (specs.filter_shown filter.entry) (texts words.now)) }
{
    if words.len() <= 3 {
        return Ok(files(Asked::All(filter), words));
    }
    match with_condition(alloc, filter, words[0], words[1])? {
        Some(filter) => all_from(alloc, filter, &words[2..]),
        None => Ok(None),
    }
}

// The numbers of packets that words say.
fn numbers<'a>(alloc: Global, words: &[&'a str]) -> Result<Option<Vec<u32>>, AllocError>
    ensures { IfOk result (λ numbers. option_map (λ numbers. numbers.items) numbers ≡ specs.numbers_of (texts words.now)) }
{
    let mut numbers = Vec::new(alloc);
    for word in words {
        match packet_number(word) {
            Some(number) => numbers.push(number)?,
            None => return Ok(None),
        }
    }
    Ok(Some(numbers))
}

// The words without an option: the files, and then numbers.
fn packets_asked<'a>(alloc: Global, words: &[&'a str]) -> Result<Option<Ask<'a>>, AllocError>
    ensures { IfOk result (λ ask. option_map specs.ask_shown ask ≡ specs.packets_of (texts words.now)) }
{
    if words.len() < 4 {
        return Ok(None);
    }
    let (names, others) = words.split_at(3);
    match numbers(alloc, others)? {
        Some(numbers) => Ok(files(Asked::Packets(numbers), names)),
        None => Ok(None),
    }
}

/// What the words ask for; `None` where they ask for nothing that there is.
///
/// # Errors
///
/// [`AllocError`] where memory runs out.
pub fn asks_for<'a>(alloc: Global, words: &[&'a str]) -> Result<Option<Ask<'a>>, AllocError>
    ensures { IfOk result (λ ask. option_map specs.ask_shown ask ≡ specs.asked (texts words.now)) }
{
    let Some((first, others)) = words.split_first() else {
        return Ok(None);
    };
    if *first == "--counts" {
        return Ok(files(Asked::Counts, others));
    }
    if *first == "--all" {
        return all_from(alloc, no_filter(), others);
    }
    packets_asked(alloc, words)
}

// Marks the packet of a number, where there is one.
fn mark(marks: &mut [bool], number: u32)
    ensures { marks.new ≡ slice_set marks.old number true }
{
    let place = number as usize;
    if place < marks.len() {
        marks[place] = true;
    }
}

// Of each of so many packets whether its number is among these.
fn marked(alloc: Global, numbers: &[u32], count: usize) -> Result<Vec<bool>, AllocError>
    ensures { IfOk result (λ marks. specs.AreMarks (specs.Packets numbers.now) count marks.items) }
{
    let mut marks = vec![in alloc; false; count]?;
    for number in numbers {
        mark(marks.as_mut_slice(), *number);
    }
    Ok(marks)
}

// Whether a number is in the range of a filter.
fn is_between(filter: &Filter<'_>, number: usize) -> bool
    ensures { result ≡ (nat_le filter.now.from number && nat_le number filter.now.to) }
{
    filter.from as usize <= number && number <= filter.to as usize
}

// Of each of so many packets whether its number is in the range of a filter.
fn marked_between(alloc: Global, filter: &Filter<'_>, count: usize) -> Result<Vec<bool>, AllocError>
    ensures { IfOk result (λ marks. specs.AreMarks (specs.All (specs.filter_shown filter.now)) count marks.items) }
{
    let mut marks = Vec::new(alloc);
    for number in 0..count {
        marks.push(is_between(filter, number))?;
    }
    Ok(marks)
}

// Whether these numbers are below so many.
fn all_below(numbers: &[u32], count: u32) -> bool
    ensures { result ≡ list_all (λ n. nat_lt n count) numbers.now }
{
    numbers.iter().all(|number| *number < count)
}

impl Asked<'_> {
    // Of each of so many packets whether it is asked for, whatever became of it.
    pub(crate) fn marks(&self, alloc: Global, count: usize) -> Result<Vec<bool>, AllocError>
        ensures { IfOk result (λ marks. specs.AreMarks (specs.asked_shown self.now) count marks.items) }
    {
        match self {
            Asked::Packets(numbers) => marked(alloc, numbers.as_slice(), count),
            Asked::All(filter) => marked_between(alloc, filter, count),
            Asked::Counts => vec![in alloc; false; count],
        }
    }

    // Whether the numbers that are asked for are below so many.
    pub(crate) fn are_below(&self, count: u32) -> bool
        ensures { result ≡ specs.are_below (specs.asked_shown self.now) count }
    {
        match self {
            Asked::Packets(numbers) => all_below(numbers.as_slice(), count),
            Asked::All(_) | Asked::Counts => true,
        }
    }
}
