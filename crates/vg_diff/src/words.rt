//! What the words of the command line ask for.
ghost use Rattle.std.specs.Prelude.{◌≡◌, ◌≤◌, true, length, drop, option_map, IfOk};
ghost use Rattle.std.specs.List.{list_all};
ghost use Rattle.vg_diff.specs.Asked as specs;
ghost use Rattle.vg_diff.specs.Asked.{is_plain as is_plain_text, begins_with_option as begins_with_option_text, texts, IsTaken};

use crate::answers::Manner;
use crate::prefixes::range_of;
use std::alloc::{AllocError, Global};
use vg_match::{Field, Range};

/// The most savefiles that are held against a run's: one for each port of a router.
pub const MOST_OTHERS: usize = 16;

/// What is compared, and how the answer is printed.
#[derive(Drop)]
pub struct Ask<'a> {
    /// How what differs is printed.
    pub manner: Manner,
    /// The fields that may differ.
    pub ignored: Vec<Field>,
    /// The ranges of addresses to which the comparison is limited; all where there is none.
    pub only: Vec<Range>,
    /// The name of the run's capture, where it is given.
    pub capture: Option<&'a str>,
    /// The name of the savefile that the run wrote.
    pub tx: &'a str,
    /// The name of its report.
    pub report: &'a str,
    /// The names of the other router's savefiles, 1 to 16.
    pub others: &'a [&'a str],
}

// What the options say.
#[derive(Drop)]
struct Options<'a> {
    manner: Manner,
    ignored: Vec<Field>,
    only: Vec<Range>,
    capture: Option<&'a str>,
}

impl<'a> Options<'a> {
    // What is said where there is no option.
    fn new(alloc: Global) -> Options<'a>
        ensures { specs.said_shown result ≡ specs.nothing_said }
    {
        Options {
            manner: Manner::Lines,
            ignored: Vec::new(alloc),
            only: Vec::new(alloc),
            capture: None,
        }
    }

    // Takes how what differs is printed, which is said once. Answers whether it could.
    fn take_manner(&mut self, manner: Manner) -> bool
        ensures { specs.said_if result (specs.said_shown self.new) ≡ specs.with_manner (specs.said_shown self.old) manner }
    {
        match self.manner {
            Manner::Lines => {
                self.manner = manner;
                true
            }
            Manner::Brief | Manner::Classes => false,
        }
    }

    // Takes a field that may differ, where the word is one.
    fn take_field(&mut self, value: &str) -> Result<bool, AllocError>
        ensures { IfOk result (λ taken. specs.said_if taken (specs.said_shown self.new) ≡ specs.with_field (specs.said_shown self.old) value.now) }
    {
        let Some(field) = Field::of(value.as_bytes()) else {
            return Ok(false);
        };
        self.ignored.push(field)?;
        Ok(true)
    }

    // Takes a range of addresses to which the comparison is limited, where the word is one.
    fn take_range(&mut self, alloc: Global, value: &str) -> Result<bool, AllocError>
        ensures { IfOk result (λ taken. specs.said_if taken (specs.said_shown self.new) ≡ specs.with_range (specs.said_shown self.old) value.now) }
    {
        let Some(range) = range_of(alloc, value)? else {
            return Ok(false);
        };
        self.only.push(range)?;
        Ok(true)
    }

    // Takes the name of the run's capture, which is said once.
    fn take_capture(&mut self, value: &'a str) -> bool
        ensures { specs.said_if result (specs.said_shown self.new) ≡ specs.with_capture (specs.said_shown self.old) value.entry.now }
    {
        if self.capture.is_some() || !is_plain(value) {
            return false;
        }
        self.capture = Some(value);
        true
    }

    // Takes an option and the word behind it, where there is such an option.
    fn take(&mut self, alloc: Global, word: &str, value: &'a str) -> Result<bool, AllocError>
        ensures { IfOk result (λ taken. specs.said_if taken (specs.said_shown self.new) ≡ specs.with_option (specs.said_shown self.old) word.now value.entry.now) }
    {
        if word == "--brief" {
            return Ok(self.take_manner(Manner::Brief));
        }
        if word == "--classes" {
            return Ok(self.take_manner(Manner::Classes));
        }
        if word == "--ignore" {
            return self.take_field(value);
        }
        if word == "--only" {
            return self.take_range(alloc, value);
        }
        if word == "--capture" {
            return Ok(self.take_capture(value));
        }
        Ok(false)
    }

    // Takes the option that words begin with. Answers how many of the words that takes; `None` where there is no such option.
    fn take_first(&mut self, alloc: Global, words: &[&'a str]) -> Result<Option<usize>, AllocError>
        requires { begins_with_option_text (texts words.now) ≡ true }
        ensures { IfOk result (IsTaken (specs.said_shown self.old) (specs.said_shown self.new) words.now) }
    {
        let [word, value, ..] = words else {
            return Ok(None);
        };
        if self.take(alloc, word, value)? {
            Ok(Some(places_of(word)))
        } else {
            Ok(None)
        }
    }

    // What is asked for with these options and names: a savefile, a report, and the other router's savefiles.
    fn with_names(self, names: &'a [&'a str]) -> Option<Ask<'a>>
        ensures { option_map specs.ask_shown result ≡ specs.ask_of (specs.said_shown self.entry) (texts names.entry.now) }
    {
        let Some((tx, behind)) = names.split_first() else {
            return None;
        };
        let Some((report, others)) = behind.split_first() else {
            return None;
        };
        if others.is_empty() || others.len() > MOST_OTHERS || !are_plain(names) {
            return None;
        }
        Some(Ask {
            manner: self.manner,
            ignored: self.ignored,
            only: self.only,
            capture: self.capture,
            tx,
            report,
            others,
        })
    }
}

// Whether the word may be a name: it isn't empty, and begins with no `-`.
fn is_plain(word: &str) -> bool
    ensures { result ≡ is_plain_text word.now }
{
    match word.as_bytes() {
        [] => false,
        [first, ..] => *first != b'-',
    }
}

// Whether all words may be names.
#[tactic(auto, using(crate::proofs::AskLemmas::all_texts))]
fn are_plain(words: &[&str]) -> bool
    ensures { result ≡ list_all is_plain_text (texts words.now) }
{
    words.iter().all(|word| is_plain(word))
}

// Whether the first of several words is an option: it is none that may be a name.
fn begins_with_option(words: &[&str]) -> bool
    ensures { result ≡ specs.begins_with_option (texts words.now) }
{
    match words {
        [first, _, ..] => !is_plain(first),
        _ => false,
    }
}

// The words from a place on.
fn words_from<'a>(words: &'a [&'a str], at: usize) -> &'a [&'a str]
    requires { at ≤ length words.now }
    ensures { result.now ≡ drop at words.entry.now }
{
    words.split_at(at).1
}

// How many words an option has: its value stands in the next one, but those that say how what differs is printed have none.
fn places_of(word: &str) -> usize
    ensures { result ≡ specs.places_of word.now }
{
    if word == "--brief" || word == "--classes" {
        1
    } else {
        2
    }
}

/// The script whose router in the kernel the words ask for: `--linux SCRIPT`.
pub fn script_of_router<'a>(words: &[&'a str]) -> Option<&'a str>
    ensures { option_map (λ script. script.now) result ≡ specs.router_of (texts words.now) }
{
    match words {
        [option, script] if *option == "--linux" && is_plain(script) => Some(script),
        _ => None,
    }
}

/// What the words ask for: options, then a savefile, a report, and 1 to 16 savefiles of another router; `None` where the words are others,
/// where `--capture` stands twice, or more than one of `--brief` and `--classes`.
///
/// `--brief` prints the counts alone, `--classes` a table of what differs; `--ignore FIELD` names a field that may differ, and
/// `--only PREFIX` limits the comparison to packets with an address in it, each as often as need be; `--capture CAPTURE` names the capture of
/// the run.
///
/// # Errors
///
/// [`AllocError`] where memory runs out.
#[tactic(auto, using(crate::proofs::AskLemmas::words_later, crate::proofs::AskLemmas::names_left))]
pub fn asked<'a>(alloc: Global, words: &'a [&'a str]) -> Result<Option<Ask<'a>>, AllocError>
    ensures { IfOk result (λ ask. option_map specs.ask_shown ask ≡ specs.asked (texts words.entry.now)) }
{
    let mut options = Options::new(alloc);
    let mut at = 0;
    while begins_with_option(words_from(words, at)) {
        let Some(places) = options.take_first(alloc, words_from(words, at))? else {
            return Ok(None);
        };
        at += places;
    }
    Ok(options.with_names(words_from(words, at)))
}
