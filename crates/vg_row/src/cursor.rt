//! The lines of a text that are still to be read.
ghost use Rattle.std.specs.Prelude.{◌≡◌, ◌<◌, ◌∷◌, ℕ, List, MatchOption, [], length, drop, if◌then◌else◌};
ghost use Rattle.vg_row.specs.Names.{Advances, begins_row, name_and, names_left};

use crate::building::Form;

/// What a line says.
#[derive(Clone, Copy)]
pub(crate) enum Said<'a> {
    /// Nothing.
    Nothing,
    /// That a row of this name begins.
    Row(&'a str),
    /// Its first word, and what stands behind the blank that follows the word.
    Words(&'a str, &'a str),
}

/// What a line says.
fn said_in(line: &str) -> Said<'_>
    ensures { (names : List (List ℕ)) → name_and result names ≡ (if begins_row line.now then drop 4 line.now ∷ names else names) }
{
    if let Some(name) = line.strip_prefix("row ") {
        return Said::Row(name);
    }
    if line.is_empty() || line.starts_with('#') {
        return Said::Nothing;
    }
    let (word, rest) = first_word(line);
    Said::Words(word, rest)
}

/// The first word of a text, and what stands behind the blank that follows it.
pub(crate) fn first_word(text: &str) -> (&str, &str) {
    text.split_once(' ').unwrap_or((text, ""))
}

/// The lines that are still to be read, and how many were.
#[derive(Clone, Copy)]
pub(crate) struct Lines<'a> {
    pub(crate) rest: &'a [&'a str],
    pub(crate) taken: usize,
}

impl<'a> Lines<'a> {
    /// Takes the next line.
    pub(crate) fn next(&mut self) -> Option<Said<'a>>
        ensures { MatchOption result (self.old.rest.now ≡ []) (λ said. (name_and said (names_left self.new) ≡ names_left self.old)
            × (length self.new.rest.now < length self.old.rest.now)) }
    {
        let [line, others @ ..] = self.rest else {
            return None;
        };
        self.rest = others;
        self.taken = self.taken.saturating_add(1);
        Some(said_in(line))
    }

    /// Takes the next line that says something, unless it begins a row.
    fn words(&mut self) -> Option<(&'a str, &'a str)>
        ensures { MatchOption result (self.new ≡ self.old) (λ _. Advances self.old self.new) }
    {
        let mut ahead = *self;
        while let Some(said) = ahead.next() {
            match said {
                Said::Nothing => {}
                Said::Row(_) => return None,
                Said::Words(word, rest) => {
                    *self = ahead;
                    return Some((word, rest));
                }
            }
        }
        None
    }

    /// Takes the next line of a row, unless it begins another, or a part.
    pub(crate) fn row_line(&mut self) -> Option<(&'a str, &'a str)>
        ensures { MatchOption result (self.new ≡ self.old) (λ _. Advances self.old self.new) }
    {
        let mut ahead = *self;
        let (word, rest) = ahead.words()?;
        if word == "part" {
            return None;
        }
        *self = ahead;
        Some((word, rest))
    }

    /// Takes the next line where it says bytes.
    pub(crate) fn bytes_line(&mut self) -> Option<(Form, &'a str)>
        ensures { MatchOption result (self.new ≡ self.old) (λ _. Advances self.old self.new) }
    {
        let mut ahead = *self;
        let (word, rest) = ahead.words()?;
        let form = Form::of(word)?;
        *self = ahead;
        Some((form, rest))
    }
}
