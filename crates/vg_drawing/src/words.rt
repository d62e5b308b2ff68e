//! What the words of the command line ask for.
ghost use Rattle.std.specs.Prelude.{◌≡◌, ◌<◌, ◌≤◌, ◌^◌, IfSome, option_map};
ghost use Rattle.vg_words.specs.Command.{is_decimal as is_decimal_word, is_plain as is_plain_text, number_of, texts};
ghost use Rattle.vg_drawing.specs.Asked.{ask_shown, ask_with, asked as asked_by, asked_of};

/// Which generations are drawn.
#[derive(Clone, Copy, Debug, PartialEq, Eq)]
pub enum Which {
    /// The generation of this number.
    One(u32),
    /// All, one behind the other.
    All,
}

/// What is drawn: generations of a script's graph, with a report or without one.
#[derive(Clone, Copy, Debug)]
pub struct Ask<'a> {
    pub which: Which,
    /// The name of the script.
    pub script: &'a str,
    /// The name of the report, where there is one.
    pub report: Option<&'a str>,
}

/// Whether the word is decimal digits, the first of several not 0.
fn is_decimal(word: &[u8]) -> bool
    ensures { result ≡ is_decimal_word word.now }
{
    if word.is_empty() || !word.iter().all(|byte| byte.is_ascii_digit()) {
        return false;
    }
    word.len() == 1 || word[0] != b'0'
}

/// The number of a generation that a word says.
fn generation(word: &str) -> Option<u64>
    ensures value { result ≡ number_of 0 999 word.now }
    ensures within { IfSome result (λ number. number ≤ 999) }
{
    if !is_decimal(word.as_bytes()) {
        return None;
    }
    match word.parse::<u64>() {
        Ok(number) if number <= 999 => Some(number),
        _ => None,
    }
}

/// Whether the word may be a name: it isn't empty, and begins with no `-`.
fn is_plain(word: &str) -> bool
    ensures { result ≡ is_plain_text word.now }
{
    match word.as_bytes() {
        [] => false,
        [first, ..] => *first != b'-',
    }
}

/// The drawing of a script, with the report where one is named.
fn with_report<'a>(which: Which, script: &'a str, report: Option<&'a str>) -> Option<Ask<'a>>
    ensures { option_map ask_shown result ≡ ask_with which script.entry.now (option_map (λ name. name.now) report.entry) }
{
    let plain = match report {
        Some(name) => is_plain(name),
        None => true,
    };
    if !plain || !is_plain(script) {
        return None;
    }
    Some(Ask {
        which,
        script,
        report,
    })
}

/// The drawing that these names ask for: a script, and behind it a report or none.
fn named<'a>(which: Which, names: &[&'a str]) -> Option<Ask<'a>>
    ensures { option_map ask_shown result ≡ asked_of which (texts names.now) }
{
    let Some((script, others)) = names.split_first() else {
        return None;
    };
    let Some((report, rest)) = others.split_first() else {
        return with_report(which, script, None);
    };
    if !rest.is_empty() {
        return None;
    }
    with_report(which, script, Some(report))
}

/// What the words ask for: an option or none, a script, and behind it a report or none.
pub fn asked<'a>(words: &[&'a str]) -> Option<Ask<'a>>
    ensures { option_map ask_shown result ≡ asked_by (texts words.now) }
{
    let Some((first, others)) = words.split_first() else {
        return None;
    };
    if *first == "--all" {
        return named(Which::All, others);
    }
    if *first == "--generation" {
        let Some((number, names)) = others.split_first() else {
            return None;
        };
        let Some(number) = generation(number) else {
            return None;
        };
        return named(Which::One(number as u32), names);
    }
    named(Which::One(0), words)
}
