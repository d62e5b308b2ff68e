//! Decimal numbers.
ghost use Rattle.std.specs.Prelude.{◌≡◌, ◌≤◌, ◌<◌, ◌^◌, IfSome, option_map};
ghost use Rattle.vg_words.specs.Command.{is_decimal as is_decimal_word, number_of, number_or};

/// Whether the word is decimal digits, the first of several not 0.
fn is_decimal(word: &[u8]) -> bool
    ensures { result ≡ is_decimal_word word.now }
{
    if word.is_empty() || !word.iter().all(|byte| byte.is_ascii_digit()) {
        return false;
    }
    word.len() == 1 || word[0] != b'0'
}

/// The number that a word says, where it is in its range.
pub fn number(word: &str, least: u64, most: u64) -> Option<u64>
    ensures value { result ≡ number_of least most word.now }
    ensures within { IfSome result (λ number. number ≤ most) }
{
    if !is_decimal(word.as_bytes()) {
        return None;
    }
    match word.parse::<u64>() {
        Ok(number) if least <= number && number <= most => Some(number),
        _ => None,
    }
}

/// The number that an option's value says, or its default where no value is given.
pub fn number_or_default(value: Option<&str>, default: u64, least: u64, most: u64) -> Option<u64>
    requires { default ≤ most }
    ensures value { result ≡ number_or default least most (option_map (λ text. text.now) value.entry) }
    ensures within { IfSome result (λ number. number ≤ most) }
{
    match value {
        Some(text) => number(text, least, most),
        None => Some(default),
    }
}
