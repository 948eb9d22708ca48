//! Numbers as words.

ghost use Rattle.std.specs.Prelude.{◌≡◌, ◌≤◌, ◌^◌, ◌-◌, IfSome, min};
ghost use Rattle.std.specs.List.{list_all};
ghost use Rattle.words_core.specs.Numbers.{is_digit, is_number, value_behind, within, has_plus, is_plain, without_plus, numeral_in};

fn is_digit(byte: u8) -> bool
    ensures { result ≡ is_digit byte }
{
    byte >= 48 && byte <= 57
}

fn are_digits(word: &[u8]) -> bool
    ensures { result ≡ list_all is_digit word.now }
{
    word.iter().all(|byte| is_digit(*byte))
}

fn is_number(word: &[u8]) -> bool
    ensures { result ≡ is_number word.now }
{
    word.len() != 0 && are_digits(word)
}

/// The value of decimal digits, or the greatest number of 128 bits where it is greater.
fn value(word: &[u8]) -> u128
    ensures exact { result ≡ min (2 ^ 128 - 1) (value_behind 0 word.now) }
{
    let mut value: u128 = 0;
    for digit in word {
        value = value
            .saturating_mul(10)
            .saturating_add(u128::from(digit.saturating_sub(48)));
    }
    value
}

/// The number of decimal digits, where it is in a range.
fn within(digits: &[u8], least: u64, most: u64) -> Option<u64>
    ensures exact { result ≡ within least most digits.now }
    ensures range { IfSome result (λ n. (least ≤ n) × (n ≤ most)) }
{
    if !is_number(digits) {
        return None;
    }
    let value = value(digits);
    if value < u128::from(least) || value > u128::from(most) {
        return None;
    }
    Some(value as u64)
}

fn has_plus(word: &[u8]) -> bool
    ensures { result ≡ has_plus word.now }
{
    word.len() != 0 && word[0] == 43
}

/// Whether neither a plus stands before a word nor a zero before further digits.
pub fn is_plain(word: &[u8]) -> bool
    ensures { result ≡ is_plain word.now }
{
    !has_plus(word) && (word.len() < 2 || word[0] != 48)
}

fn without_plus(word: &[u8]) -> &[u8]
    ensures { result.now ≡ without_plus word.now }
{
    if has_plus(word) {
        return &word[1..];
    }
    word
}

/// The number that a word says, which may have a plus and zeros before its digits, where it is in a range.
pub fn numeral_in(word: &[u8], least: u64, most: u64) -> Option<u64>
    ensures exact { result ≡ numeral_in least most word.now }
    ensures range { IfSome result (λ n. (least ≤ n) × (n ≤ most)) }
{
    within(without_plus(word), least, most)
}
