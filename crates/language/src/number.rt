//! Decimal numbers.
ghost use Rattle.std.specs.Prelude.{◌≡◌, ℕ, ◌+◌, ◌*◌};
ghost use Rattle.std.specs.Char.{IsAsciiDigit, digit_value};
ghost use Rattle.language.specs.Numbers.{decimal_of, short_number};

/// The number that a word writes in decimal digits.
#[derive(Debug, Clone, Copy, PartialEq, Eq)]
pub(crate) enum Decimal {
    /// One below 2^64.
    Value(u64),
    /// One of 2^64 or more.
    Large,
    /// None: it is empty, or has a byte that is no digit.
    Other,
}

/// The number that a word writes in decimal digits.
pub(crate) fn read_decimal(word: &[u8]) -> Decimal
    ensures { result ≡ decimal_of word.now }
{
    if word.is_empty() {
        return Decimal::Other;
    }
    let mut value = Some(0);
    for byte in word {
        if !byte.is_ascii_digit() {
            return Decimal::Other;
        }
        value = more(value, *byte);
    }
    match value {
        Some(value) => Decimal::Value(value),
        None => Decimal::Large,
    }
}

/// A number with one more digit, or `None` where it is 2^64 or more.
fn more(value: Option<u64>, digit: u8) -> Option<u64>
    requires { IsAsciiDigit digit }
    ensures { (n : ℕ) → value ≡ short_number n → result ≡ short_number (n * 10 + digit_value digit) }
{
    match value {
        Some(value) => match value.checked_mul(10) {
            Some(tens) => tens.checked_add(u64::from(digit - b'0')),
            None => None,
        },
        None => None,
    }
}
