//! The numbers in a JSON value: each has to be one that `serde_json` has.

ghost use Rattle.std.specs.Prelude.{◌≡◌, ◌==◌, ◌<◌, length, slice_index, option_and_then, is_some, IsTrue, Some, IfSome};
ghost use Rattle.serde_json.specs.Data.{unsigned};
ghost use Rattle.serde_json.specs.Read.{number_of, number_from};
ghost use Rattle.serde_json.specs.Find.{as_u64};
ghost use Rattle.ll_lines.specs.Values.{is_whole};

use fast_float::Numeral;

/// The most digits that are read at once: what they write is below 2 ^ 64.
const MOST_DIGITS: usize = 18;

/// The whole number below 2 ^ 64 that a number's text stands for.
pub fn whole_number(text: &str) -> Option<u64>
    ensures { result ≡ option_and_then as_u64 (number_of text.now) }
{
    if let Some(number) = short_number(text.as_bytes()) {
        return Some(number);
    }
    let (negative, numeral) = signed(text);
    if negative { None } else { numeral.to_u64() }
}

/// Whether a number is a whole number of 64 bits, or is not too large for a float.
pub fn is_number_in_range(text: &str) -> bool
    ensures { result ≡ is_some (number_of text.now) }
{
    if short_number(text.as_bytes()).is_some() {
        return true;
    }
    let (negative, numeral) = signed(text);
    is_integer(negative, &numeral) || numeral.to_float::<f64>(negative).is_finite()
}

/// The whole number that bytes write which are digits alone, one to 18 of them.
fn short_number(digits: &[u8]) -> Option<u64>
    ensures { IfSome result (λ number. number_of digits.now ≡ Some (unsigned number)) }
{
    if digits.is_empty() || digits.len() > MOST_DIGITS {
        return None;
    }
    let mut number = 0;
    for digit in digits {
        if !digit.is_ascii_digit() {
            return None;
        }
        number = number * 10 + u64::from(*digit - b'0');
    }
    Some(number)
}

fn is_integer(negative: bool, numeral: &Numeral<'_>) -> bool
    ensures { result ≡ is_whole negative numeral.now }
{
    if negative {
        numeral.to_i64(true).is_some_and(|n| n < 0)
    } else {
        numeral.to_u64().is_some()
    }
}

/// Whether a number has a minus, and the numeral behind it.
fn signed(text: &str) -> (bool, Numeral<'_>)
    ensures { number_of text.now ≡ number_from result.0 result.1 }
{
    let bytes = text.as_bytes();
    if has_minus(bytes) {
        (true, Numeral::scan(&bytes[1..]))
    } else {
        (false, Numeral::scan(bytes))
    }
}

fn has_minus(bytes: &[u8]) -> bool
    ensures minus { result ≡ (slice_index bytes.now 0 == 45) }
    ensures some { IsTrue result → 0 < length bytes.now }
{
    match bytes.first() {
        None => false,
        Some(first) => *first == b'-',
    }
}
