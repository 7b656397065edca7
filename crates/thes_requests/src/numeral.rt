//! Values of JSON numerals.
ghost use Rattle.std.specs.Prelude.{◌≡◌, ◌==◌, ◌<◌, ◌≤◌, length, option_map, slice_index, true, false, IsTrue};
ghost use Rattle.std.specs.Option.{SomeIff};
ghost use Rattle.std.specs.Str.Parse.{digits_value, IsNumeral};
ghost use Rattle.serde_json.specs.Read.{float_of, number_from, number_of};
ghost use Rattle.serde_json.specs.View.{number_view};

use fast_float::Numeral;
use serde_json::Number;

/// Returns the value of a JSON numeral: a 64-bit integer, or else the nearest finite float; `None`
/// if it is too large for a float.
pub fn number_of(text: &str) -> Option<Number>
    ensures { option_map number_view result ≡ number_of text.now }
{
    let bytes = text.as_bytes();
    // Most numerals are a few digits, and the general scan takes three times as long for them.
    if let Some(number) = integer_of(bytes) {
        return Some(Number::from(number));
    }
    scan_number(bytes)
}

// Returns the value of the bytes as a numeral, if they are 1 to 19 digits and nothing else. Any
// number of 19 digits fits into 64 bits.
fn integer_of(bytes: &[u8]) -> Option<u64>
    ensures { SomeIff result (IsNumeral 10 bytes.now × (length bytes.now ≤ 19))
        (digits_value 10 bytes.now) }
{
    if bytes.is_empty() || bytes.len() > 19 {
        return None;
    }
    let mut number = 0u64;
    for &byte in bytes {
        let digit = byte.wrapping_sub(b'0');
        if digit > 9 {
            return None;
        }
        number = number * 10 + u64::from(digit);
    }
    Some(number)
}

// Returns the value of any JSON numeral; `None` if it is too large for a float. It isn't inlined,
// so that a numeral of a few digits is spared the large stack frame of a scan, which is first
// filled with zeros.
#[inline(never)]
fn scan_number(bytes: &[u8]) -> Option<Number>
    ensures { option_map number_view result ≡ number_of bytes.now }
{
    if has_minus(bytes) {
        negative(&Numeral::scan(&bytes[1..]))
    } else {
        unsigned(&Numeral::scan(bytes))
    }
}

// Returns whether the JSON numeral begins with a minus sign.
fn has_minus(bytes: &[u8]) -> bool
    ensures value { result ≡ (slice_index bytes.now 0 == 45) }
    ensures len { IsTrue result → 0 < length bytes.now }
{
    !bytes.is_empty() && bytes[0] == b'-'
}

// Returns the value of a JSON numeral without a sign: an unsigned 64-bit integer, or else a float;
// `None` if it is too large for a float.
fn unsigned(numeral: &Numeral<'_>) -> Option<Number>
    ensures { option_map number_view result ≡ number_from false numeral.now }
{
    match numeral.to_u64() {
        Some(number) => Some(Number::from(number)),
        None => nearest(false, numeral),
    }
}

// Returns the value of a JSON numeral, given without its minus sign: a negative 64-bit integer, or
// else a float, as for -0; `None` if it is too large for a float.
fn negative(numeral: &Numeral<'_>) -> Option<Number>
    ensures { option_map number_view result ≡ number_from true numeral.now }
{
    if let Some(number) = numeral.to_i64(true) {
        if number < 0 {
            return Some(Number::from(number));
        }
    }
    nearest(true, numeral)
}

// Returns the float nearest to the JSON numeral, with a minus sign if `negative`; `None` if the
// numeral is too large for a float.
fn nearest(negative: bool, numeral: &Numeral<'_>) -> Option<Number>
    ensures { option_map number_view result ≡ float_of negative numeral.now }
{
    Number::from_f64(numeral.to_float::<f64>(negative))
}
