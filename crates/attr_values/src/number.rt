//! Decimal numbers, their text and their order.

ghost use Rattle.std.specs.Prelude.{◌≡◌, ◌*◌, ◌/◌, ◌%◌, ◌^◌, ◌<◌, ◌++◌, ℕ, true, false, replicate, IsTrue, MatchOption, IfSome, IfOk, OnOk, Some, decimal, string_bytes};
ghost use Rattle.std.specs.Char.{is_ascii_digit};
ghost use Rattle.std.specs.List.{list_all, position};
ghost use Rattle.std.specs.Option.{SomeIff, ok_or};
ghost use Rattle.std.specs.Str.Parse.{digits_value_after};
ghost use Rattle.std.specs.Ordering.{nat_cmp};
ghost use Rattle.attr_values.specs.Decimal.{IsNormal, value_cmp};
ghost use Rattle.attr_values.specs.Numeral as numeral;
ghost use Rattle.attr_values.specs.Numeral.{is_point, is_unsigned, read_number, number_text, sign_text, fraction_text, last_digits, IsShort, SplitsAtPoint};

use crate::fault::ItemFault;
use itoa::Buffer;
use std::alloc::{AllocError, Global};
use std::cmp::Ordering;
use std::marker::Model;

const LIMIT: u128 = 100_000_000_000_000_000_000_000_000_000_000_000_000;

const MOST_PLACES: usize = 100;

// A sign, a zero, a point and the digits of a fraction, or a sign, a point and 38 digits.
const LONGEST_TEXT: usize = 103;

/// A decimal number: the coefficient divided by ten to the places, with at most 38 digits and 100 places.
/// Each number has one form: its fraction ends in no zero, and zero has no sign.
#[derive(Clone, Copy, Debug, PartialEq, Eq, Hash)]
pub struct Number {
    coefficient: i128,
    places: u8,
}

impl Model for Number {
    ghost use Rattle.attr_values.specs.Decimal.{Decimal, IsNormal};

    ghost Value = { Decimal };

    ghost view = { λ n. record { coefficient = n.coefficient; places = n.places } };

    ghost invariant = { λ n. IsNormal (record { coefficient = n.coefficient; places = n.places }) };

    ghost inverse = { λ d. record { coefficient = d.coefficient; places = d.places } };
}

impl Number {
    /// Reads `-?digits(.digits)?`, in one pass and with no memory. `BadNumber` for any other text, and for a number past
    /// the bounds.
    pub fn read(text: &str) -> Result<Number, ItemFault>
        ensures { result ≡ ok_or (read_number text.now) ItemFault.BadNumber }
    {
        let number = match text.as_bytes() {
            [b'-', digits @ ..] => read_unsigned(true, digits),
            digits => read_unsigned(false, digits),
        };
        number.ok_or(ItemFault::BadNumber)
    }

    /// The one spelling of the number: `-` below zero, the digits of its whole part, and the point and the digits of the
    /// fraction where there are any. Takes memory for the text, at most 103 bytes.
    pub fn write_text(&self, alloc: Global) -> Result<String, AllocError>
        ensures text { IfOk result (λ s. string_bytes s ≡ number_text self.now) }
        ensures reads_back { IfOk result (λ s. read_number (string_bytes s) ≡ Some self.now) }
    {
        spell(alloc, self)
    }

    /// Whether a text is that spelling. Takes no memory.
    pub(crate) fn is_text(&self, text: &str) -> bool
        ensures { IsTrue result → text.now ≡ number_text self.now }
    {
        let magnitude = self.coefficient.unsigned_abs();
        let (whole, _fraction) = split(magnitude, self.places);
        let Some(unsigned) = after_sign(self.coefficient, text.as_bytes()) else {
            return false;
        };
        match after_whole(whole, unsigned) {
            Some(rest) => is_fraction(rest, self.places, magnitude),
            None => false,
        }
    }
}

/// What a spelling has after its sign.
fn after_sign(coefficient: i128, text: &[u8]) -> Option<&[u8]>
    ensures { IfSome result (λ rest. text.now ≡ sign_text coefficient ++ rest.now) }
{
    if coefficient >= 0 {
        return Some(text);
    }
    match text {
        [b'-', rest @ ..] => Some(rest),
        _ => None,
    }
}

/// What it has after its whole part.
fn after_whole(whole: u128, text: &[u8]) -> Option<&[u8]>
    ensures { IfSome result (λ rest. text.now ≡ decimal whole ++ rest.now) }
{
    text.strip_prefix(Buffer::new().format(whole).as_bytes())
}

fn is_fraction(text: &[u8], places: u8, magnitude: u128) -> bool
    ensures { IsTrue result → text.now ≡ fraction_text places magnitude }
{
    match text {
        [] => places == 0,
        [b'.', digits @ ..] => places > 0 && are_last_digits(digits, places, magnitude),
        _ => false,
    }
}

/// Whether these are the last `count` digits of `n`. The last one is compared first.
fn are_last_digits(digits: &[u8], count: u8, n: u128) -> bool
    ensures { IsTrue result → digits.now ≡ last_digits count n }
{
    match digits {
        [] => count == 0,
        [before @ .., last] => {
            count > 0
                && *last == b'0' + (n % 10) as u8
                && are_last_digits(before, count - 1, n / 10)
        }
    }
}

fn spell(alloc: Global, number: &Number) -> Result<String, AllocError>
    ensures text { IfOk result (λ s. string_bytes s ≡ number_text number.now) }
    ensures normal { IsNormal number.now }
{
    let magnitude = number.coefficient.unsigned_abs();
    let (whole, _fraction) = split(magnitude, number.places);
    let mut text = String::with_capacity(alloc, LONGEST_TEXT)?;
    if number.coefficient < 0 {
        text.push('-')?;
    }
    text.push_str(Buffer::new().format(whole))?;
    if number.places > 0 {
        text.push('.')?;
        push_last_digits(magnitude, number.places, &mut text)?;
    }
    Ok(text)
}

/// Puts the last `count` digits of `n` at the end of a text.
fn push_last_digits(n: u128, count: u8, text: &mut String) -> Result<(), AllocError>
    ensures { OnOk result (string_bytes text.new ≡ string_bytes text.old ++ last_digits count n) }
{
    if count == 0 {
        return Ok(());
    }
    push_last_digits(n / 10, count - 1, text)?;
    text.push((b'0' + (n % 10) as u8) as char)
}

fn all_digits(bytes: &[u8]) -> bool
    ensures { result ≡ list_all is_ascii_digit bytes.now }
{
    bytes.iter().all(|b| b.is_ascii_digit())
}

fn is_digits(bytes: &[u8]) -> bool
    ensures { result ≡ numeral.is_digits bytes.now }
{
    !bytes.is_empty() && all_digits(bytes)
}

fn find_point(text: &[u8]) -> Option<usize>
    ensures { result ≡ position is_point text.now }
{
    text.iter().position(|b| *b == b'.')
}

/// The digits before and after the point.
fn split_at_point(text: &[u8]) -> Option<(&[u8], &[u8])>
    ensures { MatchOption result (is_unsigned text.now ≡ false) (λ r. SplitsAtPoint text.now r.0.now r.1.now) }
{
    let Some(at) = find_point(text) else {
        return if is_digits(text) {
            Some((text, &[]))
        } else {
            None
        };
    };
    let (whole, fraction) = (&text[..at], &text[at + 1..]);
    if is_digits(whole) && is_digits(fraction) {
        Some((whole, fraction))
    } else {
        None
    }
}

/// The number that the digits write after those of `start`, if it has at most 38 digits.
fn digits_value(start: u128, digits: &[u8]) -> Option<u128>
    requires small { start < 10 ^ 38 }
    requires digits { IsTrue (list_all is_ascii_digit digits.now) }
    ensures { SomeIff result (digits_value_after 10 start digits.now < 10 ^ 38) (digits_value_after 10 start digits.now) }
{
    let mut value = start;
    for digit in digits {
        if value >= LIMIT / 10 {
            return None;
        }
        value = value * 10 + u128::from(*digit - b'0');
    }
    Some(value)
}

/// The number that the digits of both write, if it has at most 38 digits.
fn digits_value_of_both(whole: &[u8], fraction: &[u8]) -> Option<u128>
    requires whole { IsTrue (list_all is_ascii_digit whole.now) }
    requires fraction { IsTrue (list_all is_ascii_digit fraction.now) }
    ensures { SomeIff result (digits_value_after 10 0 (whole.now ++ fraction.now) < 10 ^ 38) (digits_value_after 10 0 (whole.now ++ fraction.now)) }
{
    digits_value(digits_value(0, whole)?, fraction)
}

/// The digits without the zeros at their end.
fn without_last_zeros(digits: &[u8]) -> &[u8]
    ensures { (k : ℕ) × (digits.now ≡ result.now ++ replicate k 48) × IsShort result.now }
{
    let mut kept = digits;
    while let [rest @ .., b'0'] = kept {
        kept = rest;
    }
    kept
}

fn with_sign(negative: bool, magnitude: u128) -> i128
    requires { magnitude < 10 ^ 38 }
    ensures { result ≡ numeral.with_sign negative magnitude }
{
    let magnitude = magnitude as i128;
    if negative { -magnitude } else { magnitude }
}

fn read_unsigned(negative: bool, digits: &[u8]) -> Option<Number>
    ensures { result ≡ numeral.read_unsigned negative digits.now }
{
    let (whole, fraction) = split_at_point(digits)?;
    let fraction = without_last_zeros(fraction);
    if fraction.len() > MOST_PLACES {
        return None;
    }
    let magnitude = digits_value_of_both(whole, fraction)?;
    Some(Number {
        coefficient: with_sign(negative, magnitude),
        places: fraction.len() as u8,
    })
}

impl PartialOrd for Number {
    ghost use Rattle.std.specs.Ordering.{as_partial_cmp};
    ghost use Rattle.std.specs.Cmp.{partial_order_from_agreeing_total};
    ghost use Rattle.std.specs.Prelude.{refl};
    ghost use Rattle.attr_values.specs.Decimal.{decimal_cmp};
    ghost use Rattle.attr_values.specs.DecimalOrder.{decimal_cmp_total, decimal_tied};

    ghost partial_cmp = { as_partial_cmp decimal_cmp };

    ghost laws = { partial_order_from_agreeing_total decimal_cmp decimal_cmp_total (λ _ _. refl) decimal_tied };

    fn partial_cmp(&self, other: &Number) -> Option<Ordering> {
        Some(self.cmp(other))
    }
}

impl Ord for Number {
    ghost use Rattle.std.specs.Prelude.{refl};
    ghost use Rattle.attr_values.specs.Decimal.{decimal_cmp};
    ghost use Rattle.attr_values.specs.DecimalOrder.{decimal_cmp_total, decimal_tied};

    ghost cmp = { decimal_cmp };

    ghost total = { decimal_cmp_total };

    ghost matches_partial_cmp = { λ _ _. refl };

    ghost matches_eq = { decimal_tied };

    fn cmp(&self, other: &Number) -> Ordering {
        compare_values(self, other)
    }
}

/// The quotient and the remainder of `n` by ten to the `places`.
fn split(n: u128, places: u8) -> (u128, u128)
    ensures { result ≡ (n / 10 ^ places, n % 10 ^ places) }
{
    match 10u128.checked_pow(u32::from(places)) {
        Some(power) => (n / power, n % power),
        None => (0, n),
    }
}

/// The order of `n` over ten to the `places` and a whole number.
fn compare_with_whole(n: u128, places: u8, whole: u128) -> Ordering
    ensures { result ≡ nat_cmp n (whole * 10 ^ places) }
{
    let (quotient, rest) = split(n, places);
    quotient.cmp(&whole).then(rest.cmp(&0))
}

fn compare_magnitudes(a: u128, a_places: u8, b: u128, b_places: u8) -> Ordering
    ensures { result ≡ nat_cmp (a * 10 ^ b_places) (b * 10 ^ a_places) }
{
    if a_places < b_places {
        compare_with_whole(b, b_places - a_places, a).reverse()
    } else {
        compare_with_whole(a, a_places - b_places, b)
    }
}

fn compare_values(a: &Number, b: &Number) -> Ordering
    ensures order { result ≡ value_cmp a.now b.now }
    ensures normal { IsNormal a.now × IsNormal b.now }
{
    let order = compare_magnitudes(
        a.coefficient.unsigned_abs(),
        a.places,
        b.coefficient.unsigned_abs(),
        b.places,
    );
    match (a.coefficient < 0, b.coefficient < 0) {
        (false, false) => order,
        (true, true) => order.reverse(),
        (true, false) => Ordering::Less,
        (false, true) => Ordering::Greater,
    }
}
