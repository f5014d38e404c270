//! Whole numbers as texts.
ghost use Rattle.std.specs.Prelude.{◌≡◌, pos, neg_ℤ, Some, None, if◌then◌else◌};
ghost use Rattle.std.specs.Str.Parse.{digits_value};
ghost use Rattle.es_value.specs.Numbers.{number_of, is_number, fitting};

use crate::digits::value_of;

/// The number that an optional `-` and 1 to 19 digits write, if it lies within 64 bits. It takes no memory.
#[tactic(auto, unfolding(crate::specs::Numbers::number_of))]
pub fn read_number(text: &str) -> Option<i64>
    ensures { result ≡ number_of text.now }
{
    match text.as_bytes() {
        [] => None,
        [b'-', digits @ ..] => negative(magnitude(digits)?),
        digits => positive(magnitude(digits)?),
    }
}

/// The number that 1 to 19 digits write.
fn magnitude(digits: &[u8]) -> Option<u64>
    ensures { result ≡ (if is_number digits.now then Some (digits_value 10 digits.now) else None) }
{
    match digits.len() {
        1..=19 => value_of(digits),
        _ => None,
    }
}

/// The number, if it lies within 64 bits.
fn positive(magnitude: u64) -> Option<i64>
    ensures { result ≡ fitting (pos magnitude) }
{
    i64::try_from(magnitude).ok()
}

/// The number below zero, if it lies within 64 bits.
fn negative(magnitude: u64) -> Option<i64>
    ensures { result ≡ fitting (neg_ℤ (pos magnitude)) }
{
    if magnitude == i64::MIN.unsigned_abs() {
        return Some(i64::MIN);
    }
    i64::try_from(magnitude).ok()?.checked_neg()
}
