//! The parts of a date's text. Each answers what the front of the text says, and what stands behind it.
ghost use Rattle.std.specs.Prelude.{◌≡◌, ◌≤◌, ◌<◌, ◌^◌, pos, ◌-ℤ◌, ◌*ℤ◌, IfSome};
ghost use Rattle.std.specs.Option.{option_map, unwrap_or};
ghost use Rattle.jiff_core.specs.Calendar.{IsWithin};
ghost use Rattle.es_value.specs.Dates.{digits, below, sign, after, fraction, seconds, minutes, zone, time};

use crate::digits::value_of;

/// The number of exactly so many digits.
pub fn digits(count: usize, text: &[u8]) -> Option<(u64, &[u8])>
    requires { count ≤ 4 }
    ensures value { option_map (λ found. (found.0, found.1.now)) result ≡ digits count text.now }
    ensures bound { IfSome result (λ found. found.0 < 10 ^ count) }
{
    if text.len() < count {
        return None;
    }
    let (front, rest) = text.split_at(count);
    Some((value_of(front)?, rest))
}

/// Two digits behind a `-`, if one is there.
pub fn two_digits_after_hyphen(text: &[u8]) -> Option<(Option<u64>, &[u8])>
    ensures value { option_map (λ found. (found.0, found.1.now)) result ≡ after 45 (digits 2) text.now }
    ensures bound { IfSome result (λ found. unwrap_or found.0 1 < 100) }
{
    match text {
        [b'-', rest @ ..] => {
            let (number, rest) = digits(2, rest)?;
            Some((Some(number), rest))
        }
        _ => Some((None, text)),
    }
}

/// The number of exactly two digits, if it is below the bound.
fn below(bound: u64, text: &[u8]) -> Option<(u64, &[u8])>
    ensures value { option_map (λ found. (found.0, found.1.now)) result ≡ below bound 2 text.now }
    ensures bound { IfSome result (λ found. found.0 < bound) }
{
    let (number, rest) = digits(2, text)?;
    if number < bound {
        Some((number, rest))
    } else {
        None
    }
}

/// What stands behind a `:`.
fn after_colon(text: &[u8]) -> Option<&[u8]>
    ensures { option_map (λ rest. (tt, rest.now)) result ≡ sign 58 text.now }
{
    match text {
        [b':', rest @ ..] => Some(rest),
        _ => None,
    }
}

/// A part of a second, of 1 to 3 digits, in milliseconds.
fn fraction(text: &[u8]) -> Option<(u64, &[u8])>
    ensures value { option_map (λ found. (found.0, found.1.now)) result ≡ fraction text.now }
    ensures bound { IfSome result (λ found. found.0 < 1000) }
{
    if let Some((thousandths, rest)) = digits(3, text) {
        return Some((thousandths, rest));
    }
    if let Some((hundredths, rest)) = digits(2, text) {
        return Some((10 * hundredths, rest));
    }
    let (tenths, rest) = digits(1, text)?;
    Some((100 * tenths, rest))
}

/// A part of a second behind a `.`, if one is there, in milliseconds.
fn fraction_after_point(text: &[u8]) -> Option<(Option<u64>, &[u8])>
    ensures value { option_map (λ found. (found.0, found.1.now)) result ≡ after 46 fraction text.now }
    ensures bound { IfSome result (λ found. unwrap_or found.0 0 < 1000) }
{
    match text {
        [b'.', rest @ ..] => {
            let (milliseconds, rest) = fraction(rest)?;
            Some((Some(milliseconds), rest))
        }
        _ => Some((None, text)),
    }
}

/// Seconds and their fraction, in milliseconds.
fn seconds(text: &[u8]) -> Option<(u64, &[u8])>
    ensures value { option_map (λ found. (found.0, found.1.now)) result ≡ seconds text.now }
    ensures bound { IfSome result (λ found. found.0 < 60000) }
{
    let (seconds, text) = below(60, text)?;
    let (fraction, text) = fraction_after_point(text)?;
    Some((1000 * seconds + fraction.unwrap_or(0), text))
}

/// Seconds behind a `:`, if they are there, in milliseconds.
fn seconds_after_colon(text: &[u8]) -> Option<(Option<u64>, &[u8])>
    ensures value { option_map (λ found. (found.0, found.1.now)) result ≡ after 58 seconds text.now }
    ensures bound { IfSome result (λ found. unwrap_or found.0 0 < 60000) }
{
    match text {
        [b':', rest @ ..] => {
            let (milliseconds, rest) = seconds(rest)?;
            Some((Some(milliseconds), rest))
        }
        _ => Some((None, text)),
    }
}

/// Hours and minutes, in minutes.
fn minutes(text: &[u8]) -> Option<(u64, &[u8])>
    ensures value { option_map (λ found. (found.0, found.1.now)) result ≡ minutes text.now }
    ensures bound { IfSome result (λ found. found.0 < 1440) }
{
    let (hours, text) = below(24, text)?;
    let text = after_colon(text)?;
    let (minutes, text) = below(60, text)?;
    Some((60 * hours + minutes, text))
}

/// How many minutes a local time is ahead of UTC.
fn zone(text: &[u8]) -> Option<(i64, &[u8])>
    ensures value { option_map (λ found. (found.0, found.1.now)) result ≡ zone text.now }
    ensures bound { IfSome result (λ found. IsWithin 1439 found.0) }
{
    match text {
        [] => Some((0, text)),
        [b'Z', rest @ ..] => Some((0, rest)),
        [b'+', rest @ ..] => {
            let (ahead, rest) = minutes(rest)?;
            Some((ahead as i64, rest))
        }
        [b'-', rest @ ..] => {
            let (behind, rest) = minutes(rest)?;
            Some((-(behind as i64), rest))
        }
        _ => None,
    }
}

/// A time, in milliseconds from the day's first moment in UTC.
fn time(text: &[u8]) -> Option<(i64, &[u8])>
    ensures value { option_map (λ found. (found.0, found.1.now)) result ≡ time text.now }
    ensures bound { IfSome result (λ found. IsWithin 172_800_000 found.0) }
{
    let (minutes, text) = minutes(text)?;
    let (seconds, text) = seconds_after_colon(text)?;
    let (ahead, text) = zone(text)?;
    let local = 60_000 * minutes + seconds.unwrap_or(0);
    Some((in_utc(local, ahead), text))
}

/// A local time in UTC, which it is so many minutes ahead of. Both times are in milliseconds from the same moment.
fn in_utc(local: u64, ahead: i64) -> i64
    requires local { local < 86_400_000 }
    requires ahead { IsWithin 1439 ahead }
    ensures value { result ≡ pos local -ℤ (pos 60000 *ℤ ahead) }
    ensures bound { IsWithin 172_800_000 result }
{
    local as i64 - 60_000 * ahead
}

/// A time behind a `T`, if one is there, in milliseconds from the day's first moment in UTC.
pub fn time_after_letter(text: &[u8]) -> Option<(Option<i64>, &[u8])>
    ensures value { option_map (λ found. (found.0, found.1.now)) result ≡ after 84 time text.now }
    ensures bound { IfSome result (λ found. IsWithin 172_800_000 (unwrap_or found.0 (pos 0))) }
{
    match text {
        [b'T', rest @ ..] => {
            let (milliseconds, rest) = time(rest)?;
            Some((Some(milliseconds), rest))
        }
        _ => Some((None, text)),
    }
}
