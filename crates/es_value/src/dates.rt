//! Texts of dates.
ghost use Rattle.std.specs.Prelude.{◌≡◌, ◌<◌, pos, ◌+ℤ◌, ◌*ℤ◌, [], Some, None, IfSome, if◌then◌else◌};
ghost use Rattle.std.specs.Option.{unwrap_or};
ghost use Rattle.jiff_core.specs.Calendar.{IsWithin, IsEpochDay, days_from_civil};
ghost use Rattle.es_value.specs.Dates.{date_of, date, said, is_day, on_a_day, moment_if};

use crate::numbers::read_number;
use crate::parts::{digits, time_after_letter, two_digits_after_hyphen};
use jiff_core::civil::Date;

/// The moment that a text says, in milliseconds since 1970 in UTC.
///
/// A date is `yyyy`, `yyyy-MM` or `yyyy-MM-dd`, which say their first moment, or `yyyy-MM-dd`, `T` and `HH:mm`, then perhaps
/// `:ss`, then perhaps `.` and 1 to 3 digits, then `Z`, `+HH:mm`, `-HH:mm` or nothing, which is UTC. Any other text of an
/// optional `-` and 1 to 19 digits is a number of milliseconds within 64 bits. It takes no memory.
#[tactic(auto, unfolding(crate::specs::Dates::date_of))]
pub fn read_date(text: &str) -> Option<i64>
    ensures { result ≡ date_of text.now }
{
    match date(text.as_bytes()) {
        Some(moment) => Some(moment),
        None => read_number(text),
    }
}

fn date(text: &[u8]) -> Option<i64>
    ensures { result ≡ said (date text.now) }
{
    let (year, text) = digits(4, text)?;
    let (month, text) = two_digits_after_hyphen(text)?;
    let (day, text) = two_digits_after_hyphen(text)?;
    let (time, text) = time_after_letter(text)?;
    if !text.is_empty() {
        return None;
    }
    moment(year, month, day, time)
}

/// The moment of what a text says of it, in milliseconds since 1970 in UTC.
fn moment(year: u64, month: Option<u64>, day: Option<u64>, time: Option<i64>) -> Option<i64>
    requires year { year < 10_000 }
    requires month { unwrap_or month 1 < 100 }
    requires day { unwrap_or day 1 < 100 }
    requires time { IsWithin 172_800_000 (unwrap_or time (pos 0)) }
    ensures { result ≡ said (moment_if year month day time []) }
{
    if !is_on_a_day(day, time) {
        return None;
    }
    let epoch_day = epoch_day(year, month.unwrap_or(1), day.unwrap_or(1))?;
    Some(moment_on(epoch_day, time.unwrap_or(0)))
}

/// Whether a time stands behind a day alone.
fn is_on_a_day(day: Option<u64>, time: Option<i64>) -> bool
    ensures { result ≡ on_a_day day time }
{
    day.is_some() || time.is_none()
}

/// The moment of a time on a day, in milliseconds. The day is a number of days since 1970-01-01.
fn moment_on(epoch_day: i32, time: i64) -> i64
    requires day { IsEpochDay epoch_day }
    requires time { IsWithin 172_800_000 time }
    ensures { result ≡ (pos 86400000 *ℤ epoch_day) +ℤ time }
{
    86_400_000 * epoch_day as i64 + time
}

/// The days since 1970-01-01, if the calendar has this day.
fn epoch_day(year: u64, month: u64, day: u64) -> Option<i32>
    requires year { year < 10_000 }
    requires month { month < 100 }
    requires day { day < 100 }
    ensures value { result ≡ (if is_day year month day then Some (days_from_civil (pos year) month day) else None) }
    ensures bound { IfSome result IsEpochDay }
{
    match Date::new(year as i16, month as i8, day as i8) {
        Ok(date) => Some(date.to_unix_epoch_day()),
        Err(_) => None,
    }
}
