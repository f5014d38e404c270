//! Durations: how long a key lasts.
ghost use Rattle.std.specs.Prelude.{◌≡◌, ◌≤◌, ◌*◌, true, Some, take, drop, IsTrue};
ghost use Rattle.std.specs.List.{list_all};
ghost use Rattle.std.specs.Option.{IfSome};
ghost use Rattle.std.specs.Char.{is_ascii_digit};
ghost use Rattle.std.specs.Str.Parse.{digits_value};
ghost use Rattle.es_request.specs.Keys.{longest, unit_of, first_counts, is_number, if_not_longer, duration_of, digits_in, duration_in};

/// The longest duration, in milliseconds.
const LONGEST: u64 = 1_000_000_000_000_000;

/// The milliseconds that a text says: 1 to 15 digits, of which the first isn't `0`, and behind them `ms`, `s`, `m`, `h` or
/// `d`; at most 1,000,000,000,000,000 milliseconds. It takes no memory.
#[tactic(auto, unfolding(crate::specs::Keys::duration_in))]
pub(crate) fn duration_in(text: &str) -> Option<u64>
    ensures { result ≡ duration_in text.now }
{
    let (digits, unit) = cut(text.as_bytes());
    match unit_of(unit) {
        Some(unit) => duration_of(digits, unit),
        None => None,
    }
}

/// The digits in front, and what is behind them.
fn cut(text: &[u8]) -> (&[u8], &[u8])
    ensures digits { result.0.now ≡ take (digits_in text.now) text.now }
    ensures are_digits { list_all is_ascii_digit result.0.now ≡ true }
    ensures unit { result.1.now ≡ drop (digits_in text.now) text.now }
{
    text.split_at(digits_in(text))
}

/// How many digits stand in front.
fn digits_in(text: &[u8]) -> usize
    ensures { result ≡ digits_in text.now }
{
    for (at, byte) in text.iter().enumerate() {
        if !byte.is_ascii_digit() {
            return at;
        }
    }
    text.len()
}

/// How many milliseconds the unit has.
fn unit_of(unit: &[u8]) -> Option<u64>
    ensures { result ≡ unit_of unit.now }
{
    if unit == b"ms".as_slice() {
        Some(1)
    } else if unit == b"s".as_slice() {
        Some(1000)
    } else if unit == b"m".as_slice() {
        Some(60_000)
    } else if unit == b"h".as_slice() {
        Some(3_600_000)
    } else if unit == b"d".as_slice() {
        Some(86_400_000)
    } else {
        None
    }
}

/// So many units, if that is no longer than the longest duration.
fn duration_of(digits: &[u8], unit: u64) -> Option<u64>
    requires { list_all is_ascii_digit digits.now ≡ true }
    ensures { result ≡ duration_of digits.now (Some unit) }
{
    if !is_number(digits) {
        return None;
    }
    product(number_of(digits), unit)
}

/// So many units, if that is no longer than the longest duration.
fn product(number: u64, unit: u64) -> Option<u64>
    ensures { result ≡ if_not_longer (number * unit) }
{
    match number.checked_mul(unit) {
        Some(duration) => if_not_longer(duration),
        None => None,
    }
}

fn if_not_longer(duration: u64) -> Option<u64>
    ensures { result ≡ if_not_longer duration }
{
    if duration <= LONGEST {
        Some(duration)
    } else {
        None
    }
}

/// Whether they are 1 to 15, and the first isn't `0`.
fn is_number(digits: &[u8]) -> bool
    ensures { result ≡ is_number digits.now }
{
    first_counts(digits) && digits.len() <= 15
}

fn first_counts(digits: &[u8]) -> bool
    ensures { result ≡ first_counts digits.now }
{
    match digits {
        [] => false,
        [first, ..] => *first != b'0',
    }
}

/// The number that the digits write.
fn number_of(digits: &[u8]) -> u64
    requires are_digits { list_all is_ascii_digit digits.now ≡ true }
    requires is_number { is_number digits.now ≡ true }
    ensures { result ≡ digits_value 10 digits.now }
{
    let mut number = 0u64;
    for byte in digits {
        number = number * 10 + (*byte - b'0') as u64;
    }
    number
}
