//! Decimal digits.
ghost use Rattle.std.specs.Prelude.{◌≡◌, ◌≤◌, ◌<◌, ◌^◌, length, Some, None, IfSome, if◌then◌else◌};
ghost use Rattle.std.specs.List.{list_all};
ghost use Rattle.std.specs.Char.{is_ascii_digit};
ghost use Rattle.std.specs.Str.Parse.{digits_value};

/// The number that the bytes write, if they are digits. No digits write 0.
pub fn value_of(digits: &[u8]) -> Option<u64>
    requires { length digits.now ≤ 19 }
    ensures value { result ≡ (if list_all is_ascii_digit digits.now then Some (digits_value 10 digits.now) else None) }
    ensures bound { IfSome result (λ number. number < 10 ^ length digits.now) }
{
    let mut number = 0u64;
    for digit in digits {
        if !digit.is_ascii_digit() {
            return None;
        }
        number = number * 10 + (*digit - b'0') as u64;
    }
    Some(number)
}
