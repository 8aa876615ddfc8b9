//! Numbers as lines and options write them.

ghost use Rattle.std.specs.Prelude.{◌≡◌, ◌+◌, ◌-◌, ◌*◌, ◌<◌, ◌≤◌, true, IfSome, IfNone};
ghost use Rattle.std.specs.Char.{is_ascii_digit};
ghost use Rattle.std.specs.Option.{ForSome};
ghost use Rattle.std.specs.Str.{all_ascii_digits};
ghost use Rattle.std.specs.Str.Parse.{digits_value};
ghost use Rattle.shell_words.specs.Number.{leading_zero, number_to};

/// The number from 0 to `most` that the text writes in decimal without leading zeros, if it writes one.
pub fn read_number(text: &str, most: u64) -> Option<u64>
    ensures read { result ≡ number_to most text.now }
    ensures bound { ForSome result (λ number. number ≤ most) }
{
    if text.is_empty() || has_leading_zero(text) {
        return None;
    }
    digits_read(text.as_bytes(), most)
}

// The number from 0 to `most` that the bytes write in decimal, if all are digits. Rust's own reading goes by any radix, and would
// take a plus.
fn digits_read(bytes: &[u8], most: u64) -> Option<u64>
    ensures read { IfSome result (λ number. (all_ascii_digits bytes.now ≡ true) × (number ≡ digits_value 10 bytes.now)) }
    ensures bound { ForSome result (λ number. number ≤ most) }
    ensures none { IfNone result (all_ascii_digits bytes.now ≡ true → most < digits_value 10 bytes.now) }
{
    let mut number = 0;
    for byte in bytes {
        number = with_digit(number, *byte, most)?;
    }
    Some(number)
}

// The number with this digit behind it, if the byte is a digit and the number is at most so large then.
fn with_digit(number: u64, byte: u8, most: u64) -> Option<u64>
    ensures read { IfSome result (λ more. (is_ascii_digit byte ≡ true) × (more ≡ number * 10 + (byte - 48))) }
    ensures bound { IfSome result (λ more. more ≤ most) }
    ensures none { IfNone result (is_ascii_digit byte ≡ true → most < number * 10 + (byte - 48)) }
{
    if !byte.is_ascii_digit() {
        return None;
    }
    let more = number.checked_mul(10)?.checked_add(u64::from(byte - b'0'))?;
    if more <= most { Some(more) } else { None }
}

// Whether a zero stands first and more follows.
fn has_leading_zero(text: &str) -> bool
    ensures { result ≡ leading_zero text.now }
{
    text.starts_with('0') && text.len() > 1
}
