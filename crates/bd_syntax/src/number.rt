//! Numbers.

ghost use Rattle.std.specs.Prelude.{◌≡◌, ◌≤◌, ◌&&◌, true, Some, None, nat_le, if◌then◌else◌, IfSome};
ghost use Rattle.std.specs.List.{list_all};
ghost use Rattle.bd_model.specs.Name.{is_digit};
ghost use Rattle.bd_syntax.specs.Reading.{is_number, number_of};

/// Whether each byte is a decimal digit.
fn are_digits(text: &[u8]) -> bool
    ensures { result ≡ list_all is_digit text.now }
{
    text.iter().all(|byte| byte.is_ascii_digit())
}

/// Whether they are decimal digits without a leading zero, 0 itself aside.
fn is_decimal(text: &[u8]) -> bool
    ensures { result ≡ is_number text.now }
{
    match text.split_first() {
        Some((first, rest)) => {
            first.is_ascii_digit() && are_digits(rest) && (*first != b'0' || rest.is_empty())
        }
        None => false,
    }
}

/// The number that digits write, if it's at most so much.
fn value_within(digits: &[u8], most: u64) -> Option<u64>
    requires { list_all is_digit digits.now ≡ true }
    ensures exact { result
        ≡ (if nat_le (number_of digits.now) most then Some (number_of digits.now) else None) }
    ensures within { IfSome result (λ n. n ≤ most) }
{
    let mut value: u64 = 0;
    for digit in digits {
        let tens = value.checked_mul(10)?;
        value = tens.checked_add(u64::from(digit - b'0'))?;
        if value > most {
            return None;
        }
    }
    Some(value)
}

/// The number that a text is, if it's one of at most so much.
pub fn number_within(text: &[u8], most: u64) -> Option<u64>
    ensures exact { result
        ≡ (if is_number text.now && nat_le (number_of text.now) most
        then Some (number_of text.now) else None) }
    ensures within { IfSome result (λ n. n ≤ most) }
{
    if is_decimal(text) {
        value_within(text, most)
    } else {
        None
    }
}
