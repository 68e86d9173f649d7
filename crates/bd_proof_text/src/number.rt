//! Numbers in decimal.
ghost use Rattle.std.specs.Prelude.{◌≡◌, true, Some, None, nat_le, if◌then◌else◌};
ghost use Rattle.std.specs.List.{list_all};
ghost use Rattle.bd_proof_text.specs.Tokens.{decimal_value, is_decimal, is_digit, size_of};

/// The number that the digits of a token write, if it's at most 2^64 - 1.
pub(crate) fn size_of(text: &[u8]) -> Option<u64>
    ensures { result ≡ size_of text.now }
{
    if is_decimal(text) {
        value_of(text)
    } else {
        None
    }
}

/// Whether bytes are decimal digits without a leading zero, 0 itself aside.
fn is_decimal(text: &[u8]) -> bool
    ensures { result ≡ is_decimal text.now }
{
    match text.split_first() {
        Some((first, rest)) => {
            first.is_ascii_digit() && are_digits(rest) && (*first != b'0' || rest.is_empty())
        }
        None => false,
    }
}

/// Whether each byte is a decimal digit.
fn are_digits(text: &[u8]) -> bool
    ensures { result ≡ list_all is_digit text.now }
{
    text.iter().all(|byte| byte.is_ascii_digit())
}

/// The number that digits write, if it fits.
fn value_of(digits: &[u8]) -> Option<u64>
    requires { list_all is_digit digits.now ≡ true }
    ensures { result ≡ (if nat_le (decimal_value digits.now) 18446744073709551615
        then Some (decimal_value digits.now) else None) }
{
    let mut value: u64 = 0;
    for digit in digits {
        let tens = value.checked_mul(10)?;
        value = tens.checked_add(u64::from(digit - b'0'))?;
    }
    Some(value)
}
