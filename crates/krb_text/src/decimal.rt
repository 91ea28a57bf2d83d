//! Decimal numbers.

ghost use Rattle.std.specs.Prelude.{◌≡◌};
ghost use Rattle.std.specs.Char.{is_ascii_digit};
ghost use Rattle.std.specs.List.{list_all};
ghost use Rattle.krb_text.specs.Decimals.{is_decimal, decimal_up_to};

fn is_decimal(text: &[u8]) -> bool
    ensures { result ≡ is_decimal text.now }
{
    match text {
        [] => false,
        [b'0', rest @ ..] => rest.is_empty(),
        [first, rest @ ..] => first.is_ascii_digit() && are_digits(rest),
    }
}

fn are_digits(text: &[u8]) -> bool
    ensures { result ≡ list_all is_ascii_digit text.now }
{
    text.iter().all(|b| b.is_ascii_digit())
}

/// Returns the decimal number, if it is at most `limit`.
pub fn decimal_up_to(limit: u64, text: &[u8]) -> Option<u64>
    ensures { result ≡ decimal_up_to limit text.now }
{
    if !is_decimal(text) {
        return None;
    }
    let limit = u128::from(limit);
    let mut value = 0u128;
    for digit in text {
        value = value * 10 + u128::from(*digit - b'0');
        if value > limit {
            return None;
        }
    }
    Some(value as u64)
}
