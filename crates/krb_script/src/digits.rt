//! Octets by their hex digits. All digits are looked at first, so each loop has one way through it.

ghost use Rattle.std.specs.Prelude.{◌≡◌, ◌*◌, ◌<◌, ◌&&◌, length, fold, Ok, Some, true};
ghost use Rattle.std.specs.List.{list_all};
ghost use Rattle.std.specs.Result.{result_ok};
ghost use Rattle.hex.specs.Hex.{is_hex_digit, hex_digit_value, decode_pairs, decode_of};
ghost use Rattle.krb_script.specs.Digits.{are_pairs};
ghost use Rattle.krb_script.specs.Gives.{Gives};

use crate::fields::FieldError;
use krb_der::Octets;
use std::alloc::Global;

/// Returns whether an octet is a hex digit of either case.
fn is_digit(octet: u8) -> bool
    ensures { result ≡ is_hex_digit octet }
{
    matches!(octet, b'0'..=b'9' | b'A'..=b'F' | b'a'..=b'f')
}

/// Returns whether all octets are hex digits. Looks at each octet, whatever the octets before it are.
fn is_each_digit(text: &[u8]) -> bool
    ensures { result ≡ fold (λ all octet. all && is_hex_digit octet) true text.now }
{
    text.iter().fold(true, |all, octet| all & is_digit(*octet))
}

#[tactic(auto, using(crate::proofs::DigitLemmas::all_digits))]
fn are_digits(text: &[u8]) -> bool
    ensures { result ≡ list_all is_hex_digit text.now }
{
    is_each_digit(text)
}

/// Returns the value of a digit: bit 6 is set for a letter, whose low four bits count from 1.
#[tactic(auto, using(crate::proofs::DigitLemmas::value_of))]
fn digit_value(digit: u8) -> u8
    requires { is_hex_digit digit ≡ true }
    ensures value { hex_digit_value digit ≡ Some result }
    ensures bound { result < 16 }
{
    digit % 16 + 9 * (digit / 64)
}

/// Reads each two digits as an octet.
pub(crate) fn fill(text: &[u8], octets: &mut [u8])
    requires digits { list_all is_hex_digit text.now ≡ true }
    requires twice { length text.now ≡ 2 * length octets.old }
    ensures { decode_pairs 0 text.now ≡ Ok octets.new }
{
    'octets: for i in 0..octets.len() {
        octets[i] = digit_value(text[2 * i]) * 16 + digit_value(text[2 * i + 1]);
    }
}

pub(crate) fn are_pairs(text: &[u8]) -> bool
    ensures { result ≡ are_pairs text.now }
{
    text.len() % 2 == 0 && are_digits(text)
}

/// Decodes pairs of hex digits of either case, of which there may be none.
#[tactic(auto, using(crate::proofs::DigitLemmas::decoded, crate::proofs::DigitLemmas::not_decoded, crate::proofs::DigitLemmas::all_of, crate::proofs::DigitLemmas::even_of))]
pub(crate) fn decode(alloc: Global, text: &[u8]) -> Result<Octets, FieldError>
    ensures { Gives (result_ok (decode_of text.now)) result }
{
    if !are_pairs(text) {
        return Err(FieldError::Bad);
    }
    let mut octets = vec![in alloc; 0u8; text.len() / 2]?;
    fill(text, octets.as_mut_slice());
    Ok(Octets::new(octets))
}
