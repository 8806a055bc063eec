//! Bytes in a text.

ghost use Rattle.std.specs.Prelude.{◌≡◌, ◌<◌, ◌%◌, IfOk, IsSome, None, OnErr, Some, if◌then◌else◌, length, option_map, true};
ghost use Rattle.std.specs.List.{list_all};
ghost use Rattle.std.specs.Result.{result_ok};
ghost use Rattle.hex.specs.Hex.{decode_of, hex_digit_value};
ghost use Rattle.text.specs.Bytes.{hex_bytes, is_lower_digit};
ghost use Rattle.text.specs.Text.{hex_digit};

use std::alloc::{AllocError, Global};

/// Is it a hexadecimal digit, in lower case?
pub(crate) fn is_lower_digit(byte: u8) -> bool
    ensures { result ≡ is_lower_digit byte }
{
    matches!(byte, b'0'..=b'9' | b'a'..=b'f')
}

/// The value of a digit in lower case: `0` to `9` are 30h to 39h, and `a` to `f` are 61h to 66h.
pub(crate) fn digit_value(byte: u8) -> u8
    ensures value { is_lower_digit byte ≡ true → hex_digit byte ≡ Some result }
    ensures decoded { is_lower_digit byte ≡ true → hex_digit_value byte ≡ Some result }
    ensures small { result < 16 }
{
    (byte % 16 + byte / 64 * 9) % 16
}

fn has_lower_digits(text: &[u8]) -> bool
    ensures { result ≡ list_all is_lower_digit text.now }
{
    text.iter().all(|byte| is_lower_digit(*byte))
}

/// The bytes of digits in lower case, pair by pair. None where one is no such digit, which is asked once, behind the last:
/// so no digit waits for the test of another.
fn decoded(alloc: Global, text: &[u8]) -> Result<Option<Vec<u8>>, AllocError>
    requires { length text.now % 2 ≡ 0 }
    ensures { IfOk result (λ decoded. option_map (λ bytes. bytes.items) decoded ≡ (if list_all is_lower_digit text.now then result_ok (decode_of text.now) else None)) }
{
    let mut bytes = Vec::with_capacity(alloc, text.len() / 2)?;
    let mut are_digits = true;
    for place in 0..text.len() / 2 {
        let (high, low) = (text[2 * place], text[2 * place + 1]);
        are_digits &= is_lower_digit(high) & is_lower_digit(low);
        bytes.push_reserved(digit_value(high) * 16 + digit_value(low));
    }
    if are_digits {
        Ok(Some(bytes))
    } else {
        Ok(None)
    }
}

/// Whole bytes in lower-case hexadecimal, one at least. There is no limit to how many.
///
/// # Errors
///
/// Where memory was refused, at no other texts than these.
#[tactic(auto, using(crate::proofs::Decoding::decodes))]
pub fn hex_bytes(alloc: Global, text: &[u8]) -> Result<Option<Vec<u8>>, AllocError>
    ensures value { IfOk result (λ read. option_map (λ bytes. bytes.items) read ≡ hex_bytes text.now) }
    ensures refused { OnErr result (IsSome (hex_bytes text.now)) }
{
    if text.is_empty() || text.len() % 2 != 0 {
        return Ok(None);
    }
    match decoded(alloc, text) {
        Ok(bytes) => Ok(bytes),
        Err(refusal) if has_lower_digits(text) => Err(refusal),
        // Want of memory never stands for a fault.
        Err(_) => Ok(None),
    }
}
