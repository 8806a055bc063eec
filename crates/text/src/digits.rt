//! Numbers and IDs in a text.

ghost use Rattle.std.specs.Prelude.{◌≡◌, ℕ, ◌<◌, ◌≤◌, ◌^◌, length, IfSome};
ghost use Rattle.text.specs.Text.{decimal_digit, hex_digit, digits, decimal, wide_decimal, hexadecimal, hex_pair, id_of_known, id_of_parts, id_at};

use crate::bytes::{digit_value, is_lower_digit};
use fab_types::Bdf;

fn decimal_digit(byte: u8) -> Option<u8>
    ensures value { result ≡ decimal_digit byte }
    ensures small { IfSome result (λ digit. digit < 10) }
{
    if b'0' <= byte && byte <= b'9' {
        Some(byte - b'0')
    } else {
        None
    }
}

/// A hexadecimal digit, in lower case.
#[tactic(auto, using(crate::proofs::TextLemmas::no_digit))]
fn hex_digit(byte: u8) -> Option<u8>
    ensures value { result ≡ hex_digit byte }
    ensures small { IfSome result (λ digit. digit < 16) }
{
    if is_lower_digit(byte) {
        Some(digit_value(byte))
    } else {
        None
    }
}

/// Twenty digits fit in 128 bits with room to spare.
fn decimal_value(text: &[u8]) -> Option<u128>
    requires { length text.now ≤ 20 }
    ensures value { result ≡ digits decimal_digit 10 0 text.now }
    ensures small { IfSome result (λ value. value < 10 ^ length text.now) }
{
    let mut value: u128 = 0;
    for byte in text {
        match decimal_digit(*byte) {
            Some(digit) => value = value * 10 + u128::from(digit),
            None => return None,
        }
    }
    Some(value)
}

fn hex_value(text: &[u8]) -> Option<u64>
    requires { length text.now ≤ 16 }
    ensures value { result ≡ digits hex_digit 16 0 text.now }
    ensures small { IfSome result (λ value. value < 16 ^ length text.now) }
{
    let mut value: u64 = 0;
    for byte in text {
        match hex_digit(*byte) {
            Some(digit) => value = value * 16 + u64::from(digit),
            None => return None,
        }
    }
    Some(value)
}

/// A number of one to nine decimal digits. Leading zeros are allowed.
#[tactic(auto, unfolding(crate::specs::Text::decimal))]
pub fn decimal(text: &[u8]) -> Option<u32>
    ensures { result ≡ decimal text.now }
{
    if 1 <= text.len() && text.len() <= 9 {
        Some(decimal_value(text)? as u32)
    } else {
        None
    }
}

/// A number of 64 bits, in one to twenty decimal digits. Leading zeros are allowed.
#[tactic(auto, unfolding(crate::specs::Text::wide_decimal))]
pub fn wide_decimal(text: &[u8]) -> Option<u64>
    ensures { result ≡ wide_decimal text.now }
{
    if 1 <= text.len() && text.len() <= 20 {
        u64::try_from(decimal_value(text)?).ok()
    } else {
        None
    }
}

/// A number of `least` to `most` hexadecimal digits in lower case.
#[tactic(auto, unfolding(crate::specs::Text::hexadecimal))]
pub fn hexadecimal(text: &[u8], least: usize, most: usize) -> Option<u64>
    requires { most ≤ 16 }
    ensures value { result ≡ hexadecimal least most text.now }
    ensures small { IfSome result (λ value. value < 16 ^ most) }
{
    if least <= text.len() && text.len() <= most {
        hex_value(text)
    } else {
        None
    }
}

/// A number of two hexadecimal digits.
pub fn hex_byte(text: &[u8]) -> Option<u8>
    ensures { result ≡ hexadecimal 2 2 text.now }
{
    match hexadecimal(text, 2, 2) {
        Some(value) => Some(value as u8),
        None => None,
    }
}

/// A number of eight hexadecimal digits.
pub fn hex_word(text: &[u8]) -> Option<u32>
    ensures { result ≡ hexadecimal 8 8 text.now }
{
    match hexadecimal(text, 8, 8) {
        Some(value) => Some(value as u32),
        None => None,
    }
}

fn hex_pair(high: u8, low: u8) -> Option<u8>
    ensures { result ≡ hex_pair high low }
{
    let high = hex_digit(high)?;
    let low = hex_digit(low)?;
    Some(high * 16 + low)
}

fn id_of_known(bus: u8, device: u8, function: u8) -> Option<Bdf>
    ensures { result ≡ id_of_known bus device function }
{
    Bdf::new(bus, device, function)
}

fn id_of_parts(bus: Option<u8>, device: Option<u8>, function: Option<u8>) -> Option<Bdf>
    ensures { result ≡ id_of_parts bus device function }
{
    id_of_known(bus?, device?, function?)
}

/// An ID, as `03:00.0`.
#[tactic(auto, unfolding(crate::specs::Text::id_at))]
pub fn id(text: &[u8]) -> Option<Bdf>
    ensures { result ≡ id_at text.now }
{
    if text.len() == 7 && text[2] == b':' && text[5] == b'.' {
        id_of_parts(
            hex_pair(text[0], text[1]),
            hex_pair(text[3], text[4]),
            hex_digit(text[6]),
        )
    } else {
        None
    }
}
