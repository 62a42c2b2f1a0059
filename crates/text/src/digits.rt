//! Writing numbers and bytes in digits.

ghost use Rattle.std.specs.Prelude.{◌≡◌, ◌<◌, ◌+◌, ◌*◌, ◌++◌, ◌∷◌, [], true, codes, length, take};
ghost use Rattle.std.specs.Prelude.{OnErr, OnOk};
ghost use Rattle.std.specs.Fmt.{decimal, digit_glyph};
ghost use Rattle.at_base.specs.Texts.{address_text};
ghost use Rattle.text.specs.Digits.{hex_text};

use at_base::Addr;
use std::alloc::AllocError;

/// Appends the last digit of a number that begins at `start`. Error: `AllocError`; the text then ends
/// where the number began.
fn put_next(text: &mut Vec<u8>, start: usize, digit: u8) -> Result<(), AllocError>
    ensures ok { OnOk result (text.new.items ≡ text.old.items ++ digit ∷ []) }
    ensures cut { OnErr result (text.new.items ≡ take start text.old.items) }
{
    match text.push(digit) {
        Ok(()) => Ok(()),
        Err(_) => {
            text.truncate(start);
            Err(AllocError)
        }
    }
}

/// The decimal digit of a place.
fn digit(value: u32) -> u8
    requires { value < 10 }
    ensures { result ≡ 48 + value }
{
    b'0' + value as u8
}

/// Appends a number in decimal. Error: `AllocError`; the text then stays as it was. The digits of
/// numbers below 100,000 are appended at once, since most numbers are short.
#[tactic(auto, using(std::proofs::lemmas::Fmt::decimal_digit, crate::proofs::InDigits::two_digits, crate::proofs::InDigits::three_digits, crate::proofs::InDigits::four_digits, crate::proofs::InDigits::five_digits))]
pub fn put_decimal(text: &mut Vec<u8>, number: u32) -> Result<(), AllocError>
    ensures ok { OnOk result (text.new.items ≡ text.old.items ++ decimal number) }
    ensures kept { OnErr result (text.new.items ≡ text.old.items) }
{
    let ones = digit(number % 10);
    if number < 10 {
        return text.extend_from_slice(&[ones]);
    }
    let tens = digit(number / 10 % 10);
    if number < 100 {
        return text.extend_from_slice(&[tens, ones]);
    }
    let hundreds = digit(number / 100 % 10);
    if number < 1000 {
        return text.extend_from_slice(&[hundreds, tens, ones]);
    }
    let thousands = digit(number / 1000 % 10);
    if number < 10_000 {
        return text.extend_from_slice(&[thousands, hundreds, tens, ones]);
    }
    if number < 100_000 {
        let first = digit(number / 10_000);
        return text.extend_from_slice(&[first, thousands, hundreds, tens, ones]);
    }
    let start = text.len();
    put_decimal(text, number / 10)?;
    put_next(text, start, ones)
}

/// A hexadecimal digit, in upper case.
fn hex_digit(value: u8) -> u8
    requires { value < 16 }
    ensures { result ≡ digit_glyph true value }
{
    if value < 10 {
        b'0' + value
    } else {
        b'A' - 10 + value
    }
}

/// Writes bytes as pairs of hexadecimal digits.
fn write_hex(out: &mut [u8], bytes: &[u8])
    requires { length out.old ≡ 2 * length bytes.now }
    ensures { out.new ≡ hex_text bytes.now }
{
    for i in 0..bytes.len() {
        let byte = bytes[i];
        out[2 * i] = hex_digit(byte / 16);
        out[2 * i + 1] = hex_digit(byte % 16);
    }
}

/// Appends bytes as pairs of hexadecimal digits, in upper case. Error: `AllocError`; the text then
/// stays as it was. Room is made first, so that the loop over the bytes has no branch for
/// allocation.
pub fn put_hex(text: &mut Vec<u8>, bytes: &[u8]) -> Result<(), AllocError>
    ensures ok { OnOk result (text.new.items ≡ text.old.items ++ hex_text bytes.now) }
    ensures kept { OnErr result (text.new.items ≡ text.old.items) }
{
    let start = text.len();
    let Some(end) = bytes
        .len()
        .checked_mul(2)
        .and_then(|twice| twice.checked_add(start))
    else {
        return Err(AllocError);
    };
    text.resize(end, 0)?;
    write_hex(&mut text[start..], bytes);
    Ok(())
}

/// Appends a dot and the number of a node. Error: `AllocError`; the text then stays as it was.
fn put_node(text: &mut Vec<u8>, node: u8) -> Result<(), AllocError>
    ensures ok { OnOk result (text.new.items ≡ text.old.items ++ codes "." ++ decimal node) }
    ensures kept { OnErr result (text.new.items ≡ text.old.items) }
{
    let start = text.len();
    text.push(b'.')?;
    match put_decimal(text, u32::from(node)) {
        Ok(()) => Ok(()),
        Err(error) => {
            text.truncate(start);
            Err(error)
        }
    }
}

/// Appends an address, as `10.7`. Error: `AllocError`; the text then stays as it was.
pub fn put_address(text: &mut Vec<u8>, address: Addr) -> Result<(), AllocError>
    ensures ok { OnOk result (text.new.items ≡ text.old.items ++ address_text address) }
    ensures kept { OnErr result (text.new.items ≡ text.old.items) }
{
    let start = text.len();
    put_decimal(text, u32::from(address.net))?;
    match put_node(text, address.node) {
        Ok(()) => Ok(()),
        Err(error) => {
            text.truncate(start);
            Err(error)
        }
    }
}
