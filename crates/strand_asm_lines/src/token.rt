ghost use Rattle.std.specs.Prelude.{◌≡◌, pos, neg_ℤ};
ghost use Rattle.std.specs.Option.{option_map};
ghost use Rattle.strand_asm_lines.specs.Token.{digit_of, two_digits, short_number, register_by_letter, named, numbered_register, register_of, negative_of, number_of, bracketed, offset_of};

use crate::bytes::cut;
use strand_base::{read_decimal, read_hex};

fn digit(b: u8) -> Option<u8>
    ensures { result ≡ digit_of b }
{
    if b.is_ascii_digit() {
        Some(b - b'0')
    } else {
        None
    }
}

#[tactic(auto, unfolding(crate::specs::Token::two_digits))]
fn two_digits(first: u8, second: u8) -> Option<u8>
    ensures { result ≡ two_digits first second }
{
    let tens = digit(first)?;
    let units = digit(second)?;
    if tens == 0 {
        None
    } else {
        Some(10 * tens + units)
    }
}

fn short_number(text: &[u8]) -> Option<u8>
    ensures { result ≡ short_number text.now }
{
    if text.len() == 1 {
        digit(text[0])
    } else if text.len() == 2 {
        two_digits(text[0], text[1])
    } else {
        None
    }
}

fn numbered(letter: u8, n: u8) -> Option<u8>
    ensures { result ≡ register_by_letter letter n }
{
    if letter == b'x' {
        if n < 32 { Some(n) } else { None }
    } else if letter == b'a' {
        if n < 8 { Some(10 + n) } else { None }
    } else if letter == b's' {
        if n < 2 {
            Some(8 + n)
        } else if n < 12 {
            Some(16 + n)
        } else {
            None
        }
    } else if letter == b't' {
        if n < 3 {
            Some(5 + n)
        } else if n < 7 {
            Some(25 + n)
        } else {
            None
        }
    } else {
        None
    }
}

fn named(text: &[u8]) -> Option<u8>
    ensures { result ≡ named text.now }
{
    if text == b"zero".as_slice() {
        Some(0)
    } else if text == b"ra".as_slice() {
        Some(1)
    } else if text == b"sp".as_slice() {
        Some(2)
    } else if text == b"gp".as_slice() {
        Some(3)
    } else if text == b"tp".as_slice() {
        Some(4)
    } else if text == b"fp".as_slice() {
        Some(8)
    } else {
        None
    }
}

#[tactic(auto, unfolding(crate::specs::Token::numbered_register))]
fn numbered_register(text: &[u8]) -> Option<u8>
    ensures { result ≡ numbered_register text.now }
{
    if text.is_empty() {
        return None;
    }
    let n = short_number(text.split_at(1).1)?;
    numbered(text[0], n)
}

/// The number of the register that a text names.
#[tactic(auto, unfolding(crate::specs::Token::register_of))]
pub(crate) fn register(text: &[u8]) -> Option<u8>
    ensures { result ≡ register_of text.now }
{
    match named(text) {
        Some(n) => Some(n),
        None => numbered_register(text),
    }
}

#[tactic(auto, unfolding(crate::specs::Token::negative_of))]
fn negative(digits: &[u8]) -> Option<i128>
    ensures { result ≡ negative_of digits.now }
{
    let n = read_decimal(digits).ok()?;
    if n <= 1 << 63 {
        Some(-i128::from(n))
    } else {
        None
    }
}

/// The number that a text writes, from -2^63 to 2^64 - 1.
#[tactic(auto, unfolding(crate::specs::Token::number_of))]
pub(crate) fn number(text: &[u8]) -> Option<i128>
    ensures { result ≡ number_of text.now }
{
    if text.len() >= 2 && text[0] == b'0' && text[1] == b'x' {
        read_hex(text.split_at(2).1).ok().map(i128::from)
    } else if !text.is_empty() && text[0] == b'-' {
        negative(text.split_at(1).1)
    } else {
        read_decimal(text).ok().map(i128::from)
    }
}

/// What stands before the one `(` of a text, and between it and the one `)` at its end.
pub(crate) fn bracketed(text: &[u8]) -> Option<(&[u8], &[u8])>
    ensures { option_map (λ x. (x.0.now, x.1.now)) result ≡ bracketed text.now }
{
    let (front, end) = cut(text, b')')?;
    if !end.is_empty() {
        return None;
    }
    let (offset, base) = cut(front, b'(')?;
    match cut(base, b'(') {
        Some(_) => None,
        None => Some((offset, base)),
    }
}

/// The offset of a place in memory, which is 0 where none is written.
pub(crate) fn offset(text: &[u8]) -> Option<i128>
    ensures { result ≡ offset_of text.now }
{
    if text.is_empty() {
        Some(0)
    } else {
        number(text)
    }
}
