// The text of a certificate.
ghost use Rattle.std.specs.Prelude.{◌≡◌, ◌^◌, ◌<◌, length, Ok};
ghost use Rattle.strand_base.specs.Text.{words_of};
ghost use Rattle.strand_inputs.specs.Reading.{on_words, GivesInput};
ghost use Rattle.strand_refute.specs.Grammar.{event_or_first, single_of, pair_of, raw_line_of, event_number, event_number_or_none, line_of, with_line, line_added, certificate_of};

use crate::certificate::{Certificate, Ending, Forced, Reason};
use crate::limits::MOST_CERTIFICATE_LINES;
use std::alloc::Global;
use strand_base::{content, next_line, next_word, read_decimal, read_hex16};
use strand_inputs::InputFault;

/// What the words of a line say, before its numbers are looked at.
#[derive(Clone, Copy)]
enum RawLine {
    Joined(u64),
    Order(u64, u64),
    Match(u64, Option<u64>),
    No(u64, Option<u64>),
}

/// A line of a certificate.
#[derive(Clone, Copy)]
enum Line {
    Forced(Forced),
    Ending(Ending),
}

/// An event, or `first` where there is none.
#[tactic(auto, unfolding(crate::specs::Grammar::event_or_first))]
fn event_or_first(word: &[u8]) -> Option<Option<u64>>
    ensures { result ≡ event_or_first word.now }
{
    if word == b"first".as_slice() {
        return Some(None);
    }
    let event = read_decimal(word).ok()?;
    Some(Some(event))
}

/// What a line of two words says.
#[tactic(auto, unfolding(crate::specs::Grammar::single_of))]
fn single_in(form: &[u8], a: &[u8]) -> Option<RawLine>
    ensures { result ≡ single_of form.now a.now }
{
    if form != b"joined".as_slice() {
        return None;
    }
    let event = read_decimal(a).ok()?;
    Some(RawLine::Joined(event))
}

/// What a line of three words says.
#[tactic(auto, unfolding(crate::specs::Grammar::pair_of))]
fn pair_in(form: &[u8], a: &[u8], b: &[u8]) -> Option<RawLine>
    ensures { result ≡ pair_of form.now a.now b.now }
{
    if form == b"order".as_slice() {
        let event = read_decimal(a).ok()?;
        let after = read_decimal(b).ok()?;
        Some(RawLine::Order(event, after))
    } else if form == b"match".as_slice() {
        let event = read_decimal(a).ok()?;
        let after = event_or_first(b)?;
        Some(RawLine::Match(event, after))
    } else if form == b"no".as_slice() {
        let word = read_hex16(a)?;
        let last = event_or_first(b)?;
        Some(RawLine::No(word, last))
    } else {
        None
    }
}

/// What the words of a line say.
fn raw_line_in(text: &[u8]) -> Option<RawLine>
    ensures { result ≡ raw_line_of (words_of text.now) }
{
    let (form, rest) = next_word(text)?;
    let (a, rest) = next_word(rest)?;
    let Some((b, rest)) = next_word(rest) else {
        return single_in(form, a);
    };
    if next_word(rest).is_some() {
        return None;
    }
    pair_in(form, a, b)
}

/// The number of an event, or the line's fault.
fn event_number(line: u32, number: u64) -> Result<u32, InputFault>
    ensures { result ≡ event_number line number }
{
    if number <= u64::from(u32::MAX) {
        Ok(number as u32)
    } else {
        Err(InputFault::Limit {
            line,
            value: number,
        })
    }
}

fn event_number_or_none(line: u32, number: Option<u64>) -> Result<Option<u32>, InputFault>
    ensures { result ≡ event_number_or_none line number }
{
    match number {
        None => Ok(None),
        Some(number) => Ok(Some(event_number(line, number)?)),
    }
}

/// The line with its numbers, or its fault.
fn line_within(line: u32, raw: RawLine) -> Result<Line, InputFault>
    ensures { result ≡ line_of line raw }
{
    match raw {
        RawLine::Joined(e) => {
            let event = event_number(line, e)?;
            let reason = Reason::Joined;
            Ok(Line::Forced(Forced { event, reason }))
        }
        RawLine::Order(e, f) => {
            let event = event_number(line, e)?;
            let after = event_number(line, f)?;
            let reason = Reason::Order { after };
            Ok(Line::Forced(Forced { event, reason }))
        }
        RawLine::Match(e, f) => {
            let event = event_number(line, e)?;
            let after = event_number_or_none(line, f)?;
            let reason = Reason::Match { after };
            Ok(Line::Forced(Forced { event, reason }))
        }
        RawLine::No(word, f) => {
            let last = event_number_or_none(line, f)?;
            Ok(Line::Ending(Ending { word, last }))
        }
    }
}

/// Puts a line at the end.
fn put_line(c: &mut Certificate, l: Line) -> Result<(), InputFault>
    ensures { GivesInput (λ _. c.new) result (Ok (with_line c.old l)) }
{
    match l {
        Line::Forced(forced) => {
            if c.forced.push(forced).is_err() {
                return Err(InputFault::OutOfMemory);
            }
        }
        Line::Ending(ending) => c.ending = Some(ending),
    }
    Ok(())
}

/// Puts the line of a text at the end.
#[tactic(auto, unfolding(crate::specs::Grammar::line_added))]
fn add_line(c: &mut Certificate, line: u32, text: &[u8]) -> Result<(), InputFault>
    ensures { GivesInput (λ _. c.new) result (on_words line_added c.old line (words_of text.now)) }
{
    if next_word(text).is_none() {
        return Ok(());
    }
    let bad = InputFault::BadLine { line };
    if c.ending.is_some() {
        return Err(bad);
    }
    let Some(raw) = raw_line_in(text) else {
        return Err(bad);
    };
    let l = line_within(line, raw)?;
    if c.forced.len() >= MOST_CERTIFICATE_LINES as usize {
        return Err(InputFault::Limit {
            line,
            value: u64::from(MOST_CERTIFICATE_LINES) + 1,
        });
    }
    put_line(c, l)
}

/// The certificate of a text.
///
/// A line is `joined E`, `order E F`, `match E F`, `match E first`, `no H F` or `no H first`, where E and F are event
/// numbers and H is an address in its sixteen lower-case hexadecimal digits (docs/certificates.md). The first line with a
/// fault decides: `BadLine` for any other line and for one behind a `no` line, then `Limit` for the first event number
/// of more than 32 bits, then `Limit` with 200,002 for the line of that place among those with words. Lines are
/// numbered from 1, so the text has fewer than 2^32 bytes.
#[tactic(auto, unfolding(crate::specs::Grammar::certificate_of))]
pub fn read_certificate(alloc: Global, text: &[u8]) -> Result<Certificate, InputFault>
    requires { length text.now < 2 ^ 32 }
    ensures { GivesInput (λ c. c) result (certificate_of text.now) }
{
    let mut c = Certificate {
        forced: Vec::new(alloc),
        ending: None,
    };
    let mut from = 0;
    let mut line = 0;
    while let Some(span) = next_line(text, from) {
        line += 1;
        from = span.next;
        add_line(&mut c, line, content(&text[span.start..span.end]))?;
    }
    Ok(c)
}
