ghost use Rattle.std.specs.Prelude.{◌≡◌, ◌<◌, not, ◌==◌, [], ◌∷◌, length, position, MatchOption, IfSome};
ghost use Rattle.std.specs.List.{list_all, before_first};
ghost use Rattle.std.specs.Option.{option_map};
ghost use Rattle.std.specs.Prelude.{count_by};
ghost use Rattle.strand_base.specs.Text.{is_blank, words_of};
ghost use Rattle.strand_asm_lines.specs.Bytes.{is_plain, pieces, from_first, after_blanks, lone, operand_texts, operand_at, some_empty};

use strand_base::next_word;

fn is_blank(b: u8) -> bool
    ensures { result ≡ is_blank b }
{
    b == b' ' || b == b'\t'
}

/// Whether all bytes are spaces, tabs and characters of ASCII that show.
pub(crate) fn are_plain(text: &[u8]) -> bool
    ensures { result ≡ list_all is_plain text.now }
{
    text.iter().all(|b| is_blank(*b) || b.is_ascii_graphic())
}

fn separator_at(text: &[u8], separator: u8) -> Option<usize>
    ensures { result ≡ position (λ b. b == separator) text.now }
{
    text.iter().position(|b| *b == separator)
}

/// The bytes before the first separator, and those after it; none where there is no separator.
pub(crate) fn cut(text: &[u8], separator: u8) -> Option<(&[u8], &[u8])>
    ensures pieces { MatchOption result
        (pieces separator text.now ≡ text.now ∷ [])
        (λ x. pieces separator text.now ≡ x.0.now ∷ pieces separator x.1.now) }
    ensures shorter { IfSome result (λ x. length x.1.now < length text.now) }
{
    match separator_at(text, separator) {
        Some(at) => Some((text.split_at(at).0, text.split_at(at + 1).1)),
        None => None,
    }
}

fn blank_at(text: &[u8]) -> Option<usize>
    ensures { result ≡ position is_blank text.now }
{
    text.iter().position(|b| is_blank(*b))
}

fn filled_at(text: &[u8]) -> Option<usize>
    ensures { result ≡ position (λ b. not (is_blank b)) text.now }
{
    text.iter().position(|b| !is_blank(*b))
}

/// The bytes without the blanks at their start.
pub(crate) fn after_blanks(text: &[u8]) -> &[u8]
    ensures { result.now ≡ after_blanks text.now }
{
    match filled_at(text) {
        Some(at) => text.split_at(at).1,
        None => &[],
    }
}

/// The bytes before the first blank, and those from it on.
pub(crate) fn split_at_blank(text: &[u8]) -> (&[u8], &[u8])
    ensures before { result.0.now ≡ before_first is_blank text.now }
    ensures rest { result.1.now ≡ from_first is_blank text.now }
{
    match blank_at(text) {
        Some(at) => text.split_at(at),
        None => (text, &[]),
    }
}

/// The word of a text that has one word.
pub(crate) fn lone_word(text: &[u8]) -> Option<&[u8]>
    ensures { option_map (λ w. w.now) result ≡ lone (words_of text.now) }
{
    let (word, rest) = next_word(text)?;
    match next_word(rest) {
        Some(_) => None,
        None => Some(word),
    }
}

/// The operand at a place, counted from 0; nothing where there are fewer.
pub(crate) fn operand_at(text: &[u8], place: usize) -> &[u8]
    ensures { result.now ≡ operand_at place text.now }
{
    let mut rest = text;
    for _ in 0..place {
        match cut(rest, b',') {
            Some((_, after)) => rest = after,
            None => return &[],
        }
    }
    match cut(rest, b',') {
        Some((operand, _)) => operand,
        None => rest,
    }
}

/// Whether some operand has no word.
pub(crate) fn has_empty(text: &[u8]) -> bool
    ensures { result ≡ some_empty (pieces 44 text.now) }
{
    let mut rest = text;
    while let Some((operand, after)) = cut(rest, b',') {
        if next_word(operand).is_none() {
            return true;
        }
        rest = after;
    }
    next_word(rest).is_none()
}

/// How many commas there are.
pub(crate) fn comma_count(text: &[u8]) -> usize
    ensures { result ≡ count_by (λ b. b == 44) text.now }
{
    text.iter().filter(|b| **b == b',').count()
}
