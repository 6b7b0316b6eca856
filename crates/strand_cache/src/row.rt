ghost use Rattle.std.specs.Prelude.{◌≡◌, ◌<◌, ◌≤◌, ◌∷◌, [], length, map, take, slice_get, ◌-◌};
ghost use Rattle.std.specs.List.{find};
ghost use Rattle.strand_base.specs.declared.limits.TheConstants.{MOST_WAYS};
ghost use Rattle.strand_cache.specs.Copies.{is_of, is_changed, cleaned, others};

use crate::held_line::HeldLine;
use arrayvec::ArrayVec;
use std::marker::Model;
use strand_base::MOST_WAYS;

// The most lines that a row has.
const WAYS: usize = MOST_WAYS as usize;

/// The lines of one set that a core holds, the most recently accessed first.
#[derive(Drop)]
pub(crate) struct Row {
    lines: ArrayVec<HeldLine, WAYS>,
}

impl Model for Row {
    ghost use Rattle.std.specs.Prelude.{List, length, ◌≤◌};
    ghost use Rattle.strand_cache.specs.declared.held_line.HeldLine.{HeldLine};

    ghost Value = { List HeldLine };

    ghost view = { λ r. r.lines.items };
}

impl Row {
    /// No lines.
    pub(crate) fn new() -> Row
        ensures { result ≡ [] }
    {
        Row {
            lines: ArrayVec::new(),
        }
    }

    /// The copy of a line.
    pub(crate) fn find(&self, line: u64) -> Option<HeldLine>
        ensures { result ≡ find (is_of line) self.now }
    {
        for held in self.lines.as_slice() {
            if held.line == line {
                return Some(*held);
            }
        }
        None
    }

    /// The changed copy of a line.
    pub(crate) fn find_changed(&self, line: u64) -> Option<HeldLine>
        ensures { result ≡ find (is_changed line) self.now }
    {
        for held in self.lines.as_slice() {
            if held.changed && held.line == line {
                return Some(*held);
            }
        }
        None
    }

    /// Leaves the copy of a line unchanged.
    pub(crate) fn clean(&mut self, line: u64)
        ensures { self.new ≡ map (cleaned line) self.old }
    {
        for held in self.lines.as_mut_slice() {
            *held = held.cleaned(line);
        }
    }

    /// Gives a line up.
    pub(crate) fn drop_line(&mut self, line: u64)
        ensures { self.new ≡ others line self.old }
    {
        self.lines.retain(|held| held.line != line);
    }

    /// Puts a line in front of at most `ways` lines, and hands out the last one where there is no room
    /// for all.
    pub(crate) fn put(&mut self, held: HeldLine, ways: usize) -> Option<HeldLine>
        requires some { 0 < ways }
        requires fits { ways ≤ MOST_WAYS }
        requires within { length self.old ≤ ways }
        ensures row { self.new ≡ take ways (held ∷ self.old) }
        ensures last { result ≡ slice_get self.old (ways - 1) }
    {
        let last = if self.lines.len() == ways {
            self.lines.pop()
        } else {
            None
        };
        self.lines.insert(0, held);
        last
    }
}
