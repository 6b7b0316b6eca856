ghost use Rattle.std.specs.Prelude.{◌≡◌, ◌<◌, ◌≤◌, [], length, replicate, IfOk};
ghost use Rattle.strand_base.specs.declared.limits.TheConstants.{MOST_WAYS};
ghost use Rattle.strand_exec.specs.Memory.{extents_of};
ghost use Rattle.strand_exec.specs.Plan.{IsWord};
ghost use Rattle.strand_cache.specs.Copies.{owned};
ghost use Rattle.strand_cache.specs.Coherence.{IsBounded, IsSetAccess};

use crate::access::Access;
use crate::change::Change;
use crate::held_line::HeldLine;
use crate::row::Row;
use crate::rows::access;
use std::alloc::Global;
use std::marker::Model;
use strand_base::OutOfMemory;
use strand_exec::FlatMemory;

/// The rows of one set, one for each core.
#[derive(Drop)]
pub(crate) struct Group {
    rows: Vec<Row>,
}

impl Model for Group {
    ghost use Rattle.std.specs.Prelude.{List};
    ghost use Rattle.strand_cache.specs.declared.held_line.HeldLine.{HeldLine};

    ghost Value = { List (List HeldLine) };

    ghost view = { λ g. g.rows.items };
}

impl Group {
    /// No lines for any core.
    pub(crate) fn new(alloc: Global, cores: usize) -> Result<Group, OutOfMemory>
        ensures { IfOk result (λ g. g ≡ replicate cores []) }
    {
        let mut rows = Vec::with_capacity(alloc, cores)?;
        for _i in 0..cores {
            rows.push(Row::new())?;
        }
        Ok(Group { rows })
    }

    /// The changed copy of a line.
    pub(crate) fn owned(&self, line: u64) -> Option<HeldLine>
        ensures { result ≡ owned line self.now }
    {
        for row in &self.rows {
            let held = row.find_changed(line);
            if held.is_some() {
                return held;
            }
        }
        None
    }

    /// One access of a core to a word of the set.
    pub(crate) fn access(
        &mut self,
        backing: &mut FlatMemory,
        core: usize,
        word: u64,
        ways: usize,
        change: Change,
    ) -> Access
        requires core { core < length self.old }
        requires word { IsWord (extents_of backing.old) word }
        requires some { 0 < ways }
        requires fits { ways ≤ MOST_WAYS }
        requires bounded { IsBounded ways self.old }
        ensures { IsSetAccess core word ways change self.old self.new backing.old backing.new result }
    {
        access(&mut self.rows, backing, core, word, ways, change)
    }
}
