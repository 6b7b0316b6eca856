ghost use Rattle.std.specs.Prelude.{◌≡◌, ◌<◌, length, IfOk};
ghost use Rattle.strand_events.specs.Numbers.{numbers_of};
ghost use Rattle.strand_events.specs.Order.{is_joined};
ghost use Rattle.strand_events.specs.Places.{LieIn};
ghost use Rattle.strand_judge.specs.Words.{crash_of};
ghost use Rattle.strand_refute.specs.Checked.{IsChecked, SaysAccepted};
ghost use Rattle.strand_refute.specs.Facts.{AreFacts};

use crate::certificate::Certificate;
use crate::endings::is_accepted_ending;
use crate::facts::{Facts, facts_of};
use crate::lines::is_accepted;
use std::alloc::Global;
use strand_base::{Numbers, OutOfMemory};
use strand_events::Trace;
use strand_inputs::Mode;

/// What a check says of a certificate.
#[derive(Clone, Copy, Debug, PartialEq, Eq)]
pub enum Checked {
    /// All its lines are accepted, and it has a last one.
    Accepted,
    /// The first line that isn't accepted, counted from 1 over the certificate's lines; one more than their number
    /// where all are and the last line is missing.
    Rejected { line: u64 },
}

// Goes along the lines, up to the first that isn't accepted.
fn check_lines(
    alloc: Global,
    trace: &Trace,
    mode: Mode,
    facts: &Facts,
    first: &[u64],
    found: &[u64],
    certificate: &Certificate,
) -> Result<Checked, OutOfMemory>
    requires same { length first.now ≡ length found.now }
    requires within { LieIn trace.now.events (length found.now) }
    requires facts { AreFacts trace.now.events found.now facts.now }
    ensures { IfOk result (IsChecked mode trace.now.events
        (crash_of first.now found.now) certificate.now) }
{
    let lines = certificate.forced();
    let mut needed = vec![in alloc; false; trace.events().len()]?;
    for k in 0..lines.len() {
        let line = lines[k];
        if !is_accepted(trace, mode, facts, first, found, &needed, line) {
            return Ok(Checked::Rejected { line: k as u64 + 1 });
        }
        needed[line.event as usize] = true;
    }
    let ending = certificate.ending();
    if is_accepted_ending(
        trace.events(),
        &facts.offered,
        first,
        found,
        &needed,
        ending,
    ) {
        Ok(Checked::Accepted)
    } else {
        Ok(Checked::Rejected {
            line: lines.len() as u64 + 1,
        })
    }
}

/// Checks a certificate by its lines alone, without the judge and without the graph: the words `initial` before the
/// crash and `crash` after it, by their places in the persistent region, and the persists that were `joined`, by their
/// numbers. It goes three times over the events, for the persists, the last joins and the crash image's values, and once
/// over the lines.
///
/// `Accepted` comes exactly where all lines are accepted and the last one is there (docs/certificates.md); then no judged
/// set exists. `Rejected` names exactly the first line that isn't accepted.
pub fn check(
    alloc: Global,
    trace: &Trace,
    mode: Mode,
    joined: &Numbers,
    initial: &[u64],
    crash: &[u64],
    c: &Certificate,
) -> Result<Checked, OutOfMemory>
    requires joined { joined.now ≡ numbers_of trace.now.events (is_joined trace.now.events) }
    requires same { length initial.now ≡ length crash.now }
    requires within { LieIn trace.now.events (length crash.now) }
    ensures checked { IfOk result (IsChecked mode trace.now.events
        (crash_of initial.now crash.now) c.now) }
    ensures accepted { IfOk result (SaysAccepted mode trace.now.events
        (crash_of initial.now crash.now)) }
{
    let facts = facts_of(alloc, trace, joined, crash)?;
    check_lines(alloc, trace, mode, &facts, initial, crash, c)
}
