// What can be told of a run by its trace.
ghost use Rattle.std.specs.Prelude.{◌≡◌, length, IfOk};
ghost use Rattle.strand_judge.specs.Verdicts.{IsVerdict};
ghost use Rattle.strand_judge.specs.Words.{crash_of};
ghost use Rattle.strand_refute.specs.Checked.{IsChecked, SaysAccepted, SaysNone, SaysPossible, SaysRefuted};
ghost use Rattle.strand_report.specs.Trace.{trace_text};
ghost use Rattle.strand_run.specs.Outcome.{view_of};
ghost use Rattle.strand_run.specs.Summed.{Sums};

use crate::bubbles::bubbles_of;
use std::alloc::Global;
use strand_again::Ran;
use strand_base::OutOfMemory;
use strand_inputs::Mode;
use strand_judge::{Verdict, judge};
use strand_order::build;
use strand_path::longest;
use strand_refute::{Certificate, Checked, Refutation, check, refute};
use strand_report::{Summary, count_marked, write_trace};

/// The events of a run and the edges of their graph under this mode, as text (docs/FORMATS.md).
pub fn trace(alloc: Global, run: &Ran, mode: Mode) -> Result<Vec<u8>, OutOfMemory>
    ensures { IfOk result (λ text. text.items ≡ trace_text mode (view_of run.now).trace) }
{
    let graph = build(alloc, run.machine.trace(), mode)?;
    let mut text = Vec::new(alloc);
    write_trace(&graph, run.machine.trace(), &mut text)?;
    Ok(text)
}

/// The judge's verdict on a crash image of as many words as the run's initial ones, under this mode (docs/judge.md).
pub fn verdict(
    alloc: Global,
    run: &Ran,
    mode: Mode,
    initial: &[u64],
    crash: &[u64],
) -> Result<Verdict, OutOfMemory>
    requires initial { run.now.machine.machine.program.sizes.persistent ≡ length initial.now }
    requires crash { length crash.now ≡ length initial.now }
    ensures { IfOk result
        (IsVerdict mode (view_of run.now).trace (crash_of initial.now crash.now)) }
{
    let trace = run.machine.trace();
    let graph = build(alloc, trace, mode)?;
    let joined = trace.joined()?;
    judge(alloc, &graph, &joined, initial, crash)
}

/// Whether a crash image of as many words as the run's initial ones may have come from it under this mode, with a
/// certificate where it may not and the least set where it may (docs/certificates.md).
pub fn refutation(
    alloc: Global,
    run: &Ran,
    mode: Mode,
    initial: &[u64],
    crash: &[u64],
) -> Result<Refutation, OutOfMemory>
    requires initial { run.now.machine.machine.program.sizes.persistent ≡ length initial.now }
    requires crash { length crash.now ≡ length initial.now }
    ensures refuted { IfOk result
        (SaysRefuted mode (view_of run.now).trace (crash_of initial.now crash.now)) }
    ensures none { IfOk result
        (SaysNone mode (view_of run.now).trace (crash_of initial.now crash.now)) }
    ensures possible { IfOk result
        (SaysPossible mode (view_of run.now).trace (crash_of initial.now crash.now)) }
{
    let trace = run.machine.trace();
    let graph = build(alloc, trace, mode)?;
    let joined = trace.joined()?;
    refute(alloc, &graph, &joined, initial, crash)
}

/// What the check says of a certificate that a crash image of as many words as the run's initial ones may not have come
/// from it under this mode (docs/certificates.md). The graph of its trace isn't built.
pub fn checked(
    alloc: Global,
    run: &Ran,
    mode: Mode,
    initial: &[u64],
    crash: &[u64],
    certificate: &Certificate,
) -> Result<Checked, OutOfMemory>
    requires initial { run.now.machine.machine.program.sizes.persistent ≡ length initial.now }
    requires crash { length crash.now ≡ length initial.now }
    ensures checked { IfOk result (IsChecked mode (view_of run.now).trace
        (crash_of initial.now crash.now) certificate.now) }
    ensures accepted { IfOk result
        (SaysAccepted mode (view_of run.now).trace (crash_of initial.now crash.now)) }
{
    let trace = run.machine.trace();
    let joined = trace.joined()?;
    check(alloc, trace, mode, &joined, initial, crash, certificate)
}

/// The summary of a run under this mode. The judge is asked about the words that were read at the end, which the modules
/// hold.
pub fn summary(
    alloc: Global,
    run: &Ran,
    mode: Mode,
    initial: &[u64],
) -> Result<Summary, OutOfMemory>
    requires initial { run.now.machine.machine.program.sizes.persistent ≡ length initial.now }
    requires held { length run.now.held ≡ length initial.now }
    ensures { IfOk result (Sums mode (view_of run.now) initial.now) }
{
    let trace = run.machine.trace();
    let graph = build(alloc, trace, mode)?;
    let path = longest(alloc, &graph)?;
    let held = run.held.as_slice();
    let verdict = judge(alloc, &graph, &trace.joined()?, initial, held)?;
    let bubbles = bubbles_of(alloc, run.turns.as_slice())?;
    Ok(Summary {
        persists: u64::from(trace.persists()),
        durable: count_marked(run.machine.durable()) as u64,
        path: path.chain.as_slice().len() as u64,
        done: run.machine.made().saturating_sub(bubbles.len() as u64),
        verdict,
    })
}
