ghost use Rattle.std.specs.Prelude.{◌≡◌, ℕ, ◌+◌, ◌^◌, ◌<◌, ◌≤◌, length, [], ◌∷◌, Ok, codes, decimal, nat_le, if◌then◌else◌};
ghost use Rattle.strand_base.specs.Text.{line_text};
ghost use Rattle.strand_base.specs.Puts.{Puts};
ghost use Rattle.strand_inputs.specs.Schedule.{schedule_of, same_step, repeat_words, schedule_text, IsBelow};
ghost use Rattle.strand_inputs.specs.declared.step.Step.TheVariants.{Send};
ghost use Rattle.std.specs.List.{prefix_len, AllByRecursion};

use crate::schedule::Schedule;
use crate::step::Step;
use itoa::Buffer;
use strand_base::{OutOfMemory, put_line};

fn is_same(a: Step, b: Step) -> bool
    ensures { result ≡ same_step a b }
{
    match (a, b) {
        (Step::Core(m), Step::Core(n)) => m == n,
        (Step::Dispatch(m), Step::Dispatch(n)) => m == n,
        (Step::Send(m, b, j), Step::Send(n, d, k)) => m == n && b == d && j == k,
        (Step::Write(j), Step::Write(k)) => j == k,
        _ => false,
    }
}

/// How many steps at the front are the same as a step.
fn same_front(step: Step, others: &[Step]) -> usize
    ensures value { result ≡ prefix_len (same_step step) others.now }
    ensures bound { result ≤ length others.now }
{
    let mut front = 0;
    for other in others {
        if !is_same(step, *other) {
            return front;
        }
        front += 1;
    }
    front
}

/// A repeat of steps of one number.
fn put_numbers(into: &mut Vec<u8>, form: &str, number: u32, count: usize) -> Result<(), OutOfMemory>
    ensures { Puts result
        (line_text (form.now ∷ decimal number ∷ (if nat_le 2 count then codes "*" ∷ decimal count ∷ [] else [])))
        into.old.items into.new.items }
{
    let mut first = Buffer::new();
    let first = first.format(number).as_bytes();
    if count < 2 {
        return put_line(into, form.as_bytes(), &[first]);
    }
    let mut times = Buffer::new();
    put_line(
        into,
        form.as_bytes(),
        &[first, "*".as_bytes(), times.format(count).as_bytes()],
    )
}

/// A repeat of `s` steps.
fn put_send(into: &mut Vec<u8>, n: u32, b: u32, j: u32, count: usize) -> Result<(), OutOfMemory>
    ensures { Puts result (line_text (repeat_words (Send n b j, count))) into.old.items into.new.items }
{
    let mut core = Buffer::new();
    let mut buffer = Buffer::new();
    let mut place = Buffer::new();
    let core = core.format(n).as_bytes();
    let buffer = buffer.format(b).as_bytes();
    let place = place.format(j).as_bytes();
    if count < 2 {
        return put_line(into, b"s", &[core, buffer, place]);
    }
    let mut times = Buffer::new();
    let times = times.format(count).as_bytes();
    put_line(into, b"s", &[core, buffer, place, "*".as_bytes(), times])
}

fn put_repeat(into: &mut Vec<u8>, step: Step, count: usize) -> Result<(), OutOfMemory>
    ensures { Puts result (line_text (repeat_words (step, count))) into.old.items into.new.items }
{
    match step {
        Step::Core(n) => put_numbers(into, "c", n, count),
        Step::Dispatch(n) => put_numbers(into, "d", n, count),
        Step::Send(n, b, j) => put_send(into, n, b, j, count),
        Step::Write(j) => put_numbers(into, "w", j, count),
    }
}

fn put_repeats(into: &mut Vec<u8>, steps: &[Step]) -> Result<(), OutOfMemory>
    ensures { Puts result (schedule_text steps.now) into.old.items into.new.items }
{
    let mut rest = steps;
    while let Some((first, others)) = rest.split_first() {
        let more = same_front(*first, others);
        put_repeat(into, *first, more + 1)?;
        rest = &others[more..];
    }
    Ok(())
}

/// Appends the printed form of a schedule: a line for each longest repeat of equal steps, with ` * K` where
/// K is at least 2. It is read back to the schedule, with any cores and buffers that its steps are
/// below. Where memory ran out, a front of it is appended.
pub fn print_schedule(schedule: &Schedule, into: &mut Vec<u8>) -> Result<(), OutOfMemory>
    ensures text { Puts result (schedule_text schedule.now) into.old.items into.new.items }
    ensures again { (cores buffers : ℕ) → cores < 2 ^ 32 → buffers < 2 ^ 32
        → AllByRecursion (IsBelow cores buffers) schedule.now
        → schedule_of cores buffers (schedule_text schedule.now) ≡ Ok schedule.now }
{
    put_repeats(into, schedule.steps())
}
