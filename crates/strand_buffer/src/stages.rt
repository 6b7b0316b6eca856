// The stages of entries, and which entries are left once some are durable.
ghost use Rattle.std.specs.Prelude.{◌≡◌, ◌<◌, ◌≤◌, drop, length, map, vec_capacity};
ghost use Rattle.strand_buffer.specs.Entries.{entry_is, is_open, trimmed};
ghost use Rattle.strand_buffer.specs.Buffers.{with_stage};

use crate::{Entry, Stage};

// The entries of this number have come to this stage.
pub(crate) fn set_stage(entries: &mut Vec<Entry>, number: u32, stage: Stage)
    ensures entries { entries.new.items ≡ map (with_stage stage number) entries.old.items }
    ensures room { vec_capacity entries.new ≡ vec_capacity entries.old }
{
    for i in 0..entries.len() {
        entries[i] = staged(entries[i], number, stage);
    }
}

// An entry, which has come to this stage where it has this number.
fn staged(entry: Entry, number: u32, stage: Stage) -> Entry
    ensures { result ≡ with_stage stage number entry }
{
    if entry.number == number {
        Entry { stage, ..entry }
    } else {
        entry
    }
}

// Whether entry i isn't durable.
fn is_open(entries: &[Entry], i: usize) -> bool
    requires { i < length entries.now }
    ensures { result ≡ entry_is is_open entries.now i }
{
    match entries[i].stage {
        Stage::Buffered | Stage::Sent => true,
        Stage::Released => false,
    }
}

// How many entries at the front are durable, with none before them that isn't.
pub(crate) fn released_in_front(entries: &[Entry]) -> usize
    ensures rest { drop result entries.now ≡ trimmed entries.now }
    ensures within { result ≤ length entries.now }
{
    let mut count = 0;
    while count < entries.len() && !is_open(entries, count) {
        count += 1;
    }
    count
}

// The list without so many elements at its front.
pub(crate) fn drop_front<T: Drop>(list: &mut Vec<T>, count: usize)
    requires { count ≤ length list.old.items }
    ensures items { list.new.items ≡ drop count list.old.items }
    ensures room { vec_capacity list.new ≡ vec_capacity list.old }
{
    let left = list.len() - count;
    list.rotate_left(count);
    list.truncate(left);
}
