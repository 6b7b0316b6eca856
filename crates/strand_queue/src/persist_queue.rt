ghost use Rattle.std.specs.Prelude.{◌≡◌, ◌<◌, ◌≤◌, ◌++◌, ◌==◌, [], ◌∷◌, IfOk, drop, length, slice_get};
ghost use Rattle.strand_base.specs.declared.limits.TheConstants.{MOST_QUEUE};
ghost use Rattle.strand_queue.specs.Queue.{queue};

use crate::item::Item;
use circular_buffer::HeapCircularBuffer;
use std::alloc::Global;
use std::marker::Model;
use strand_base::OutOfMemory;

/// The items that wait, first in first out. Contracts see the list of the items, the oldest first,
/// and the depth, which is how many may wait.
#[derive(Drop)]
pub struct PersistQueue {
    ring: HeapCircularBuffer<Item>,
}

impl Model for PersistQueue {
    ghost use Rattle.strand_queue.specs.Queue.{Queue, queue};

    ghost Value = { Queue };

    ghost view = { λ q. queue q.ring.items q.ring.capacity };
}

impl PersistQueue {
    /// An empty queue of a depth from 1 to 64. It takes all the memory that the queue will need; no
    /// other call takes any.
    pub fn new(alloc: Global, depth: u32) -> Result<PersistQueue, OutOfMemory>
        requires some { 1 ≤ depth }
        requires limit { depth ≤ MOST_QUEUE }
        ensures { IfOk result (λ q. q ≡ queue [] depth) }
    {
        match HeapCircularBuffer::with_capacity(alloc, depth as usize) {
            Ok(ring) => Ok(PersistQueue { ring }),
            Err(_) => Err(OutOfMemory),
        }
    }

    /// Whether so many items wait as the depth is.
    pub fn is_full(&self) -> bool
        ensures full { result ≡ (length self.now.items == self.now.depth) }
        ensures within { length self.now.items ≤ self.now.depth }
    {
        self.ring.len() == self.ring.capacity()
    }

    /// Whether no item waits.
    pub fn is_empty(&self) -> bool
        ensures { result ≡ (length self.now.items == 0) }
    {
        self.ring.is_empty()
    }

    /// Puts an item at the end of a queue that isn't full.
    pub fn push(&mut self, item: Item)
        requires { length self.old.items < self.old.depth }
        ensures { self.new ≡ queue (self.old.items ++ item ∷ []) self.old.depth }
    {
        let _full = self.ring.try_push_back(item);
    }

    /// The oldest item, which stays; none exactly where the queue is empty.
    pub fn front(&self) -> Option<Item>
        ensures { result ≡ slice_get self.now.items 0 }
    {
        self.ring.front().copied()
    }

    /// Takes the oldest item out; none exactly where the queue is empty.
    pub fn pop(&mut self) -> Option<Item>
        ensures item { result ≡ slice_get self.old.items 0 }
        ensures rest { self.new ≡ queue (drop 1 self.old.items) self.old.depth }
    {
        self.ring.pop_front()
    }
}
