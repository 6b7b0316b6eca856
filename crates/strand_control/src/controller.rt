ghost use Rattle.std.specs.Prelude.{◌≡◌, ◌<◌, ◌≤◌, ◌++◌, [], ◌∷◌, IfOk, length, slice_get, remove, nat_lt};
ghost use Rattle.strand_base.specs.declared.limits.TheConstants.{MOST_FLIGHT};
ghost use Rattle.strand_control.specs.Flight.{LieInBank, older_waits, Writes};
ghost use Rattle.strand_modules.specs.Seen.{bank_seen};

use crate::request::{Request, WriteTurn};
use std::alloc::Global;
use std::marker::Model;
use strand_base::{OutOfMemory, PERSISTENT_BASE};
use strand_modules::{AtModule, ModuleBank};

/// The requests in flight. Contracts see them in the order in which they were sent, and how many there
/// may be.
#[derive(Drop)]
pub struct Controller {
    requests: Vec<Request>,
    limit: u32,
}

impl Model for Controller {
    ghost use Rattle.std.specs.Prelude.{◌≤◌, length, vec_capacity};
    ghost use Rattle.strand_control.specs.Flight.{Flight};

    ghost Value = { Flight };

    ghost view = { λ c. record { requests = c.requests.items; limit = c.limit } };

    ghost invariant = { λ c. (length c.requests.items ≤ c.limit) × (c.limit ≤ vec_capacity c.requests) };
}

impl Controller {
    /// No request, with room for 1 to 64 of them. It takes all the memory that the list will need; no
    /// other call takes any.
    pub fn new(alloc: Global, flight: u32) -> Result<Controller, OutOfMemory>
        requires some { 1 ≤ flight }
        requires limit { flight ≤ MOST_FLIGHT }
        ensures { IfOk result (λ c. c ≡ record { requests = []; limit = flight }) }
    {
        Ok(Controller {
            requests: Vec::with_capacity(alloc, flight as usize)?,
            limit: flight,
        })
    }

    /// Whether fewer requests are in flight than there may be.
    pub fn room(&self) -> bool
        ensures { result ≡ nat_lt (length self.now.requests) self.now.limit }
    {
        self.requests.len() < self.limit as usize
    }

    /// A request comes to the end.
    pub fn accept(&mut self, r: Request)
        requires { length self.old.requests < self.old.limit }
        ensures { self.new ≡ record self.old { requests = self.old.requests ++ r ∷ [] } }
    {
        self.requests.push_reserved(r);
    }

    // The request at place j.
    fn request_at(&self, j: u32) -> Option<Request>
        ensures { result ≡ slice_get self.now.requests j }
    {
        self.requests.get(j as usize).copied()
    }

    // The request at place j leaves the list.
    fn drop_at(&mut self, j: u32)
        requires { j < length self.old.requests }
        ensures { self.new ≡ record self.old { requests = remove self.old.requests j } }
    {
        self.requests.remove(j as usize);
    }

    /// Stores the value of the request at place j, counted from 0 in the order of sending, at its word
    /// in the bank, unless an older request has the same word. Only a request that was written leaves
    /// the list. A fault comes only where the bank refused that store: the count of faults of the module
    /// that it names rose, and so did `stores` of its refusals.
    pub fn write(&mut self, j: u32, bank: &mut ModuleBank) -> WriteTurn
        requires { LieInBank self.old.requests (bank_seen holds bank.old).size }
        ensures { Writes self.old self.new (bank_seen holds bank.old) (bank_seen holds bank.new) j result }
    {
        let Some(r) = self.request_at(j) else {
            return WriteTurn::NoEntry;
        };
        if older_waits(&self.requests, j as usize, r.word) {
            return WriteTurn::OlderWaits;
        }
        match bank.store((r.word - PERSISTENT_BASE) / 8, r.value) {
            Ok(()) => {
                self.drop_at(j);
                WriteTurn::Written(r)
            }
            Err(AtModule { module }) => WriteTurn::Fault { module },
        }
    }
}

// Whether a request before place j has this word.
fn older_waits(requests: &[Request], j: usize, word: u64) -> bool
    requires { j ≤ length requests.now }
    ensures { result ≡ older_waits requests.now j word }
{
    for i in 0..j {
        if requests[i].word == word {
            return true;
        }
    }
    false
}
