// A thread's frame: where it stands, and what it has.
ghost use Rattle.std.specs.Prelude.{◌≡◌, ◌+◌, ◌^◌, ◌<◌, [], replicate, slice_get, IfOk, IfSome};

use asl_tree::Level;
use json_tree::{Json, Text};
use std::alloc::{AllocError, Global};
use std::marker::Model;

/// Where an error comes from.
#[derive(Clone, Copy, Debug, PartialEq, Eq)]
pub enum Origin {
    /// The state's own call of the table.
    Call,
    /// A branch, from which a Parallel state took it.
    Branch,
    Other,
}

/// An error of a state ("Errors").
#[derive(Debug, Drop)]
pub struct Fault {
    pub error: Text,
    pub cause: Text,
    pub origin: Origin,
}

/// What a thread can do next.
#[derive(Debug, Drop)]
pub enum Phase {
    /// It stands before its state.
    Ready,
    /// It waits for this many branches, of which at most so many run at a time; 0 is no bound.
    Parked(u32, u32),
    /// It ended with this output.
    Done(Json),
    /// It ended with this error.
    Failed(Fault),
}

/// How often each retrier of the state was used at this visit. Contracts see the list of counters.
#[derive(Debug, Drop)]
pub struct Retries {
    pub(crate) inner: Vec<u32>,
}

impl Model for Retries {
    ghost use Rattle.std.specs.Prelude.{List, ℕ};

    ghost Value = { List ℕ };

    ghost view = { λ a. a.inner.items };
}

impl Retries {
    ghost use Rattle.asl_frames.specs.Counters.{one_more};

    /// The counters of a state without retriers. Takes no memory.
    pub fn none(alloc: Global) -> Retries
        ensures { result ≡ [] }
    {
        Retries {
            inner: Vec::new(alloc),
        }
    }

    /// So many counters of 0. Takes memory for each.
    pub fn fresh(alloc: Global, count: usize) -> Result<Retries, AllocError>
        ensures { IfOk result (λ r. r ≡ replicate count 0) }
    {
        Ok(Retries {
            inner: vec![in alloc; 0u32; count]?,
        })
    }

    /// Equal counters. Takes memory for each.
    pub fn copy(&self) -> Result<Retries, AllocError>
        ensures { IfOk result (λ r. r ≡ self.now) }
    {
        Ok(Retries {
            inner: Vec::from_slice(*self.inner.allocator(), self.inner.as_slice())?,
        })
    }

    /// The counter of the retrier at this place, from 0. Takes no memory.
    pub fn get(&self, place: usize) -> Option<u32>
        ensures { result ≡ slice_get self.now place }
    {
        self.inner.get(place).copied()
    }

    /// The counters after one more use of the retrier at this place. Takes memory for each.
    #[tactic(auto, using(crate::proofs::Counters::one_more_within, crate::proofs::Counters::one_more_past))]
    pub fn one_more(&self, place: usize) -> Result<Retries, AllocError>
        requires { IfSome (slice_get self.now place) (λ n. n + 1 < 2 ^ 32) }
        ensures { IfOk result (λ r. r ≡ one_more self.now place) }
    {
        let mut copy = self.copy()?;
        if place >= copy.inner.len() {
            return Ok(copy);
        }
        copy.inner[place] += 1;
        Ok(copy)
    }
}

/// Where a thread stands: the `States` object, the state in it, the state's raw input, how often its retriers were used,
/// how many moves the thread made, and what it can do next.
#[derive(Debug, Drop)]
pub struct Frame {
    pub level: Level,
    pub state: Text,
    pub raw: Json,
    pub retries: Retries,
    pub count: u32,
    pub phase: Phase,
}
