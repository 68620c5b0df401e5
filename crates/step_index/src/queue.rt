//! Places that are taken in ascending order, each once.

ghost use Rattle.std.specs.Prelude.{◌≡◌, ◌==◌, ◌||◌, ◌≤◌, ℕ, true, false, OnOk};
ghost use Rattle.std.proofs.Props.{props};
ghost use Rattle.std.specs.BinaryHeap.{IsHeap, heap_items};
ghost use Rattle.std.specs.Ordering.{nat_cmp};
ghost use Rattle.step_index.specs.Queue.{IsLeastPlace, has_place};

use std::alloc::{AllocError, Global};
use std::cmp::Reverse;
use std::collections::BinaryHeap;

/// Places in a heap, the least on top. One may be there more than once, and is then taken once.
#[derive(Drop)]
pub(crate) struct PlaceQueue {
    heap: BinaryHeap<Reverse<usize>>,
    ghost ordered: { IsHeap (λ x y. nat_cmp y.0 x.0) (heap_items heap) } by { Prim.hlevel props },
}

impl PlaceQueue {
    /// None. Takes no memory.
    pub(crate) fn new(alloc: Global) -> PlaceQueue
        ensures { (k : ℕ) → has_place (heap_items result.heap) k ≡ false }
    {
        PlaceQueue {
            heap: BinaryHeap::new(alloc),
        }
    }

    /// Adds a place.
    pub(crate) fn push(&mut self, place: usize) -> Result<(), AllocError>
        ensures { OnOk result ((k : ℕ) → has_place (heap_items self.new.heap) k ≡ (place == k || has_place (heap_items self.old.heap) k)) }
    {
        self.heap.push(Reverse(place))?;
        Ok(())
    }

    /// Takes the least place, if there is one.
    pub(crate) fn pop(&mut self) -> Option<usize>
        ensures { IsLeastPlace (heap_items self.old.heap) (heap_items self.new.heap) result }
    {
        let Some(top) = self.heap.pop() else {
            return None;
        };
        let place = top.0;
        while self.begins_with(place) {
            self.heap.pop();
        }
        Some(place)
    }

    /// Whether the least place is this one, if there is none before it.
    fn begins_with(&self, place: usize) -> bool
        ensures { ((k : ℕ) → has_place (heap_items self.now.heap) k ≡ true → place ≤ k) → result ≡ has_place (heap_items self.now.heap) place }
    {
        match self.heap.peek() {
            Some(top) => top.0 == place,
            None => false,
        }
    }
}
