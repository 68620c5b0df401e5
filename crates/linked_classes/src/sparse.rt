// Values at numbers, with holes between them.
ghost use Rattle.std.specs.Prelude.{◌≡◌, ◌<◌, ◌≤◌, ◌+◌, ◌-◌, [], None, Some, IsSome, OnOk, is_some, if◌then◌else◌, count_by, ◌==◌, length, max, option_copied, slice_set, vec_capacity};
ghost use Rattle.linked_classes.specs.Cells.{cell_at, key_at};

use std::alloc::{AllocError, Global};
use std::marker::Model;

/// Where a number has no value. No value has this key, since there are fewer.
const HOLE: u32 = u32::MAX;

/// Values at the numbers from 0 on. A number without a value, a hole, costs four bytes. The values lie side by side, in no
/// order that is told.
#[derive(Debug, Drop)]
pub struct SparseVec<T> {
    keys: Vec<u32>,
    values: Vec<Numbered<T>>,
}

#[derive(Debug, Drop)]
struct Numbered<T> {
    number: u32,
    value: T,
}

impl<T> Model for SparseVec<T> {
    ghost use Rattle.linked_classes.specs.Cells.{Cells, cells_code};
    ghost use Rattle.std.specs.Prelude.{◌-◌, min, length, vec_capacity};

    ghost Value = { Cells T };

    ghost coded = { cells_code T.code };

    ghost use Rattle.linked_classes.specs.Keys.{cells_of, AreCells};

    ghost view = { λ s. record {
      cells = cells_of s.values.items s.keys.items;
      room = vec_capacity s.keys;
      spare = min (vec_capacity s.values) 4294967295 - length s.values.items;
    } };

    ghost invariant = { λ s. AreCells s.values.items s.keys.items };
}

impl<T> SparseVec<T> {
    /// No numbers. Takes no memory.
    pub fn new(alloc: Global) -> SparseVec<T>
        ensures { result ≡ record { cells = []; room = 0; spare = 0 } }
    {
        SparseVec {
            keys: Vec::new(alloc),
            values: Vec::new(alloc),
        }
    }

    /// Makes room for the numbers below a bound, and for so many more values. Refused where memory is, and where there would be
    /// more than 4,294,967,295 values.
    pub fn reserve(&mut self, numbers: usize, more: usize) -> Result<(), AllocError>
        ensures cells { self.new.cells ≡ self.old.cells }
        ensures room { OnOk result (numbers ≤ self.new.room) }
        ensures spare { OnOk result (more ≤ self.new.spare) }
        ensures old_room { self.old.room ≤ self.new.room }
        ensures old_spare { self.old.spare ≤ self.new.spare }
    {
        if more > HOLE as usize - self.values.len() {
            return Err(AllocError);
        }
        self.keys.reserve(numbers.saturating_sub(self.keys.len()))?;
        self.values.reserve(more)
    }

    /// The number behind all that were ever reached.
    pub fn end(&self) -> usize
        ensures { result ≡ length self.now.cells }
    {
        self.keys.len()
    }

    /// How many numbers have a value, told at once.
    pub fn len(&self) -> usize
        ensures { result ≡ count_by is_some self.now.cells }
    {
        self.values.len()
    }

    /// Whether no number has a value.
    pub fn is_empty(&self) -> bool
        ensures { result ≡ (count_by is_some self.now.cells == 0) }
    {
        self.values.is_empty()
    }

    /// The value at a number, in one step.
    pub fn get(&self, number: u32) -> Option<&T>
        ensures { option_copied result ≡ cell_at self.now.cells number }
    {
        let number = number as usize;
        if number >= self.keys.len() {
            return None;
        }
        let key = self.keys[number] as usize;
        if key >= self.values.len() {
            return None;
        }
        Some(&self.values[key].value)
    }

    /// Reaches the numbers below a bound: those that are new are holes. A step for each new number. Takes no memory.
    pub fn extend_to(&mut self, end: usize)
        requires { end ≤ self.old.room }
        ensures cells { cell_at self.new.cells ≡ cell_at self.old.cells }
        ensures end { length self.new.cells ≡ max (length self.old.cells) end }
        ensures room { self.new.room ≡ self.old.room }
        ensures spare { self.new.spare ≡ self.old.spare }
    {
        fill(&mut self.keys, end);
    }

    /// Puts a value into a hole. Takes no memory, and a few steps.
    pub fn put(&mut self, number: u32, value: T)
        requires end { number < length self.old.cells }
        requires hole { cell_at self.old.cells number ≡ None }
        requires spare { 1 ≤ self.old.spare }
        ensures { self.new ≡ record self.old { cells = slice_set self.old.cells number (Some value); spare = self.old.spare - 1 } }
    {
        let key = self.values.len() as u32;
        self.values.push_reserved(Numbered { number, value });
        self.keys[number as usize] = key;
    }

    /// Puts a value in the place of one. Takes no memory, and a few steps.
    pub fn replace(&mut self, number: u32, value: T) -> T
        requires { IsSome (cell_at self.old.cells number) }
        ensures value { cell_at self.old.cells number ≡ Some result }
        ensures left { self.new ≡ record self.old { cells = slice_set self.old.cells number (Some value) } }
    {
        let key = self.keys[number as usize] as usize;
        std::mem::replace(&mut self.values[key].value, value)
    }

    /// Takes the value at a number out. Takes no memory, and a few steps wherever it lies.
    pub fn take(&mut self, number: u32) -> Option<T>
        ensures value { result ≡ cell_at self.old.cells number }
        ensures left { self.new ≡ record self.old {
          cells = slice_set self.old.cells number None;
          spare = self.old.spare + (if is_some result then 1 else 0);
        } }
    {
        let number = number as usize;
        if number >= self.keys.len() {
            return None;
        }
        let key = self.keys[number];
        let count = self.values.len();
        if key as usize >= count {
            return None;
        }
        let last = self.values[count - 1].number;
        self.keys[last as usize] = key;
        self.keys[number] = HOLE;
        let taken = self.values.swap_remove(key as usize);
        Some(taken.value)
    }
}

/// Reaches the numbers below a bound by holes.
fn fill(keys: &mut Vec<u32>, end: usize)
    requires { end ≤ vec_capacity keys.old }
    ensures keys { key_at keys.new.items ≡ key_at keys.old.items }
    ensures len { length keys.new.items ≡ max (length keys.old.items) end }
    ensures capacity { vec_capacity keys.new ≡ vec_capacity keys.old }
{
    while keys.len() < end {
        keys.push_reserved(HOLE);
    }
}
