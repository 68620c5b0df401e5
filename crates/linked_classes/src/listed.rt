// Values in a list from which one goes anywhere at a low price.
ghost use Rattle.std.specs.Prelude.{◌≡◌, ◌==◌, ◌<◌, ◌+◌, [], ◌∷◌, ◌++◌, Some, OnOk, true, length, remove, slice_get};
ghost use Rattle.linked_classes.specs.Places.{IsNumber, place_in};

use crate::numbers::RisingNumbers;
use crate::sparse::SparseVec;
use std::alloc::{AllocError, Global};
use std::marker::Model;

/// A list of values that come at the end and go anywhere, without a move of those behind: each has a number of its own as long as
/// it is there. A value at a place is found in the time of `RisingNumbers::get`. One costs 8 bytes beside itself, and one that is
/// gone 8.
#[derive(Debug, Drop)]
pub struct NumberedVec<T> {
    numbers: RisingNumbers,
    values: SparseVec<T>,
}

impl<T> Model for NumberedVec<T> {
    ghost use Rattle.linked_classes.specs.Listed.{Listed, listed_code};

    ghost Value = { Listed T };

    ghost coded = { listed_code T.code };

    ghost use Rattle.linked_classes.specs.Cells.{cell_at};
    ghost use Rattle.linked_classes.specs.Listed.{AreFilled, has_listed_room, values_at};

    ghost view = { λ s. record {
      items = values_at (cell_at s.values.cells) s.numbers.items;
      numbers = s.numbers.items;
      end = s.numbers.end;
      has_room = has_listed_room s.numbers s.values;
    } };

    ghost invariant = { λ s. AreFilled s.numbers.items s.numbers.end s.values.cells };
}

impl<T> NumberedVec<T> {
    /// No values. Takes no memory.
    pub fn new(alloc: Global) -> NumberedVec<T>
        ensures items { result.items ≡ [] }
        ensures numbers { result.numbers ≡ [] }
        ensures end { result.end ≡ 0 }
    {
        NumberedVec {
            numbers: RisingNumbers::new(alloc),
            values: SparseVec::new(alloc),
        }
    }

    /// Where its memory comes from.
    pub fn allocator(&self) -> Global {
        self.numbers.allocator()
    }

    /// How many values there are, told at once.
    pub fn len(&self) -> usize
        ensures { result ≡ length self.now.items }
    {
        self.numbers.len()
    }

    /// Whether there is none.
    pub fn is_empty(&self) -> bool
        ensures { result ≡ (length self.now.items == 0) }
    {
        self.numbers.is_empty()
    }

    /// The value at a place.
    pub fn get(&self, at: usize) -> &T
        requires { at < length self.now.items }
        ensures { slice_get self.now.items at ≡ Some result.now }
    {
        let Some(value) = self.values.get(self.numbers.get(at)) else {
            unreachable!()
        };
        value
    }

    /// The number that the next value gets.
    pub fn end(&self) -> u32
        ensures { result ≡ self.now.end }
    {
        self.numbers.end()
    }

    /// The number of the value at a place, in the same time.
    pub fn number(&self, at: usize) -> u32
        requires { at < length self.now.items }
        ensures number { slice_get self.now.numbers at ≡ Some result }
        ensures place { place_in self.now.numbers result ≡ at }
    {
        self.numbers.get(at)
    }

    /// The place of a number, in nine steps.
    pub fn place(&self, number: u32) -> usize
        requires { IsNumber self.now.numbers number }
        ensures { result ≡ place_in self.now.numbers number }
    {
        self.numbers.place(number)
    }

    /// The value of a number, in one step.
    pub fn of_number(&self, number: u32) -> &T
        requires { IsNumber self.now.numbers number }
        ensures { slice_get self.now.items (place_in self.now.numbers number) ≡ Some result.now }
    {
        let Some(value) = self.values.get(number) else {
            unreachable!()
        };
        value
    }

    /// Makes room for one more value. Refused where memory is, and where 4,294,967,295 values have come.
    pub fn reserve(&mut self) -> Result<(), AllocError>
        ensures items { self.new.items ≡ self.old.items }
        ensures numbers { self.new.numbers ≡ self.old.numbers }
        ensures end { self.new.end ≡ self.old.end }
        ensures room { OnOk result (self.new.has_room ≡ true) }
    {
        self.numbers.reserve()?;
        self.values.reserve(self.numbers.end() as usize + 1, 1)
    }

    /// Adds a value at the end, and gives its number. Takes no memory, and a few steps.
    pub fn push(&mut self, value: T) -> u32
        requires { self.old.has_room ≡ true }
        ensures number { result ≡ self.old.end }
        ensures items { self.new.items ≡ self.old.items ++ value ∷ [] }
        ensures numbers { self.new.numbers ≡ self.old.numbers ++ result ∷ [] }
        ensures end { self.new.end ≡ self.old.end + 1 }
    {
        let number = self.numbers.push();
        self.values.extend_to(number as usize + 1);
        self.values.put(number, value);
        number
    }

    /// Takes the value at a place out: the others stay in their order. Takes no memory, and the time of `RisingNumbers::remove`.
    pub fn remove(&mut self, at: usize) -> T
        requires { at < length self.old.items }
        ensures value { slice_get self.old.items at ≡ Some result }
        ensures items { self.new.items ≡ remove self.old.items at }
        ensures numbers { self.new.numbers ≡ remove self.old.numbers at }
        ensures end { self.new.end ≡ self.old.end }
    {
        let number = self.numbers.remove(at);
        let Some(value) = self.values.take(number) else {
            unreachable!()
        };
        value
    }
}
