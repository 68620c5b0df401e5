// Values in a list, whose places are in classes of six sets.
ghost use Rattle.std.specs.Prelude.{◌≡◌, ◌==◌, ◌<◌, ◌≤◌, ◌+◌, ◌*◌, ◌/◌, min, ℕ, [], ◌∷◌, ◌++◌, None, Some, IfSome, OnOk, true, length, nat_lt, option_map, remove, slice_get};
ghost use Rattle.linked_classes.specs.Cells.{cell_at};
ghost use Rattle.linked_classes.specs.Classes.{class_of};
ghost use Rattle.linked_classes.specs.Linked.{IsNext, IsBefore, IsFirst, IsLast, updated};
ghost use Rattle.linked_classes.specs.Places.{IsNumber, place_in};
ghost use Rattle.linked_classes.specs.Sets.{IsPut, in_slot, set_of};

use crate::classes::LinkedClasses;
use crate::listed::NumberedVec;
use std::alloc::{AllocError, Global};
use std::marker::Model;

/// How many sets of classes there are.
pub const SETS: u32 = 6;

/// No number is this or greater, so that there is a `u32` for each number and set.
const MOST: u32 = 715_827_882;

/// A list of values that come at the end and go anywhere, whose places are in classes: in each of six sets in one class or in
/// none. All sets have the same numbers: each value has one, of its own as long as it is there, and from a number in a class one
/// goes to the next there, or to the one before it, in one step. A value costs 36 bytes beside itself, and 24 in each set in which
/// it is in a class; one that is gone 32; and a class 16 in each set.
///
/// Each number has a slot for each set, and the classes are those of the slots: a class of one set is no class of another.
#[derive(Debug, Drop)]
pub struct ClassedVec<T> {
    listed: NumberedVec<T>,
    slots: LinkedClasses,
}

impl<T> Model for ClassedVec<T> {
    ghost use Rattle.linked_classes.specs.Sets.{Classed, classed_code};

    ghost Value = { Classed T };

    ghost coded = { classed_code T.code };

    ghost use Rattle.std.specs.Prelude.{◌/◌, min, length};
    ghost use Rattle.linked_classes.specs.Classes.{class_of};
    ghost use Rattle.linked_classes.specs.Sets.{AreSets, has_classed_room};

    ghost view = { λ s. record {
      items = s.listed.items;
      numbers = s.listed.numbers;
      slots = s.slots.classes;
      width = min (s.slots.width / 6) 715827882;
      has_room = has_classed_room s.listed.has_room s.listed.end s.slots;
    } };

    ghost invariant = { λ s. AreSets s.listed.numbers (class_of s.slots) s.listed.end (length s.listed.items) (length s.slots.classes) };
}

impl<T> ClassedVec<T> {
    /// No values and no classes. Takes no memory.
    pub fn new(alloc: Global) -> ClassedVec<T>
        ensures items { result.items ≡ [] }
        ensures numbers { result.numbers ≡ [] }
        ensures width { result.width ≡ 0 }
    {
        ClassedVec {
            listed: NumberedVec::new(alloc),
            slots: LinkedClasses::new(alloc),
        }
    }

    /// Where its memory comes from.
    pub fn allocator(&self) -> Global {
        self.listed.allocator()
    }

    /// How many values there are, told at once.
    pub fn len(&self) -> usize
        ensures { result ≡ length self.now.items }
    {
        self.listed.len()
    }

    /// Whether there is none.
    pub fn is_empty(&self) -> bool
        ensures { result ≡ (length self.now.items == 0) }
    {
        self.listed.is_empty()
    }

    /// The value at a place, in the time of `RisingNumbers::get`.
    pub fn get(&self, at: usize) -> &T
        requires { at < length self.now.items }
        ensures { slice_get self.now.items at ≡ Some result.now }
    {
        self.listed.get(at)
    }

    /// The number of the value at a place, in the same time.
    pub fn number(&self, at: usize) -> u32
        requires { at < length self.now.items }
        ensures there { IsNumber self.now.numbers result }
        ensures place { place_in self.now.numbers result ≡ at }
    {
        self.listed.number(at)
    }

    /// The place of a number, in nine steps.
    pub fn place(&self, number: u32) -> usize
        requires { IsNumber self.now.numbers number }
        ensures place { result ≡ place_in self.now.numbers number }
        ensures within { result < length self.now.items }
    {
        self.listed.place(number)
    }

    /// The value of a number, in one step.
    pub fn of_number(&self, number: u32) -> &T
        requires { IsNumber self.now.numbers number }
        ensures { slice_get self.now.items (place_in self.now.numbers number) ≡ Some result.now }
    {
        self.listed.of_number(number)
    }

    /// Whether a number is behind another, in one step.
    pub fn is_behind(&self, number: u32, other: u32) -> bool
        requires number { IsNumber self.now.numbers number }
        requires other { IsNumber self.now.numbers other }
        ensures { result ≡ nat_lt (place_in self.now.numbers other) (place_in self.now.numbers number) }
    {
        // opens the value: its invariant says that numbers rise with the places
        let _listed = &self.listed;
        other < number
    }

    /// The first number of a class in a set, in one step.
    pub fn first(&self, set: u32, class: u32) -> Option<u32>
        requires set { set < 6 }
        requires class { class < 715827882 }
        ensures first { IsFirst (cell_at (set_of self.now set)) class (option_map (place_in self.now.numbers) result) }
        ensures there { IfSome result (IsNumber self.now.numbers) }
        ensures within { IfSome result (λ n. place_in self.now.numbers n < length self.now.items) }
    {
        number_of(self.slots.first(slot_of(class, set)))
    }

    /// The last number of a class in a set, in one step.
    pub fn last(&self, set: u32, class: u32) -> Option<u32>
        requires set { set < 6 }
        requires class { class < 715827882 }
        ensures last { IsLast (cell_at (set_of self.now set)) class (option_map (place_in self.now.numbers) result) }
        ensures there { IfSome result (IsNumber self.now.numbers) }
        ensures within { IfSome result (λ n. place_in self.now.numbers n < length self.now.items) }
    {
        number_of(self.slots.last(slot_of(class, set)))
    }

    /// The next number of the class of a number in a set, in one step.
    pub fn next(&self, set: u32, number: u32) -> Option<u32>
        requires set { set < 6 }
        requires number { IsNumber self.now.numbers number }
        ensures member { (c : ℕ) → cell_at (set_of self.now set) (place_in self.now.numbers number) ≡ Some c
            → IsNext (cell_at (set_of self.now set)) c (place_in self.now.numbers number) (option_map (place_in self.now.numbers) result) }
        ensures none { cell_at (set_of self.now set) (place_in self.now.numbers number) ≡ None → result ≡ None }
        ensures there { IfSome result (IsNumber self.now.numbers) }
        ensures later { IfSome result (λ n. place_in self.now.numbers number < place_in self.now.numbers n) }
        ensures within { IfSome result (λ n. place_in self.now.numbers n < length self.now.items) }
    {
        number_of(self.slots.next(slot_of(number, set)))
    }

    /// The number before one of the class of that in a set, in one step.
    pub fn before(&self, set: u32, number: u32) -> Option<u32>
        requires set { set < 6 }
        requires number { IsNumber self.now.numbers number }
        ensures member { (c : ℕ) → cell_at (set_of self.now set) (place_in self.now.numbers number) ≡ Some c
            → IsBefore (cell_at (set_of self.now set)) c (place_in self.now.numbers number) (option_map (place_in self.now.numbers) result) }
        ensures none { cell_at (set_of self.now set) (place_in self.now.numbers number) ≡ None → result ≡ None }
        ensures there { IfSome result (IsNumber self.now.numbers) }
        ensures earlier { IfSome result (λ n. place_in self.now.numbers n < place_in self.now.numbers number) }
    {
        number_of(self.slots.before(slot_of(number, set)))
    }

    /// Makes room for one more value, and for the classes below a bound in each set. Refused where memory is, and where
    /// 715,827,882 values have come.
    pub fn reserve(&mut self, width: usize) -> Result<(), AllocError>
        requires { width ≤ 715827882 }
        ensures items { self.new.items ≡ self.old.items }
        ensures numbers { self.new.numbers ≡ self.old.numbers }
        ensures slots { self.new.slots ≡ self.old.slots }
        ensures room { OnOk result (self.new.has_room ≡ true) }
        ensures width { OnOk result (width ≤ self.new.width) }
        ensures old_width { self.old.width ≤ self.new.width }
    {
        let end = self.listed.end();
        if end >= MOST {
            return Err(AllocError);
        }
        self.listed.reserve()?;
        let sets = SETS as usize;
        self.slots
            .reserve((end as usize + 1) * sets, sets, width * sets)
    }

    /// Adds a value at the end, in a class or in none in each set. Takes no memory, and a few steps for each class.
    pub fn push(&mut self, value: T, classes: &[Option<u32>; 6])
        requires room { self.old.has_room ≡ true }
        requires classes { (set : ℕ) → set < 6 → IfSome (cell_at classes.now set) (λ c. c < self.old.width) }
        ensures items { self.new.items ≡ self.old.items ++ value ∷ [] }
        ensures sets { (set : ℕ) → set < 6 → set_of self.new set ≡ set_of self.old set ++ cell_at classes.now set ∷ [] }
        ensures width { self.new.width ≡ self.old.width }
    {
        let number = self.listed.push(value);
        put_all(&mut self.slots, number, classes);
    }

    /// Takes the value at a place out: the others stay in their order. Takes no memory, a few steps for each class, and the time of
    /// `RisingNumbers::remove`.
    pub fn remove(&mut self, at: usize) -> T
        requires { at < length self.old.items }
        ensures value { slice_get self.old.items at ≡ Some result }
        ensures items { self.new.items ≡ remove self.old.items at }
        ensures sets { (set : ℕ) → set < 6 → set_of self.new set ≡ remove (set_of self.old set) at }
        ensures width { self.new.width ≡ self.old.width }
    {
        let number = self.listed.number(at);
        take_all(&mut self.slots, number);
        self.listed.remove(at)
    }
}

/// The slot of a number in a set; and the class there of a class.
fn slot_of(number: u32, set: u32) -> u32
    requires set { set < 6 }
    requires number { number < 715827882 }
    ensures { result ≡ 6 * number + set }
{
    SETS * number + set
}

/// The number of a slot.
fn number_of(slot: Option<u32>) -> Option<u32>
    ensures { result ≡ option_map (λ s. s / 6) slot }
{
    match slot {
        Some(slot) => Some(slot / SETS),
        None => None,
    }
}

/// Puts the slots of a number, which is behind all others, into these classes.
fn put_all(slots: &mut LinkedClasses, number: u32, classes: &[Option<u32>; 6])
    requires number { number < 715827882 }
    requires after { length slots.old.classes ≤ 6 * number }
    requires room { 6 * number + 6 ≤ slots.old.room }
    requires spare { 6 ≤ slots.old.spare }
    requires classes { (set : ℕ) → set < 6 → IfSome (cell_at classes.now set) (λ c. c < min (slots.old.width / 6) 715827882) }
    ensures put { IsPut (class_of slots.old) (class_of slots.new) number 6 classes.now }
    ensures end { length slots.new.classes ≤ 6 * number + 6 }
    ensures width { slots.new.width ≡ slots.old.width }
{
    for set in 0..SETS {
        put(slots, number, set, classes[set as usize]);
    }
}

/// Puts the slot of a number in a set into a class there, if there is one.
fn put(slots: &mut LinkedClasses, number: u32, set: u32, class: Option<u32>)
    requires set { set < 6 }
    requires number { number < 715827882 }
    requires after { length slots.old.classes ≤ 6 * number + set }
    requires room { 6 * number + 6 ≤ slots.old.room }
    requires spare { 1 ≤ slots.old.spare }
    requires class { IfSome class (λ c. c < min (slots.old.width / 6) 715827882) }
    ensures classes { (s : ℕ) → class_of slots.new s ≡ updated (6 * number + set) (class_of slots.old) (in_slot set class) s }
    ensures end { length slots.new.classes ≤ 6 * number + set + 1 }
    ensures width { slots.new.width ≡ slots.old.width }
    ensures room { slots.new.room ≡ slots.old.room }
    ensures spare { slots.old.spare ≤ slots.new.spare + 1 }
{
    let Some(class) = class else {
        return;
    };
    slots.push(slot_of(number, set), class * SETS + set);
}

/// Takes the slots of a number out of their classes.
fn take_all(slots: &mut LinkedClasses, number: u32)
    requires { number < 715827882 }
    ensures taken { IsPut (class_of slots.old) (class_of slots.new) number 6 [] }
    ensures end { length slots.new.classes ≡ length slots.old.classes }
    ensures width { slots.new.width ≡ slots.old.width }
    ensures room { slots.new.room ≡ slots.old.room }
{
    for set in 0..SETS {
        slots.remove(slot_of(number, set));
    }
}
