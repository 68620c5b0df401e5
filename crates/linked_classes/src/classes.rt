// Numbers in classes.
ghost use Rattle.std.specs.Prelude.{◌≡◌, ◌<◌, ◌≤◌, ◌+◌, ◌-◌, [], None, Some, IfSome, IfNone, OnOk, is_some, if◌then◌else◌, length, ℕ};
ghost use Rattle.linked_classes.specs.Classes.{class_of};
ghost use Rattle.linked_classes.specs.Linked.{IsNext, IsBefore, IsFirst, IsLast, updated};
ghost use Rattle.linked_classes.specs.Members.{FitsAt, StandsAt};

use crate::member::{Member, link_before, link_next, widen, write_end};
use crate::sparse::SparseVec;
use std::alloc::{AllocError, Global};
use std::marker::Model;

/// Numbers from 0 on, each in one class or in none, and each member of a class linked to its neighbours there, the next
/// greater and the next less. Classes are numbers too. A number that was reached costs four bytes, a member 24 more, and a
/// class 16.
#[derive(Debug, Drop)]
pub struct LinkedClasses {
    members: SparseVec<Member>,
    first: Vec<Option<u32>>,
    last: Vec<Option<u32>>,
}

impl Model for LinkedClasses {
    ghost use Rattle.std.specs.Prelude.{length, map};
    ghost use Rattle.linked_classes.specs.Classes.{Classes};

    ghost Value = { Classes };

    ghost use Rattle.linked_classes.specs.Cells.{cell_at};
    ghost use Rattle.linked_classes.specs.Members.{class_in, AreMembers};

    ghost view = { λ a. record {
      classes = map class_in a.members.cells;
      width = length a.first.items;
      room = a.members.room;
      spare = a.members.spare;
    } };

    ghost invariant = { λ a. AreMembers (cell_at a.members.cells) a.first.items a.last.items };
}

impl LinkedClasses {
    /// No numbers and no classes. Takes no memory.
    pub fn new(alloc: Global) -> LinkedClasses
        ensures { result ≡ record { classes = []; width = 0; room = 0; spare = 0 } }
    {
        LinkedClasses {
            members: SparseVec::new(alloc),
            first: Vec::new(alloc),
            last: Vec::new(alloc),
        }
    }

    /// Makes room for the numbers below a bound, for so many more members, and for the classes below a bound. Refused where
    /// memory is, and where there would be more than 4,294,967,295 members: then no room is less than before.
    pub fn reserve(&mut self, numbers: usize, more: usize, classes: usize) -> Result<(), AllocError>
        ensures classes { self.new.classes ≡ self.old.classes }
        ensures room { OnOk result (numbers ≤ self.new.room) }
        ensures spare { OnOk result (more ≤ self.new.spare) }
        ensures width { OnOk result (classes ≤ self.new.width) }
        ensures old_room { self.old.room ≤ self.new.room }
        ensures old_spare { self.old.spare ≤ self.new.spare }
        ensures old_width { self.old.width ≤ self.new.width }
    {
        widen(&mut self.last, classes)?;
        widen(&mut self.first, classes)?;
        self.members.reserve(numbers, more)
    }

    /// The number behind all that were ever members.
    pub fn end(&self) -> usize
        ensures { result ≡ length self.now.classes }
    {
        self.members.end()
    }

    /// The class of a number and its neighbours there, in one step.
    pub fn member(&self, number: u32) -> Option<Member>
        ensures some { IfSome result (λ m. StandsAt (class_of self.now) number m) }
        ensures none { IfNone result (class_of self.now number ≡ None) }
        ensures known { IfSome result (λ m. m.class < self.now.width) }
    {
        self.members.get(number).copied()
    }

    /// The class of a number, in one step.
    pub fn class(&self, number: u32) -> Option<u32>
        ensures class { result ≡ class_of self.now number }
        ensures known { IfSome result (λ c. c < self.now.width) }
    {
        match self.members.get(number) {
            Some(member) => Some(member.class),
            None => None,
        }
    }

    /// The next greater member of the class of a member, in one step.
    pub fn next(&self, number: u32) -> Option<u32>
        ensures member { (c : ℕ) → class_of self.now number ≡ Some c → IsNext (class_of self.now) c number result }
        ensures none { class_of self.now number ≡ None → result ≡ None }
    {
        match self.members.get(number) {
            Some(member) => member.next,
            None => None,
        }
    }

    /// The next lesser member of the class of a member, in one step.
    pub fn before(&self, number: u32) -> Option<u32>
        ensures member { (c : ℕ) → class_of self.now number ≡ Some c → IsBefore (class_of self.now) c number result }
        ensures none { class_of self.now number ≡ None → result ≡ None }
    {
        match self.members.get(number) {
            Some(member) => member.before,
            None => None,
        }
    }

    /// The least member of a class, in one step.
    pub fn first(&self, class: u32) -> Option<u32>
        ensures { IsFirst (class_of self.now) class result }
    {
        match self.first.get(class as usize) {
            Some(end) => *end,
            None => None,
        }
    }

    /// The greatest member of a class, in one step.
    pub fn last(&self, class: u32) -> Option<u32>
        ensures { IsLast (class_of self.now) class result }
    {
        match self.last.get(class as usize) {
            Some(end) => *end,
            None => None,
        }
    }

    /// Puts a number into a class, greater than all that were ever members. Takes no memory, a few steps, and one for each
    /// number that is passed over.
    pub fn push(&mut self, number: u32, class: u32)
        requires after { length self.old.classes ≤ number }
        requires room { number < self.old.room }
        requires spare { 1 ≤ self.old.spare }
        requires class { class < self.old.width }
        ensures classes { class_of self.new ≡ updated number (class_of self.old) (Some class) }
        ensures end { length self.new.classes ≡ number + 1 }
        ensures width { self.new.width ≡ self.old.width }
        ensures room { self.new.room ≡ self.old.room }
        ensures spare { self.new.spare ≡ self.old.spare - 1 }
    {
        let before = self.last[class as usize];
        self.members.extend_to(number as usize + 1);
        self.restore(
            number,
            Member {
                class,
                before,
                next: None,
            },
        );
    }

    /// Takes a number out of its class, and tells where it stood. Takes no memory, and a few steps wherever it stands.
    pub fn remove(&mut self, number: u32) -> Option<Member>
        ensures some { IfSome result (λ m. StandsAt (class_of self.old) number m) }
        ensures none { IfNone result (class_of self.old number ≡ None) }
        ensures known { IfSome result (λ m. m.class < self.old.width) }
        ensures classes { class_of self.new ≡ updated number (class_of self.old) None }
        ensures end { length self.new.classes ≡ length self.old.classes }
        ensures width { self.new.width ≡ self.old.width }
        ensures room { self.new.room ≡ self.old.room }
        ensures spare { self.new.spare ≡ self.old.spare + (if is_some result then 1 else 0) }
    {
        let Some(member) = self.members.take(number) else {
            return None;
        };
        link_next(&mut self.members, member.before, member.next);
        link_before(&mut self.members, member.next, member.before);
        write_end(&mut self.first, member.class, member.before, member.next);
        write_end(&mut self.last, member.class, member.next, member.before);
        Some(member)
    }

    /// Puts a number that was a member between its neighbours in a class: those that `remove` told, where the class has
    /// the members that were left then. Takes no memory, and a few steps wherever it stands.
    pub fn restore(&mut self, number: u32, member: Member)
        requires number { number < length self.old.classes }
        requires absent { class_of self.old number ≡ None }
        requires spare { 1 ≤ self.old.spare }
        requires class { member.class < self.old.width }
        requires fits { FitsAt (class_of self.old) number member }
        ensures classes { class_of self.new ≡ updated number (class_of self.old) (Some member.class) }
        ensures end { length self.new.classes ≡ length self.old.classes }
        ensures width { self.new.width ≡ self.old.width }
        ensures room { self.new.room ≡ self.old.room }
        ensures spare { self.new.spare ≡ self.old.spare - 1 }
    {
        self.members.put(number, member);
        link_next(&mut self.members, member.before, Some(number));
        link_before(&mut self.members, member.next, Some(number));
        write_end(&mut self.first, member.class, member.before, Some(number));
        write_end(&mut self.last, member.class, member.next, Some(number));
    }
}
