// Names in classes by their hash.
ghost use Rattle.std.specs.Prelude.{◌≡◌, ◌+◌, ◌∷◌, ◌++◌, ◌==◌, [], ℕ, OnOk, length};
ghost use Rattle.step_history.specs.SettledNames.{HasRoomFor, is_name_among};

use crate::name_bucket::{BUCKETS, bucket};
use linked_classes::LinkedClasses;
use std::alloc::{AllocError, Global};
use std::marker::Model;
use step_names::StepName;

/// Names of steps in the order in which they came. Contracts see their list, and the room for more. A name costs some 40 bytes beside
/// its own, and all together 131,000 once.
#[derive(Drop)]
pub struct SettledNames {
    names: Vec<StepName>,
    classes: LinkedClasses,
}

impl Model for SettledNames {
    ghost use Rattle.std.specs.Prelude.{vec_capacity};
    ghost use Rattle.std.specs.Coded.{codes};
    ghost use Rattle.step_names.specs.contracts.step.StepName as name_row;
    ghost use Rattle.step_history.specs.SettledNames.{SettledNamesView, AreClassed};

    ghost Value = { SettledNamesView };

    ghost coded = { Prim.hlevel (codes, name_row.the_row.coded) };

    ghost view = { λ a. record {
      items = a.names.items;
      capacity = vec_capacity a.names;
      room = a.classes.room;
      spare = a.classes.spare;
      width = a.classes.width;
    } };

    ghost invariant = { λ a. AreClassed a.names.items a.classes };
}

impl SettledNames {
    /// No names. Takes no memory.
    pub fn new(alloc: Global) -> SettledNames
        ensures { result.items ≡ [] }
    {
        SettledNames {
            names: Vec::new(alloc),
            classes: LinkedClasses::new(alloc),
        }
    }

    /// How many there are.
    pub fn len(&self) -> usize
        ensures { result ≡ length self.now.items }
    {
        self.names.len()
    }

    /// Whether there is none.
    pub fn is_empty(&self) -> bool
        ensures { result ≡ (length self.now.items == 0) }
    {
        self.names.is_empty()
    }

    /// Makes room for so many more. Refused where memory is, and where there would be more than 4,294,967,295.
    pub fn reserve(&mut self, more: usize) -> Result<(), AllocError>
        ensures items { self.new.items ≡ self.old.items }
        ensures room { OnOk result (HasRoomFor self.new more) }
    {
        let Some(end) = self.names.len().checked_add(more) else {
            return Err(AllocError);
        };
        if u32::MAX as usize <= end {
            return Err(AllocError);
        }
        self.names.reserve(more)?;
        self.classes.reserve(end, more, BUCKETS as usize)
    }

    /// Adds a name at the end. Takes no memory, and the time to hash it.
    pub fn push(&mut self, name: StepName)
        requires { HasRoomFor self.old 1 }
        ensures items { self.new.items ≡ self.old.items ++ name ∷ [] }
        ensures room { (n : ℕ) → HasRoomFor self.old (n + 1) → HasRoomFor self.new n }
    {
        let number = self.names.len() as u32;
        self.classes.push(number, bucket(&name));
        self.names.push_reserved(name);
    }

    /// Whether a name is among them. Takes no memory; looks at those that have its hash.
    pub fn contains(&self, name: &StepName) -> bool
        ensures { result ≡ is_name_among name.now self.now.items }
    {
        let mut next = self.classes.first(bucket(name));
        while let Some(number) = next {
            if self.names[number as usize] == *name {
                return true;
            }
            next = self.classes.next(number);
        }
        false
    }
}
