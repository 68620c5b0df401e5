// The calls of a list.
ghost use Rattle.std.specs.Prelude.{◌≡◌, ◌<◌, ◌↔◌, ◌++◌, ◌∷◌, [], length, None, Some, option_map, IsTrue, IfOk, IfErr, OnOk, OnErr, slice_get, slice_set};
ghost use Rattle.json_tree.specs.View.{data_of, list_of};

use crate::nesting::{depth, levels_of_items};
use crate::told::Told;
use crate::tree::{ChangeFault, Json, JsonList};
use std::alloc::{AllocError, AllocFailed, Global};
use std::mem;
use std::sync::Arc;

impl JsonList {
    ghost use Rattle.std.specs.Borrow.{sem};
    ghost use Rattle.json_tree.specs.Lending.{LendsItem};

    /// An empty list, which takes no memory.
    pub fn new(alloc: Global) -> JsonList
        ensures { result ≡ [] }
    {
        JsonList {
            alloc,
            inner: None,
            told: Told::empty(),
        }
    }

    /// The same values, in the memory that they have. Takes memory for a node, unless there is no value; the error has the
    /// values.
    pub fn from_vec(items: Vec<Json>) -> Result<JsonList, AllocFailed<Vec<Json>>>
        ensures ok { IfOk result (λ l. l ≡ list_of items.items) }
        ensures value_returned { IfErr result (λ e. e.value ≡ items) }
    {
        let alloc = *items.allocator();
        if items.is_empty() {
            return Ok(JsonList::new(alloc));
        }
        let told = Told::exactly(levels_of_items(items.as_slice()));
        match Arc::new(alloc, items) {
            Ok(node) => Ok(JsonList {
                alloc,
                inner: Some(node),
                told,
            }),
            Err(refused) => Err(refused),
        }
    }

    /// The same values: in the memory that they have, or in new memory where the list is shared.
    pub fn into_vec(self) -> Result<Vec<Json>, AllocError>
        ensures { IfOk result (λ v. list_of v.items ≡ self) }
    {
        let JsonList {
            alloc,
            inner,
            told: _,
        } = self;
        match inner {
            Some(node) => Arc::unwrap_or_clone(node),
            None => Ok(Vec::new(alloc)),
        }
    }

    /// The values in order, lent.
    pub fn as_slice(&self) -> &[Json]
        ensures { list_of result.now ≡ self.now }
    {
        match &self.inner {
            Some(items) => items.as_slice(),
            None => &[],
        }
    }

    /// How many values the list has, told at once.
    pub fn len(&self) -> usize
        ensures { result ≡ length self.now }
    {
        self.as_slice().len()
    }

    /// Whether the list has no value.
    pub fn is_empty(&self) -> bool
        ensures { IsTrue result ↔ (self.now ≡ []) }
    {
        self.as_slice().is_empty()
    }

    /// The value at an index from 0, in one step. Takes no memory.
    pub fn get(&self, index: usize) -> Option<&Json>
        ensures { option_map (λ j. data_of j.now) result ≡ slice_get self.now index }
    {
        self.as_slice().get(index)
    }

    /// The same, to be written: what is left there stands in this list, and in none that shares its values. Where it is
    /// shared, memory for a list as long is taken first, whose values stay shared. Once a value was lent, `depth` looks at
    /// each value of this list: `replace` leaves the depth told.
    pub fn get_mut(&mut self, index: usize) -> Result<&mut Json, ChangeFault>
        ensures* writes_back { sem 𝓛 (LendsItem self.entry index result) }
        ensures value { IfOk result (λ j. slice_get self.old index ≡ Some (data_of j.now)) }
        ensures absent { IfErr result (λ e. (e ≡ ChangeFault.Absent) ↔ (slice_get self.old index ≡ None)) }
    {
        if index >= self.len() {
            return Err(ChangeFault::Absent);
        }
        if self.own_node().is_err() {
            return Err(ChangeFault::Memory);
        }
        self.told = Told::unknown();
        let Some(node) = self.inner.as_mut() else {
            return Err(ChangeFault::Absent);
        };
        let Ok(items) = Arc::make_mut(node) else {
            return Err(ChangeFault::Memory);
        };
        Ok(&mut items[index])
    }

    /// Has the values for this list alone. What is told of them stays, also where memory is refused.
    fn own_node(&mut self) -> Result<(), AllocError>
        ensures { self.new ≡ self.old }
    {
        let Some(node) = self.inner.as_mut() else {
            return Ok(());
        };
        match Arc::make_mut(node) {
            Ok(_items) => Ok(()),
            Err(_refused) => Err(AllocError),
        }
    }

    /// Puts a value in the place of the one at an index from 0, and hands that one out. Takes memory for a list as long,
    /// where the list is shared; its values stay shared. Where the deepest value gives way to one less deep, each value is
    /// asked for its depth. The error has the value.
    pub fn replace(&mut self, index: usize, value: Json) -> Result<Json, AllocFailed<Json>>
        requires { index < length self.old }
        ensures ok { OnOk result (self.new ≡ slice_set self.old index (data_of value)) }
        ensures replaced { IfOk result (λ j. slice_get self.old index ≡ Some (data_of j)) }
        ensures err { OnErr result (self.new ≡ self.old) }
        ensures value_returned { IfErr result (λ e. e.value ≡ value) }
    {
        let before = self.told;
        let levels = depth(&value);
        match self.replace_untold(index, value) {
            Ok(replaced) => {
                self.told = before.replaced(depth(&replaced), levels);
                self.tell_again(before);
                Ok(replaced)
            }
            Err(refused) => {
                self.told = before;
                Err(refused)
            }
        }
    }

    fn replace_untold(&mut self, index: usize, value: Json) -> Result<Json, AllocFailed<Json>>
        requires { index < length self.old }
        ensures ok { OnOk result (self.new ≡ slice_set self.old index (data_of value)) }
        ensures replaced { IfOk result (λ j. slice_get self.old index ≡ Some (data_of j)) }
        ensures err { OnErr result (self.new ≡ self.old) }
        ensures value_returned { IfErr result (λ e. e.value ≡ value) }
    {
        self.told = Told::unknown();
        let Some(node) = self.inner.as_mut() else {
            return Err(AllocFailed { value });
        };
        let Ok(items) = Arc::make_mut(node) else {
            return Err(AllocFailed { value });
        };
        Ok(mem::replace(&mut items[index], value))
    }

    /// Looks at each value where what was told before is so no more.
    fn tell_again(&mut self, before: Told)
        ensures { self.new ≡ self.old }
    {
        if self.told.is_lost(before) {
            self.told = Told::exactly(levels_of_items(self.as_slice()));
        }
    }

    /// Puts a value at the end, on average in one step, where the list is not shared: the memory grows as a `Vec`'s does.
    /// Where it is, memory for a longer list is taken. The error has the value.
    pub fn push(&mut self, value: Json) -> Result<(), AllocFailed<Json>>
        ensures ok { OnOk result (self.new ≡ self.old ++ data_of value ∷ []) }
        ensures err { OnErr result (self.new ≡ self.old) }
        ensures value_returned { IfErr result (λ e. e.value ≡ value) }
    {
        let before = self.told;
        let told = before.and(depth(&value));
        match self.push_untold(value) {
            Ok(()) => {
                self.told = told;
                Ok(())
            }
            Err(refused) => {
                self.told = before;
                Err(refused)
            }
        }
    }

    fn push_untold(&mut self, value: Json) -> Result<(), AllocFailed<Json>>
        ensures ok { OnOk result (self.new ≡ self.old ++ data_of value ∷ []) }
        ensures err { OnErr result (self.new ≡ self.old) }
        ensures value_returned { IfErr result (λ e. e.value ≡ value) }
    {
        self.told = Told::unknown();
        let Some(node) = self.inner.as_mut() else {
            return self.push_first(value);
        };
        let Ok(items) = Arc::make_mut(node) else {
            return Err(AllocFailed { value });
        };
        items.push(value)
    }

    fn push_first(&mut self, value: Json) -> Result<(), AllocFailed<Json>>
        requires { self.old ≡ [] }
        ensures ok { OnOk result (self.new ≡ data_of value ∷ []) }
        ensures err { OnErr result (self.new ≡ self.old) }
        ensures value_returned { IfErr result (λ e. e.value ≡ value) }
    {
        let Ok(mut node) = Arc::new(self.alloc, Vec::new(self.alloc)) else {
            return Err(AllocFailed { value });
        };
        let Some(empty) = Arc::get_mut(&mut node) else {
            return Err(AllocFailed { value });
        };
        empty.push(value)?;
        self.told = Told::unknown();
        self.inner = Some(node);
        Ok(())
    }

    /// The same list, shared, in one step. Takes no memory, and is refused only where its owners cannot be counted.
    pub fn copy(&self) -> Result<JsonList, AllocError>
        ensures { IfOk result (λ j. j ≡ self.now) }
    {
        let inner = match &self.inner {
            Some(items) => Some(Arc::try_clone(items)?),
            None => None,
        };
        Ok(JsonList {
            alloc: self.alloc,
            inner,
            told: self.told,
        })
    }
}
