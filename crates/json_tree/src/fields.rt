// The calls of an object's fields, and the search among them by a name.
ghost use Rattle.std.specs.Prelude.{◌≡◌, ◌↔◌, ◌∷◌, [], length, None, Some, option_map, IsTrue, IsSome, IfOk, IfErr, OnOk, OnErr};
ghost use Rattle.json_tree.specs.Fields.{text_cmp, get_field, with_field, without_field, IsInNameOrder};
ghost use Rattle.json_tree.specs.Places.{IsAt, IsGapFor};
ghost use Rattle.json_tree.specs.View.{data_of, fields_of, held};

use crate::nesting::{depth, levels_of_fields};
use crate::text::Text;
use crate::told::Told;
use crate::tree::{ChangeFault, Field, Json, JsonFields};
use std::alloc::{AllocError, AllocFailed, Global};
use std::cmp::Ordering;
use std::mem;
use std::sync::Arc;

impl JsonFields {
    ghost use Rattle.std.specs.Borrow.{sem};
    ghost use Rattle.json_tree.specs.Lending.{LendsField};

    /// No fields, which take no memory.
    pub fn new(alloc: Global) -> JsonFields
        ensures { result ≡ [] }
    {
        JsonFields {
            alloc,
            inner: None,
            told: Told::empty(),
        }
    }

    /// The same fields, which are in order, in the memory that they have. Takes memory for a node, unless there is none.
    pub fn from_sorted(fields: Vec<Field>) -> Result<JsonFields, AllocFailed<Vec<Field>>>
        requires { IsInNameOrder (fields_of fields.items) }
        ensures ok { IfOk result (λ m. m ≡ fields_of fields.items) }
        ensures value_returned { IfErr result (λ e. e.value ≡ fields) }
    {
        let alloc = *fields.allocator();
        if fields.is_empty() {
            return Ok(JsonFields::new(alloc));
        }
        let told = Told::exactly(levels_of_fields(fields.as_slice()));
        match Arc::new(alloc, fields) {
            Ok(node) => Ok(JsonFields {
                alloc,
                inner: Some(node),
                told,
            }),
            Err(refused) => Err(refused),
        }
    }

    /// The fields in the order of their names' bytes, lent.
    pub fn as_slice(&self) -> &[Field]
        ensures fields { fields_of result.now ≡ self.now }
        ensures ordered { IsInNameOrder self.now }
    {
        match &self.inner {
            Some(fields) => fields.as_slice(),
            None => &[],
        }
    }

    /// How many fields there are, told at once.
    pub fn len(&self) -> usize
        ensures value { result ≡ length self.now }
        ensures ordered { IsInNameOrder self.now }
    {
        self.as_slice().len()
    }

    /// Whether there is no field.
    pub fn is_empty(&self) -> bool
        ensures { IsTrue result ↔ (self.now ≡ []) }
    {
        self.as_slice().is_empty()
    }

    /// The value of a name. Compares it with as many names as the logarithm of their number, and takes no memory.
    pub fn get(&self, name: &str) -> Option<&Json>
        ensures { option_map (λ j. data_of j.now) result ≡ get_field name.now self.now }
    {
        let Some(node) = &self.inner else {
            return None;
        };
        match place_of(node.as_slice(), name) {
            Ok(at) => Some(&node[at].value),
            Err(_gap) => None,
        }
    }

    /// The same, to be written: what is left there stands at the name in this object, and in none that shares its fields.
    /// Where it is shared, memory for as many fields is taken first, whose names and values stay shared. Once a value was
    /// lent, `depth` looks at each value of this object: `insert` puts another there and leaves the depth told.
    pub fn get_mut(&mut self, name: &str) -> Result<&mut Json, ChangeFault>
        ensures* writes_back { sem 𝓛 (LendsField self.entry name.now result) }
        ensures value { IfOk result (λ j. get_field name.now self.old ≡ Some (data_of j.now)) }
        ensures absent { IfErr result (λ e. (e ≡ ChangeFault.Absent) ↔ (get_field name.now self.old ≡ None)) }
    {
        let Some(node) = &self.inner else {
            return Err(ChangeFault::Absent);
        };
        let Ok(at) = place_of(node.as_slice(), name) else {
            return Err(ChangeFault::Absent);
        };
        if self.own_node().is_err() {
            return Err(ChangeFault::Memory);
        }
        self.told = Told::unknown();
        let Some(node) = self.inner.as_mut() else {
            return Err(ChangeFault::Absent);
        };
        let Ok(fields) = Arc::make_mut(node) else {
            return Err(ChangeFault::Memory);
        };
        Ok(&mut fields[at].value)
    }

    /// Has the fields for this object alone. What is told of them stays, also where memory is refused.
    fn own_node(&mut self) -> Result<(), AllocError>
        ensures { self.new ≡ self.old }
    {
        let Some(node) = self.inner.as_mut() else {
            return Ok(());
        };
        match Arc::make_mut(node) {
            Ok(_fields) => Ok(()),
            Err(_refused) => Err(AllocError),
        }
    }

    /// Puts a value at a name, and hands out the value that stood there. Takes memory for a new name, or for all fields
    /// where they are shared; their names and values stay shared. On average it moves half of the fields for a new name,
    /// and none for one that comes last. Where the deepest value gives way to one less deep, each value is asked for its
    /// depth. The error has the name and the value.
    pub fn insert(
        &mut self,
        name: Text,
        value: Json,
    ) -> Result<Option<Json>, AllocFailed<(Text, Json)>>
        ensures ok { OnOk result (self.new ≡ with_field name (data_of value) self.old) }
        ensures replaced { IfOk result (λ r. option_map data_of r ≡ get_field name self.old) }
        ensures err { OnErr result (self.new ≡ self.old) }
        ensures value_returned { IfErr result (λ e. e.value ≡ (name, value)) }
    {
        let before = self.told;
        let levels = depth(&value);
        match self.insert_untold(name, value) {
            Ok(None) => {
                self.told = before.and(levels);
                Ok(None)
            }
            Ok(Some(replaced)) => {
                self.told = before.replaced(depth(&replaced), levels);
                self.tell_again(before);
                Ok(Some(replaced))
            }
            Err(refused) => {
                self.told = before;
                Err(refused)
            }
        }
    }

    fn insert_untold(
        &mut self,
        name: Text,
        value: Json,
    ) -> Result<Option<Json>, AllocFailed<(Text, Json)>>
        ensures ok { OnOk result (self.new ≡ with_field name (data_of value) self.old) }
        ensures replaced { IfOk result (λ r. option_map data_of r ≡ get_field name self.old) }
        ensures err { OnErr result (self.new ≡ self.old) }
        ensures value_returned { IfErr result (λ e. e.value ≡ (name, value)) }
    {
        self.told = Told::unknown();
        let Some(node) = self.inner.as_mut() else {
            return self.insert_first(name, value);
        };
        let Ok(fields) = Arc::make_mut(node) else {
            return Err(AllocFailed {
                value: (name, value),
            });
        };
        put(fields, name, value)
    }

    #[tactic(auto, using(crate::proofs::Views::one_in_order))]
    fn insert_first(
        &mut self,
        name: Text,
        value: Json,
    ) -> Result<Option<Json>, AllocFailed<(Text, Json)>>
        requires { self.old ≡ [] }
        ensures ok { OnOk result (self.new ≡ (name, data_of value) ∷ []) }
        ensures replaced { IfOk result (λ r. r ≡ None) }
        ensures err { OnErr result (self.new ≡ self.old) }
        ensures value_returned { IfErr result (λ e. e.value ≡ (name, value)) }
    {
        self.told = Told::unknown();
        match one_field(self.alloc, name, value) {
            Ok(node) => {
                self.inner = Some(node);
                Ok(None)
            }
            Err(refused) => Err(refused),
        }
    }

    /// Takes a field out, if there is one of this name. Takes memory for the other fields, where they are shared. Where it
    /// was the deepest of them, and holds a list or an object, each other is asked for its depth.
    pub fn remove(&mut self, name: &str) -> Result<Option<Json>, AllocError>
        ensures value { IfOk result (λ r. option_map data_of r ≡ get_field name.now self.old) }
        ensures after { OnOk result (self.new ≡ without_field name.now self.old) }
        ensures err { OnErr result (self.new ≡ self.old) }
        ensures present { OnErr result (IsSome (get_field name.now self.old)) }
    {
        if self.get(name).is_none() {
            return Ok(None);
        }
        let before = self.told;
        match self.remove_untold(name) {
            Ok(removed) => {
                self.told = before.without(depth(&removed));
                self.tell_again(before);
                Ok(Some(removed))
            }
            Err(refused) => {
                self.told = before;
                Err(refused)
            }
        }
    }

    fn remove_untold(&mut self, name: &str) -> Result<Json, AllocError>
        requires { IsSome (get_field name.now self.old) }
        ensures value { IfOk result (λ j. get_field name.now self.old ≡ Some (data_of j)) }
        ensures after { OnOk result (self.new ≡ without_field name.now self.old) }
        ensures err { OnErr result (self.new ≡ self.old) }
    {
        self.told = Told::unknown();
        let Some(node) = self.inner.as_mut() else {
            return Err(AllocError);
        };
        let Ok(fields) = Arc::make_mut(node) else {
            return Err(AllocError);
        };
        match take(fields, name) {
            Some(removed) => Ok(removed),
            None => Err(AllocError),
        }
    }

    /// Looks at each value where what was told before is so no more.
    fn tell_again(&mut self, before: Told)
        ensures { self.new ≡ self.old }
    {
        if self.told.is_lost(before) {
            self.told = Told::exactly(levels_of_fields(self.as_slice()));
        }
    }

    /// The same fields, shared, in one step. Takes no memory, and is refused only where their owners cannot be counted.
    pub fn copy(&self) -> Result<JsonFields, AllocError>
        ensures { IfOk result (λ j. j ≡ self.now) }
    {
        let inner = match &self.inner {
            Some(fields) => Some(Arc::try_clone(fields)?),
            None => None,
        };
        Ok(JsonFields {
            alloc: self.alloc,
            inner,
            told: self.told,
        })
    }
}

/// Where the field of a name stands, or else where it would go.
fn place_of(fields: &[Field], name: &str) -> Result<usize, usize>
    requires { IsInNameOrder (fields_of fields.now) }
    ensures found { IfOk result (IsAt name.now fields.now) }
    ensures absent { IfErr result (IsGapFor name.now fields.now) }
    ensures some { OnOk result (IsSome (get_field name.now (fields_of fields.now))) }
    ensures none { OnErr result (get_field name.now (fields_of fields.now) ≡ None) }
    ensures stays { OnErr result (without_field name.now (fields_of fields.now) ≡ fields_of fields.now) }
{
    fields.binary_search_by(|field| compare_name(field, name))
}

fn compare_name(field: &Field, name: &str) -> Ordering
    ensures { result ≡ text_cmp field.now.name name.now }
{
    field.name.as_str().cmp(name)
}

/// Puts a value at a name, among fields of one owner.
fn put(
    fields: &mut Vec<Field>,
    name: Text,
    value: Json,
) -> Result<Option<Json>, AllocFailed<(Text, Json)>>
    requires { IsInNameOrder (fields_of fields.old.items) }
    ensures ok { OnOk result (fields_of fields.new.items ≡ with_field name (data_of value) (fields_of fields.old.items)) }
    ensures replaced { IfOk result (λ r. option_map data_of r ≡ get_field name (fields_of fields.old.items)) }
    ensures err { OnErr result (fields_of fields.new.items ≡ fields_of fields.old.items) }
    ensures value_returned { IfErr result (λ e. e.value ≡ (name, value)) }
    ensures ordered { IsInNameOrder (fields_of fields.new.items) }
{
    match place_of(fields.as_slice(), name.as_str()) {
        Ok(at) => Ok(Some(mem::replace(&mut fields[at].value, value))),
        Err(at) => match fields.insert(at, Field { name, value }) {
            Ok(()) => Ok(None),
            Err(
                AllocFailed {
                    value: Field { name, value },
                },
            ) => Err(AllocFailed {
                value: (name, value),
            }),
        },
    }
}

/// Takes out the field of a name, among fields of one owner.
fn take(fields: &mut Vec<Field>, name: &str) -> Option<Json>
    requires { IsInNameOrder (fields_of fields.old.items) }
    ensures value { option_map data_of result ≡ get_field name.now (fields_of fields.old.items) }
    ensures after { fields_of fields.new.items ≡ without_field name.now (fields_of fields.old.items) }
    ensures ordered { IsInNameOrder (fields_of fields.new.items) }
{
    match place_of(fields.as_slice(), name) {
        Ok(at) => {
            let Field { name: _, value } = fields.remove(at);
            Some(value)
        }
        Err(_gap) => None,
    }
}

/// A node with one field.
fn one_field(
    alloc: Global,
    name: Text,
    value: Json,
) -> Result<Arc<Vec<Field>>, AllocFailed<(Text, Json)>>
    ensures ok { IfOk result (λ n. fields_of (held (Some n)) ≡ (name, data_of value) ∷ []) }
    ensures value_returned { IfErr result (λ e. e.value ≡ (name, value)) }
{
    let empty = match Vec::with_capacity(alloc, 1) {
        Ok(fields) => Arc::new(alloc, fields).ok(),
        Err(_refused) => None,
    };
    let Some(mut node) = empty else {
        return Err(AllocFailed {
            value: (name, value),
        });
    };
    let Some(fields) = Arc::get_mut(&mut node) else {
        return Err(AllocFailed {
            value: (name, value),
        });
    };
    match fields.push(Field { name, value }) {
        Ok(()) => Ok(node),
        Err(
            AllocFailed {
                value: Field { name, value },
            },
        ) => Err(AllocFailed {
            value: (name, value),
        }),
    }
}
