//! Keys of items, and which attributes they are.

ghost use Rattle.std.specs.Prelude.{◌≡◌, IfOk};

use crate::key_order::compare_keys;
use crate::key_part::KeyPart;
use json_tree::Text;
use std::alloc::AllocError;
use std::cmp::Ordering;
use std::hash::{Hash, Hasher};

/// The types of key attributes, by the API's names (AttributeDefinition).
#[derive(Clone, Copy, Debug, PartialEq, Eq, PartialOrd, Ord)]
pub enum KeyType {
    S,
    N,
}

/// An attribute of a key: its name and its type.
#[derive(Debug, Drop, PartialEq, Eq, PartialOrd, Ord)]
pub struct KeyAttribute {
    pub name: Text,
    pub kind: KeyType,
}

/// The attributes that a table's keys have (KeySchema of the API's CreateTable): a partition, and perhaps a sort attribute.
#[derive(Debug, Drop, PartialEq, Eq, PartialOrd, Ord)]
pub struct KeySchema {
    pub partition: KeyAttribute,
    pub sort: Option<KeyAttribute>,
}

impl KeyAttribute {
    /// The same attribute, in one step. Takes no memory, as its name is shared.
    pub fn copy(&self) -> Result<KeyAttribute, AllocError>
        ensures { IfOk result (λ a. a ≡ self.now) }
    {
        Ok(KeyAttribute {
            name: self.name.copy()?,
            kind: self.kind,
        })
    }
}

impl KeySchema {
    /// The same schema, in one step. Takes no memory, as its names are shared.
    pub fn copy(&self) -> Result<KeySchema, AllocError>
        ensures { IfOk result (λ s. s ≡ self.now) }
    {
        let partition = self.partition.copy()?;
        let sort = match &self.sort {
            Some(attribute) => Some(attribute.copy()?),
            None => None,
        };
        Ok(KeySchema { partition, sort })
    }
}

/// The key of an item. Its order is by the partition and then by the sort attribute: texts by their bytes, numbers by
/// their order.
#[derive(Debug, Drop)]
pub struct Key {
    pub partition: KeyPart,
    pub sort: Option<KeyPart>,
}

impl Key {
    /// The same key, in one step. Takes no memory, as its texts are shared.
    pub fn copy(&self) -> Result<Key, AllocError>
        ensures { IfOk result (λ k. k ≡ self.now) }
    {
        let partition = self.partition.copy()?;
        let sort = match &self.sort {
            Some(part) => Some(part.copy()?),
            None => None,
        };
        Ok(Key { partition, sort })
    }
}

impl PartialEq for Key {
    ghost use Rattle.std.specs.Cmp.{eq_by_cmp_equiv, partial_equiv_from_equiv};
    ghost use Rattle.std.specs.Ordering.{eq_by_cmp};
    ghost use Rattle.attr_values.specs.Key.{key_cmp};
    ghost use Rattle.attr_values.specs.KeyOrder.{key_cmp_total};

    ghost eq = { eq_by_cmp key_cmp };

    ghost laws = { partial_equiv_from_equiv (eq_by_cmp_equiv key_cmp_total) };

    fn eq(&self, other: &Key) -> bool {
        self.cmp(other).is_eq()
    }
}

impl Eq for Key {
    ghost use Rattle.std.specs.Cmp.{eq_by_cmp_equiv};
    ghost use Rattle.attr_values.specs.KeyOrder.{key_cmp_total};

    ghost laws = { eq_by_cmp_equiv key_cmp_total };
}

impl PartialOrd for Key {
    ghost use Rattle.std.specs.Prelude.{refl};
    ghost use Rattle.std.specs.Cmp.{partial_order_from_agreeing_total};
    ghost use Rattle.std.specs.Ordering.{as_partial_cmp};
    ghost use Rattle.attr_values.specs.Key.{key_cmp};
    ghost use Rattle.attr_values.specs.KeyOrder.{key_cmp_total};

    ghost partial_cmp = { as_partial_cmp key_cmp };

    ghost laws = { partial_order_from_agreeing_total key_cmp key_cmp_total (λ _ _. refl) (λ _ _. refl) };

    fn partial_cmp(&self, other: &Key) -> Option<Ordering> {
        Some(self.cmp(other))
    }
}

impl Ord for Key {
    ghost use Rattle.std.specs.Prelude.{refl};
    ghost use Rattle.attr_values.specs.Key.{key_cmp};
    ghost use Rattle.attr_values.specs.KeyOrder.{key_cmp_total};

    ghost cmp = { key_cmp };

    ghost total = { key_cmp_total };

    ghost matches_partial_cmp = { λ _ _. refl };

    ghost matches_eq = { λ _ _. refl };

    fn cmp(&self, other: &Key) -> Ordering {
        compare_keys(self, other)
    }
}

impl Hash for Key {
    ghost use Rattle.attr_values.specs.Key.{key_input};
    ghost use Rattle.attr_values.specs.KeyOrder.{key_input_equal};

    ghost hash_input = { key_input };

    ghost respects_eq = { key_input_equal };

    fn hash<H: Hasher>(&self, state: &mut H) {
        self.partition.hash(state);
        self.sort.hash(state);
    }
}
