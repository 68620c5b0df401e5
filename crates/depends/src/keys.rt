// Marks of keys.
ghost use Rattle.std.specs.Prelude.{◌≡◌, ◌∷◌, ◌++◌, [], true, List, OnOk};
ghost use Rattle.std.specs.HashSet.{Updates};
ghost use Rattle.std.specs.List.{list_any};
ghost use Rattle.item_store.specs.Table.{is_same_key};
ghost use Rattle.depends.specs.Dependence.{conflicts};
ghost use Rattle.saved_steps.specs.declared.fact.Fact.{Fact as Step};
ghost use Rattle.depends.specs.Kinds.{AreKeyMarks};

use attr_values::Key;
use item_store::AccessMode;
use saved_steps::{Access, Fact};
use std::alloc::{AllocError, Global};
use std::collections::HashSet;

/// The keys of the items that some steps accessed, and of those that they wrote.
#[derive(Drop)]
pub(crate) struct KeyMarks {
    touched: HashSet<Key>,
    written: HashSet<Key>,
}

impl KeyMarks {
    pub(crate) fn new(alloc: Global) -> KeyMarks
        ensures { AreKeyMarks [] result }
    {
        KeyMarks {
            touched: HashSet::new(alloc),
            written: HashSet::new(alloc),
        }
    }

    pub(crate) fn add(&mut self, fact: &Fact) -> Result<(), AllocError>
        ensures { OnOk result ((facts : List Step) → AreKeyMarks facts self.old → AreKeyMarks (facts ++ fact.now ∷ []) self.new) }
    {
        let Some(access) = &fact.access else {
            return Ok(());
        };
        put(&mut self.touched, &access.key)?;
        match access.mode {
            AccessMode::Write => put(&mut self.written, &access.key),
            AccessMode::Read => Ok(()),
        }
    }

    /// Whether a step accessed the key of a later access, and not both read.
    pub(crate) fn has(&self, later: &Option<Access>) -> bool
        ensures { (facts : List Step) → AreKeyMarks facts self.now → result ≡ list_any (λ g. conflicts g.access later.now) facts }
    {
        let Some(access) = later else {
            return false;
        };
        match access.mode {
            AccessMode::Write => self.touched.contains(&access.key),
            AccessMode::Read => self.written.contains(&access.key),
        }
    }
}

fn put(keys: &mut HashSet<Key>, key: &Key) -> Result<(), AllocError>
    ensures { OnOk result (Updates is_same_key keys.old keys.new key.now true) }
{
    keys.insert(key.copy()?)?;
    Ok(())
}
