// The places at which steps may be on which one of some steps depends directly.
ghost use Rattle.std.specs.Prelude.{◌≡◌, ◌<◌, ◌||◌, ℕ, Bool, false, length, IfOk, OnOk};
ghost use Rattle.step_graph.specs.Opened.{AreOpen, OpensExec, OpensKey, and_one, has};

use crate::marks::Marks;
use std::alloc::{AllocError, Global};
use step_index::StepRecords;

/// The steps of the executions of some steps, and the accesses of their keys, by their places. A step depends directly on no other.
#[derive(Drop)]
pub(crate) struct OpenPlaces {
    execs: Marks,
    keys: Marks,
}

impl OpenPlaces {
    /// None. Takes two bytes for each record.
    pub(crate) fn new(alloc: Global, records: &StepRecords) -> Result<OpenPlaces, AllocError>
        ensures { IfOk result (λ o. AreOpen records.now.items (λ m. false) o.execs o.keys) }
    {
        Ok(OpenPlaces {
            execs: Marks::new(alloc, records.len())?,
            keys: Marks::new(alloc, records.len())?,
        })
    }

    /// Whether a step of this place is among them.
    pub(crate) fn has(&self, place: usize) -> bool
        ensures { result ≡ (has self.now.execs place || has self.now.keys place) }
    {
        self.execs.has(place) || self.keys.has(place)
    }

    /// Adds those of the step at a place. Looks at the steps of its execution and at the accesses of its key, if these aren't there.
    pub(crate) fn open(
        &mut self,
        alloc: Global,
        records: &StepRecords,
        place: usize,
    ) -> Result<(), AllocError>
        requires { place < length records.now.items }
        ensures { OnOk result ((opened : ℕ → Bool) → AreOpen records.now.items opened self.old.execs self.old.keys
            → AreOpen records.now.items (and_one place opened) self.new.execs self.new.keys) }
    {
        open_exec(&mut self.execs, alloc, records, place)?;
        open_key(&mut self.keys, alloc, records, place)
    }
}

fn open_exec(
    execs: &mut Marks,
    alloc: Global,
    records: &StepRecords,
    place: usize,
) -> Result<(), AllocError>
    requires { place < length records.now.items }
    ensures { OnOk result (OpensExec records.now.items place execs.old execs.new) }
{
    if execs.has(place) {
        return Ok(());
    }
    let places = records.of_execution(alloc, records.get(place).fact.name.thread.exec())?;
    execs.mark_all(places.as_slice());
    Ok(())
}

fn open_key(
    keys: &mut Marks,
    alloc: Global,
    records: &StepRecords,
    place: usize,
) -> Result<(), AllocError>
    requires { place < length records.now.items }
    ensures { OnOk result (OpensKey records.now.items place keys.old keys.new) }
{
    let Some(access) = &records.get(place).fact.access else {
        return Ok(());
    };
    if keys.has(place) {
        return Ok(());
    }
    let places = records.accesses(alloc, &access.key)?;
    keys.mark_all(places.as_slice());
    Ok(())
}
