//! What is left of a hold, by places among records.

ghost use Rattle.std.specs.Prelude.{◌≡◌, ◌<◌, ◌==◌, ◌∷◌, ◌++◌, [], ℕ, Bool, true, false, List, length, All, IfOk, IfSome, OnOk, Some, option_map, position, slice_get};
ghost use Rattle.std.specs.List.{list_any, remove};
ghost use Rattle.linked_classes.specs.Cells.{cell_at};
ghost use Rattle.linked_classes.specs.Places.{IsNumber, place_in};
ghost use Rattle.linked_classes.specs.Sets.{set_of};
ghost use Rattle.saved_steps.specs.declared.record.StepRecord.{StepRecord as Kept};
ghost use Rattle.depends.specs.Dependence.{conflicts};
ghost use Rattle.step_index.specs.Buckets.{is_gate};
ghost use Rattle.step_index.specs.Held.{AreLeft, IsLastLeft, IsLeftAt, LeftFor, count_left, left_classes};
ghost use Rattle.step_index.specs.Walks.{IsFirstFrom, names_need, needed_by};

use crate::buckets::{
    BUCKETS, access_bucket, bucket_above, exec_bucket, home_bucket, is_gate, key_bucket,
    write_bucket,
};
use crate::records::StepRecords;
use crate::walks::earlier;
use depends::Plan;
use item_store::AccessMode;
use linked_classes::ClassedVec;
use saved_steps::Fact;
use std::alloc::{AllocError, Global};
use std::marker::Model;

/// The sets of classes: of those that are left one class; and of these their homes, their executions, the keys that they touched
/// and those that they wrote. The number of a set is none of `Classing`.
const LEFT_SET: u32 = 0;

const HOMES: u32 = 1;

const EXECS: u32 = 2;

const KEYS: u32 = 4;

const WRITES: u32 = 5;

/// The class of the places that are left.
const LEFT: u32 = 0;

/// Which places among records are left of a hold: of a step and its consequences, while they are undone one by one. It stands
/// beside the records and goes with them, a place for each. Contracts see which places are left, and the classes of the steps there.
///
/// The steps that are left are in classes: of their threads, their executions, the keys that they touched and those that they
/// wrote, each by its hash. A place costs 40 bytes, one that is left 70 to 120 more, one that is gone 32, and all together 1,570,000
/// once.
#[derive(Drop)]
pub struct HeldSteps {
    /// Of each place, whether it is left.
    places: ClassedVec<bool>,
    count: usize,
}

impl Model for HeldSteps {
    ghost use Rattle.linked_classes.specs.Sets.{set_of};
    ghost use Rattle.step_index.specs.Held.{AreAlongside, Held, has_place_room};

    ghost Value = { Held };

    ghost view = { λ a. record {
      marks = a.places.items;
      threads = set_of a.places 1;
      execs = set_of a.places 2;
      keys = set_of a.places 4;
      writes = set_of a.places 5;
      has_room = has_place_room a.places;
    } };

    ghost invariant = { λ a. AreAlongside a.places a.count };
}

impl HeldSteps {
    /// The places of a plan among the records: these are left. Takes memory for a place of each record, and for what the steps
    /// that are left cost; one pass over the plan and one over the records.
    pub fn of_plan(
        alloc: Global,
        records: &StepRecords,
        plan: &Plan,
    ) -> Result<HeldSteps, AllocError>
        requires { All (λ p. p < length records.now.items) plan.now }
        ensures left { IfOk result (λ h. AreLeft records.now.items h) }
        ensures marks { IfOk result (λ h. (k : ℕ) (m : Bool) → slice_get h.marks k ≡ Some m → m ≡ list_any (λ p. p == k) plan.now) }
    {
        let marks = marks_of(alloc, records.len(), plan.places())?;
        let mut held = HeldSteps::new(alloc);
        for place in 0..records.len() {
            held.add(&records.get(place).fact, marks[place])?;
        }
        Ok(held)
    }

    /// No places.
    fn new(alloc: Global) -> HeldSteps
        ensures marks { result.marks ≡ [] }
        ensures left { AreLeft [] result }
    {
        HeldSteps {
            places: ClassedVec::new(alloc),
            count: 0,
        }
    }

    /// Makes room for one more place. Refused where memory is, and where 715,827,882 places have come.
    pub fn reserve(&mut self) -> Result<(), AllocError>
        ensures marks { self.new.marks ≡ self.old.marks }
        ensures threads { self.new.threads ≡ self.old.threads }
        ensures execs { self.new.execs ≡ self.old.execs }
        ensures keys { self.new.keys ≡ self.old.keys }
        ensures writes { self.new.writes ≡ self.old.writes }
        ensures room { OnOk result (self.new.has_room ≡ true) }
    {
        self.places.reserve(BUCKETS as usize)
    }

    /// Adds a place at the end, of a step that is not left. Takes no memory, and a few steps.
    pub fn push(&mut self)
        requires { self.old.has_room ≡ true }
        ensures marks { self.new.marks ≡ self.old.marks ++ false ∷ [] }
        ensures left { (rs : List Kept) (r : Kept) → AreLeft rs self.old → AreLeft (rs ++ r ∷ []) self.new }
    {
        self.places
            .push(false, &[None, None, None, None, None, None]);
    }

    /// Adds a place at the end, of a step that is left.
    fn put(&mut self, fact: &Fact)
        requires room { self.old.has_room ≡ true }
        requires few { length self.old.marks < 18446744073709551615 }
        ensures marks { self.new.marks ≡ self.old.marks ++ true ∷ [] }
        ensures left { (rs : List Kept) (r : Kept) → r.fact ≡ fact.now → AreLeft rs self.old → AreLeft (rs ++ r ∷ []) self.new }
    {
        let classes = left_classes(fact);
        self.places.push(true, &classes);
        self.count += 1;
    }

    /// Makes room and adds a place at the end, of a step that is left or not.
    fn add(&mut self, fact: &Fact, left: bool) -> Result<(), AllocError>
        requires few { length self.old.marks < 18446744073709551615 }
        ensures marks { OnOk result (self.new.marks ≡ self.old.marks ++ left ∷ []) }
        ensures left { (rs : List Kept) (r : Kept) → r.fact ≡ fact.now → AreLeft rs self.old → OnOk result (AreLeft (rs ++ r ∷ []) self.new) }
    {
        self.reserve()?;
        if left {
            self.put(fact);
            return Ok(());
        }
        self.push();
        Ok(())
    }

    /// Takes a place out: those behind it come one forward. Takes no memory, a few steps in the classes, and the time of
    /// `RisingNumbers::remove`.
    pub fn remove(&mut self, at: usize)
        requires { at < length self.old.marks }
        ensures marks { self.new.marks ≡ remove self.old.marks at }
        ensures left { (rs : List Kept) → AreLeft rs self.old → AreLeft (remove rs at) self.new }
    {
        let count = self.count_without(at);
        self.places.remove(at);
        self.count = count;
    }

    /// How many are left beside the one at a place.
    fn count_without(&self, at: usize) -> usize
        requires { at < length self.now.marks }
        ensures { result ≡ count_left (remove self.now.marks at) }
    {
        if self.is_left(at) {
            return self.count - 1;
        }
        self.count
    }

    /// Whether the step at a place is left, in one step.
    pub fn is_left(&self, at: usize) -> bool
        requires { at < length self.now.marks }
        ensures { slice_get self.now.marks at ≡ Some result }
    {
        *self.places.get(at)
    }

    /// The first place that is left whose step is one on which a later step would depend directly. Takes no memory. Looks at the
    /// steps that are left of the later step's thread and of those above it up to that one, or at those of its execution where it
    /// closes a fork or waited for branches; and at those of the key that it accesses up to that one: of a read at the writes
    /// alone, so that the first is mostly that one. Steps whose threads or keys have the same hash are looked at beside these.
    pub fn first_needed(&self, records: &StepRecords, fact: &Fact) -> Option<usize>
        requires { AreLeft records.now.items self.now }
        ensures first { IsFirstFrom (IsLeftAt self.now) (needed_by fact.now) records.now.items 0 result }
        ensures left { IfSome result (IsLeftAt self.now) }
    {
        earlier(
            self.first_by_name(records, fact),
            self.first_accessing(records, fact),
        )
    }

    /// The first that is left on which a later step would depend by their names.
    fn first_by_name(&self, records: &StepRecords, fact: &Fact) -> Option<usize>
        requires { AreLeft records.now.items self.now }
        ensures first { IsFirstFrom (LeftFor (λ f. names_need f fact.now) records.now.items self.now) (needed_by fact.now) records.now.items 0 result }
        ensures left { IfSome result (IsLeftAt self.now) }
    {
        if !is_gate(fact) {
            return self.first_in_threads(records, fact);
        }
        let class = exec_bucket(fact.name.thread.exec());
        first_needed_in(records, &self.places, EXECS, class, fact)
    }

    /// The same for one that neither closes a fork nor waited for branches: among the steps of its thread and of those above it.
    fn first_in_threads(&self, records: &StepRecords, fact: &Fact) -> Option<usize>
        requires beside { AreLeft records.now.items self.now }
        requires free { is_gate fact.now ≡ false }
        ensures first { IsFirstFrom (LeftFor (λ f. names_need f fact.now) records.now.items self.now) (needed_by fact.now) records.now.items 0 result }
        ensures left { IfSome result (IsLeftAt self.now) }
    {
        let thread = &fact.name.thread;
        let end = thread.path().len() + 1;
        let mut found = None;
        for depth in 0..end {
            let class = bucket_above(thread, depth);
            let here = first_needed_in(records, &self.places, HOMES, class, fact);
            found = earlier(found, here);
        }
        found
    }

    /// The first that is left and accesses the key of a later step, and not both read.
    fn first_accessing(&self, records: &StepRecords, fact: &Fact) -> Option<usize>
        requires { AreLeft records.now.items self.now }
        ensures first { IsFirstFrom (LeftFor (λ f. conflicts f.access fact.now.access) records.now.items self.now) (needed_by fact.now) records.now.items 0 result }
        ensures left { IfSome result (IsLeftAt self.now) }
    {
        let Some(access) = &fact.access else {
            return None;
        };
        let class = key_bucket(&access.key);
        match access.mode {
            AccessMode::Write => first_needed_in(records, &self.places, KEYS, class, fact),
            AccessMode::Read => first_needed_in(records, &self.places, WRITES, class, fact),
        }
    }

    /// How many are left, told at once.
    pub fn len(&self) -> usize
        ensures { result ≡ count_left self.now.marks }
    {
        self.count
    }

    /// Whether none is left, told at once.
    pub fn is_empty(&self) -> bool
        ensures { result ≡ (count_left self.now.marks == 0) }
    {
        self.count == 0
    }

    /// The first place that is left, in time logarithmic in the number of places.
    pub fn first(&self) -> Option<usize>
        ensures { result ≡ position (λ m. m) self.now.marks }
    {
        place_of(&self.places, self.places.first(LEFT_SET, LEFT))
    }

    /// The last place that is left, in the same time.
    pub fn last(&self) -> Option<usize>
        ensures { IsLastLeft self.now.marks result }
    {
        place_of(&self.places, self.places.last(LEFT_SET, LEFT))
    }
}

/// The place of a number, if there is one.
fn place_of(places: &ClassedVec<bool>, number: Option<u32>) -> Option<usize>
    requires { IfSome number (IsNumber places.now.numbers) }
    ensures { result ≡ option_map (place_in places.now.numbers) number }
{
    match number {
        Some(number) => Some(places.place(number)),
        None => None,
    }
}

/// The class of a step that is left, in each set.
fn left_classes(fact: &Fact) -> [Option<u32>; 6]
    ensures classes { result ≡ left_classes fact.now }
    ensures below { (set : ℕ) → set < 6 → IfSome (cell_at result set) (λ c. c < 16381) }
{
    [
        Some(LEFT),
        Some(home_bucket(fact)),
        Some(exec_bucket(fact.name.thread.exec())),
        None,
        access_bucket(fact),
        write_bucket(fact),
    ]
}

/// The first step in a class on which a later one would depend directly: a look at each step there before it.
fn first_needed_in(
    records: &StepRecords,
    steps: &ClassedVec<bool>,
    set: u32,
    class: u32,
    later: &Fact,
) -> Option<usize>
    requires many { length steps.now.items ≡ length records.now.items }
    requires set { set < 6 }
    requires class { class < 16381 }
    ensures first { IsFirstFrom (λ k. cell_at (set_of steps.now set) k ≡ Some class) (needed_by later.now) records.now.items 0 result }
    ensures member { IfSome result (λ k. cell_at (set_of steps.now set) k ≡ Some class) }
{
    crate::walks::first_needed_in(records.listed(), steps, set, class, later)
}

/// Which of so many places are among some.
fn marks_of(alloc: Global, count: usize, places: &[usize]) -> Result<Vec<bool>, AllocError>
    requires { All (λ p. p < count) places.now }
    ensures len { IfOk result (λ marks. length marks.items ≡ count) }
    ensures marks { IfOk result (λ marks. (k : ℕ) (m : Bool) → slice_get marks.items k ≡ Some m → m ≡ list_any (λ p. p == k) places.now) }
{
    let mut marks = vec![in alloc; false; count]?;
    for place in places {
        marks[*place] = true;
    }
    Ok(marks)
}
