// Up to which name executions are gone by where the first thread is looked for that has a move.
ghost use Rattle.std.specs.Prelude.{◌≡◌, ◌⊎◌, ℕ, List, [], false};
ghost use Rattle.std.specs.Cmp.Lexicographic.{slice_cmp};
ghost use Rattle.std.specs.Ordering.{nat_cmp};
ghost use Rattle.std.specs.Str.{bytes_eq};
ghost use Rattle.std.specs.String.{string_bytes};
ghost use Rattle.std.specs.declared.cmp.Ordering.TheVariants.{Less};
ghost use Rattle.saved_steps.specs.First.{IsGoneBy};

use std::alloc::Global;
use std::cmp::Ordering;

/// The most bytes of an execution's name.
const LONGEST_NAME: usize = 64;

/// No execution whose name is before `name` has a thread with a move, but for the one that is `awake`, if its name isn't empty.
#[derive(Drop)]
pub(crate) struct Quiet {
    pub(crate) name: String,
    pub(crate) awake: String,
    /// Whether what has ended was gone by, and since then neither the execution of this name changed nor one was started or taken
    /// back. It saves looks, and no promise rests on it.
    pub(crate) stays: bool,
}

impl Quiet {
    /// None is gone by.
    pub(crate) fn new(alloc: Global) -> Quiet
        ensures { string_bytes result.name ≡ [] }
    {
        Quiet {
            name: String::new(alloc),
            awake: String::new(alloc),
            stays: false,
        }
    }

    /// Takes the memory of two names once, so that they can be rewritten without; false where it is refused.
    pub(crate) fn make_room(&mut self) -> bool
        ensures name { string_bytes self.new.name ≡ string_bytes self.old.name }
        ensures awake { string_bytes self.new.awake ≡ string_bytes self.old.awake }
    {
        has_room(&mut self.name) && has_room(&mut self.awake)
    }

    /// Goes by an execution no more. Takes no memory. The first that is before the name stays apart from it, so that all others
    /// before the name need not be looked at again; a second one brings the name back.
    pub(crate) fn wake(&mut self, exec: &str)
        ensures { (e : List ℕ) → (bytes_eq [] e ≡ false)
            → IsGoneBy (string_bytes self.new.name) (string_bytes self.new.awake) e
            → IsGoneBy (string_bytes self.old.name) (string_bytes self.old.awake) e × (bytes_eq exec.now e ≡ false) }
    {
        match exec.cmp(self.name.as_str()) {
            Ordering::Less => wake_before(&mut self.name, &mut self.awake, exec),
            Ordering::Equal => self.stays = false,
            Ordering::Greater => {}
        }
    }
}

fn has_room(text: &mut String) -> bool
    ensures { string_bytes text.new ≡ string_bytes text.old }
{
    text.capacity() >= LONGEST_NAME || text.reserve(LONGEST_NAME).is_ok()
}

/// Writes a name in place of another. Takes no memory: where the text has no room for it, it is empty.
pub(crate) fn rewrite(text: &mut String, name: &str)
    ensures { (string_bytes text.new ≡ name.now) ⊎ (string_bytes text.new ≡ []) }
{
    text.clear();
    if name.len() <= text.capacity() {
        let _ = text.push_str(name);
    }
}

/// The same where there is nothing yet.
fn write_once(text: &mut String, name: &str)
    ensures { (string_bytes text.new ≡ string_bytes text.old) ⊎ ((string_bytes text.old ≡ []) × (string_bytes text.new ≡ name.now)) }
{
    if text.is_empty() {
        rewrite(text, name);
    }
}

/// Wakes an execution whose name is before the other.
fn wake_before(name: &mut String, awake: &mut String, exec: &str)
    requires { slice_cmp nat_cmp exec.now (string_bytes name.old) ≡ Less }
    ensures { (e : List ℕ) → (bytes_eq [] e ≡ false)
        → IsGoneBy (string_bytes name.new) (string_bytes awake.new) e
        → IsGoneBy (string_bytes name.old) (string_bytes awake.old) e × (bytes_eq exec.now e ≡ false) }
{
    write_once(awake, exec);
    match exec.cmp(awake.as_str()) {
        Ordering::Equal => {}
        Ordering::Less => rewrite(name, exec),
        Ordering::Greater => rewrite(name, awake.as_str()),
    }
}
