// The machines of a book, by their names.
ghost use Rattle.std.specs.Prelude.{◌≡◌, ℕ, List, None, Some, OnOk, option_copied, if◌then◌else◌};
ghost use Rattle.asl_fields.specs.Fields.{is_text};
ghost use Rattle.rollback_book.specs.Book.{machine_place, placed_machine};

use asl_machine::SharedMachine;
use json_tree::Text;
use std::alloc::AllocError;
use std::collections::BTreeMap;

/// A place for each name that has one, with its machine, or empty.
pub type Machines = BTreeMap<Text, Option<SharedMachine>>;

/// The machine of a name.
pub fn machine_in<'a>(machines: &'a Machines, name: &Text) -> Option<&'a SharedMachine>
    ensures { option_copied result ≡ placed_machine (machine_place machines.now.entries name.now) }
{
    match machines.get(name) {
        Some(place) => place.as_ref(),
        None => None,
    }
}

/// Makes an empty place for a name that has no machine. Takes memory for a copy of the name, where there is no place.
pub fn make_place(machines: &mut Machines, name: &Text) -> Result<(), AllocError>
    requires { placed_machine (machine_place machines.old.entries name.now) ≡ None }
    ensures kept { (n : List ℕ) → placed_machine (machine_place machines.new.entries n) ≡ placed_machine (machine_place machines.old.entries n) }
    ensures place { OnOk result (machine_place machines.new.entries name.now ≡ Some None) }
{
    if machines.contains_key(name) {
        return Ok(());
    }
    let name = name.copy()?;
    drop(machines.insert(name, None)?);
    Ok(())
}

/// Puts a machine into its place. Takes no memory.
pub fn fill_place(machines: &mut Machines, name: &Text, machine: SharedMachine)
    requires { machine_place machines.old.entries name.now ≡ Some None }
    ensures { (n : List ℕ) → placed_machine (machine_place machines.new.entries n) ≡ (if is_text name.now n then Some machine else placed_machine (machine_place machines.old.entries n)) }
{
    let place = machines.get_mut(name).unwrap();
    *place = Some(machine);
}
