// Equality of entries: the names first, since a machine and an input may be large.
ghost use Rattle.std.specs.Prelude.{◌≡◌};
ghost use Rattle.book_log.specs.EntrySame.{kind_number, same_kind};

use crate::entry::Entry;
use crate::step_names_list::StepNames;
use depends::steps::Kind;

fn number_of(kind: Kind) -> u8
    ensures { result ≡ kind_number kind }
{
    match kind {
        Kind::Start => 0,
        Kind::Plain => 1,
        Kind::Call => 2,
        Kind::Fork => 3,
        Kind::Join => 4,
        Kind::Terminate => 5,
    }
}

fn same_kind(a: Kind, b: Kind) -> bool
    ensures { result ≡ same_kind a b }
{
    number_of(a) == number_of(b)
}

impl PartialEq for StepNames {
    ghost use Rattle.std.specs.Cmp.{partial_equiv_from_equiv};
    ghost use Rattle.asl_machine.specs.PathSame.{exact_equiv};
    ghost use Rattle.book_log.specs.EntrySame.{same_steps, steps_exact};

    ghost eq = { same_steps };

    ghost laws = { partial_equiv_from_equiv (exact_equiv same_steps steps_exact) };

    fn eq(&self, other: &StepNames) -> bool {
        self.names() == other.names()
    }
}

impl Eq for StepNames {
    ghost use Rattle.asl_machine.specs.PathSame.{exact_equiv};
    ghost use Rattle.book_log.specs.EntrySame.{same_steps, steps_exact};

    ghost laws = { exact_equiv same_steps steps_exact };
}

impl PartialEq for Entry {
    ghost use Rattle.std.specs.Cmp.{partial_equiv_from_equiv};
    ghost use Rattle.asl_machine.specs.PathSame.{exact_equiv};
    ghost use Rattle.book_log.specs.EntrySame.{same_entry, entry_exact};

    ghost eq = { same_entry };

    ghost laws = { partial_equiv_from_equiv (exact_equiv same_entry entry_exact) };

    fn eq(&self, other: &Entry) -> bool {
        match (self, other) {
            (
                Entry::Define { name, machine },
                Entry::Define {
                    name: other,
                    machine: to,
                },
            ) => name == other && machine == to,
            (
                Entry::Start {
                    exec,
                    machine,
                    input,
                },
                Entry::Start {
                    exec: other,
                    machine: to,
                    input: given,
                },
            ) => exec == other && machine == to && input == given,
            (
                Entry::Step { name, kind },
                Entry::Step {
                    name: other,
                    kind: to,
                },
            ) => name == other && same_kind(*kind, *to),
            (Entry::Undo { step }, Entry::Undo { step: other }) => step == other,
            (
                Entry::Rollback { step, undone },
                Entry::Rollback {
                    step: other,
                    undone: names,
                },
            ) => step == other && undone == names,
            (Entry::Settle, Entry::Settle) => true,
            (
                Entry::Hold { step, count },
                Entry::Hold {
                    step: other,
                    count: to,
                },
            ) => step == other && count == to,
            _ => false,
        }
    }
}

impl Eq for Entry {
    ghost use Rattle.asl_machine.specs.PathSame.{exact_equiv};
    ghost use Rattle.book_log.specs.EntrySame.{same_entry, entry_exact};

    ghost laws = { exact_equiv same_entry entry_exact };
}
