// Equality of states that hold no machines, and of what all states are made of.
ghost use Rattle.std.specs.Prelude.{◌≡◌};
ghost use Rattle.asl_states.specs.Same.{resource_number, same_resource};

use crate::state::{Choice, Fail, Pass, Processing, Resource, Succeed, Task, Transition, Wait};

impl PartialEq for Transition {
    ghost use Rattle.std.specs.Cmp.{partial_equiv_from_equiv};
    ghost use Rattle.asl_fields.specs.Same.{exact_equiv};
    ghost use Rattle.asl_states.specs.Same.{same_transition, transition_exact};

    ghost eq = { same_transition };

    ghost laws = { partial_equiv_from_equiv (exact_equiv same_transition transition_exact) };

    fn eq(&self, other: &Transition) -> bool {
        match (self, other) {
            (Transition::Next(name), Transition::Next(other)) => name == other,
            (Transition::End, Transition::End) => true,
            _ => false,
        }
    }
}

impl Eq for Transition {
    ghost use Rattle.asl_fields.specs.Same.{exact_equiv};
    ghost use Rattle.asl_states.specs.Same.{same_transition, transition_exact};

    ghost laws = { exact_equiv same_transition transition_exact };
}

impl PartialEq for Processing {
    ghost use Rattle.std.specs.Cmp.{partial_equiv_from_equiv};
    ghost use Rattle.asl_fields.specs.Same.{exact_equiv};
    ghost use Rattle.asl_states.specs.Same.{same_processing, processing_exact};

    ghost eq = { same_processing };

    ghost laws = { partial_equiv_from_equiv (exact_equiv same_processing processing_exact) };

    fn eq(&self, other: &Processing) -> bool {
        self.input_path == other.input_path
            && self.parameters == other.parameters
            && self.result_selector == other.result_selector
            && self.result_path == other.result_path
            && self.output_path == other.output_path
    }
}

impl Eq for Processing {
    ghost use Rattle.asl_fields.specs.Same.{exact_equiv};
    ghost use Rattle.asl_states.specs.Same.{same_processing, processing_exact};

    ghost laws = { exact_equiv same_processing processing_exact };
}

impl PartialEq for Pass {
    ghost use Rattle.std.specs.Cmp.{partial_equiv_from_equiv};
    ghost use Rattle.asl_fields.specs.Same.{exact_equiv};
    ghost use Rattle.asl_states.specs.Same.{same_pass, pass_exact};

    ghost eq = { same_pass };

    ghost laws = { partial_equiv_from_equiv (exact_equiv same_pass pass_exact) };

    fn eq(&self, other: &Pass) -> bool {
        self.processing == other.processing
            && self.result == other.result
            && self.transition == other.transition
    }
}

impl Eq for Pass {
    ghost use Rattle.asl_fields.specs.Same.{exact_equiv};
    ghost use Rattle.asl_states.specs.Same.{same_pass, pass_exact};

    ghost laws = { exact_equiv same_pass pass_exact };
}

impl PartialEq for Task {
    ghost use Rattle.std.specs.Cmp.{partial_equiv_from_equiv};
    ghost use Rattle.asl_fields.specs.Same.{exact_equiv};
    ghost use Rattle.asl_states.specs.Same.{same_task, task_exact};

    ghost eq = { same_task };

    ghost laws = { partial_equiv_from_equiv (exact_equiv same_task task_exact) };

    fn eq(&self, other: &Task) -> bool {
        same_resource(self.resource, other.resource)
            && self.processing == other.processing
            && self.errors == other.errors
            && self.transition == other.transition
    }
}

impl Eq for Task {
    ghost use Rattle.asl_fields.specs.Same.{exact_equiv};
    ghost use Rattle.asl_states.specs.Same.{same_task, task_exact};

    ghost laws = { exact_equiv same_task task_exact };
}

impl PartialEq for Choice {
    ghost use Rattle.std.specs.Cmp.{partial_equiv_from_equiv};
    ghost use Rattle.asl_fields.specs.Same.{exact_equiv};
    ghost use Rattle.asl_states.specs.Same.{same_choice, choice_exact};

    ghost eq = { same_choice };

    ghost laws = { partial_equiv_from_equiv (exact_equiv same_choice choice_exact) };

    fn eq(&self, other: &Choice) -> bool {
        self.processing == other.processing
            && self.rules == other.rules
            && self.default == other.default
    }
}

impl Eq for Choice {
    ghost use Rattle.asl_fields.specs.Same.{exact_equiv};
    ghost use Rattle.asl_states.specs.Same.{same_choice, choice_exact};

    ghost laws = { exact_equiv same_choice choice_exact };
}

impl PartialEq for Wait {
    ghost use Rattle.std.specs.Cmp.{partial_equiv_from_equiv};
    ghost use Rattle.asl_fields.specs.Same.{exact_equiv};
    ghost use Rattle.asl_states.specs.Same.{same_wait, wait_exact};

    ghost eq = { same_wait };

    ghost laws = { partial_equiv_from_equiv (exact_equiv same_wait wait_exact) };

    fn eq(&self, other: &Wait) -> bool {
        self.processing == other.processing && self.transition == other.transition
    }
}

impl Eq for Wait {
    ghost use Rattle.asl_fields.specs.Same.{exact_equiv};
    ghost use Rattle.asl_states.specs.Same.{same_wait, wait_exact};

    ghost laws = { exact_equiv same_wait wait_exact };
}

impl PartialEq for Succeed {
    ghost use Rattle.std.specs.Cmp.{partial_equiv_from_equiv};
    ghost use Rattle.asl_fields.specs.Same.{exact_equiv};
    ghost use Rattle.asl_states.specs.Same.{same_succeed, succeed_exact};

    ghost eq = { same_succeed };

    ghost laws = { partial_equiv_from_equiv (exact_equiv same_succeed succeed_exact) };

    fn eq(&self, other: &Succeed) -> bool {
        self.processing == other.processing
    }
}

impl Eq for Succeed {
    ghost use Rattle.asl_fields.specs.Same.{exact_equiv};
    ghost use Rattle.asl_states.specs.Same.{same_succeed, succeed_exact};

    ghost laws = { exact_equiv same_succeed succeed_exact };
}

impl PartialEq for Fail {
    ghost use Rattle.std.specs.Cmp.{partial_equiv_from_equiv};
    ghost use Rattle.asl_fields.specs.Same.{exact_equiv};
    ghost use Rattle.asl_states.specs.Same.{same_fail, fail_exact};

    ghost eq = { same_fail };

    ghost laws = { partial_equiv_from_equiv (exact_equiv same_fail fail_exact) };

    fn eq(&self, other: &Fail) -> bool {
        self.error == other.error && self.cause == other.cause
    }
}

impl Eq for Fail {
    ghost use Rattle.asl_fields.specs.Same.{exact_equiv};
    ghost use Rattle.asl_states.specs.Same.{same_fail, fail_exact};

    ghost laws = { exact_equiv same_fail fail_exact };
}

fn number_of(resource: Resource) -> u8
    ensures { result ≡ resource_number resource }
{
    match resource {
        Resource::GetItem => 0,
        Resource::PutItem => 1,
        Resource::DeleteItem => 2,
    }
}

fn same_resource(a: Resource, b: Resource) -> bool
    ensures { result ≡ same_resource a b }
{
    number_of(a) == number_of(b)
}
