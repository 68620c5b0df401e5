// The types of states.
ghost use Rattle.std.specs.Prelude.{◌≡◌};
ghost use Rattle.asl_states.specs.Profile.{kind_named};

/// A state's type ("State Types").
#[derive(Clone, Copy, Debug, PartialEq, Eq)]
pub enum StateKind {
    Pass,
    Task,
    Choice,
    Wait,
    Succeed,
    Fail,
    Parallel,
    Map,
}

/// The type of this name.
pub fn kind_named(name: &str) -> Option<StateKind>
    ensures { result ≡ kind_named name.now }
{
    match name {
        "Pass" => Some(StateKind::Pass),
        "Task" => Some(StateKind::Task),
        "Choice" => Some(StateKind::Choice),
        "Wait" => Some(StateKind::Wait),
        "Succeed" => Some(StateKind::Succeed),
        "Fail" => Some(StateKind::Fail),
        "Parallel" => Some(StateKind::Parallel),
        "Map" => Some(StateKind::Map),
        _ => None,
    }
}
