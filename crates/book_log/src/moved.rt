// What a step is answered.
use depends::steps::Kind;
use step_names::StepName;

/// The answer of a step: its name and its kind.
#[derive(Debug, Drop)]
pub struct Moved {
    pub name: StepName,
    pub kind: Kind,
}
