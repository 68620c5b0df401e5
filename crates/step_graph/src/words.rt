// The words for kinds and reasons, and records by their places.
ghost use Rattle.std.specs.Prelude.{◌≡◌, option_map, slice_get};
ghost use Rattle.step_graph.specs.Words.{kind_name, reason_name};

use depends::Reason;
use saved_steps::{Kind, StepRecord};
use step_index::StepRecords;

/// The record at a place, if there is one. Takes constant time.
pub fn record_at(records: &StepRecords, place: usize) -> Option<&StepRecord>
    ensures { option_map (λ r. r.now) result ≡ slice_get records.now.items place }
{
    if place < records.len() {
        Some(records.get(place))
    } else {
        None
    }
}

/// The name of a kind, as `history` has it.
pub fn kind_word(kind: Kind) -> &'static str
    ensures { result.now ≡ kind_name kind }
{
    match kind {
        Kind::Start => "start",
        Kind::Plain => "plain",
        Kind::Call => "call",
        Kind::Fork => "fork",
        Kind::Join => "join",
        Kind::Terminate => "terminate",
    }
}

/// The name of a reason, as it is at an edge and in answers.
pub fn reason_word(reason: Reason) -> &'static str
    ensures { result.now ≡ reason_name reason }
{
    match reason {
        Reason::Thread => "thread",
        Reason::Start => "start",
        Reason::Fork => "fork",
        Reason::Join => "join",
        Reason::Item => "item",
        Reason::Bound => "bound",
    }
}
