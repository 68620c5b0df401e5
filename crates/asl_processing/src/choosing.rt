// Where a Choice state goes ("Choice State").
ghost use Rattle.std.specs.Prelude.{◌≡◌, Ok, Err, IfOk, IfErr};
ghost use Rattle.json_tree.specs.View.{data_of};
ghost use Rattle.asl_processing.specs.Choosing.{chosen};
ghost use Rattle.asl_processing.specs.Errors.{error_name};

use crate::error::OwnFault;
use asl_states::Choice;
use json_tree::{Json, Text};

/// The state that a Choice state goes to with this input. Asks its rules in their order, to the first that holds, and takes
/// no memory.
pub fn choose<'a>(choice: &'a Choice, input: &Json) -> Result<&'a Text, OwnFault>
    ensures ok { IfOk result (λ name. chosen choice.now.rules choice.now.default (data_of input.now) ≡ Ok name.now) }
    ensures fault { IfErr result (λ e. chosen choice.now.rules choice.now.default (data_of input.now) ≡ Err (error_name e)) }
{
    let Some(rule) = choice.rules.first_rule(input) else {
        return Err(OwnFault::Runtime);
    };
    if let Some(name) = rule {
        return Ok(name);
    }
    match &choice.default {
        Some(name) => Ok(name),
        None => Err(OwnFault::NoChoiceMatched),
    }
}
