// Where and why a turn fails.
ghost use Rattle.std.specs.Prelude.{◌≡◌, option_map};
ghost use Rattle.json_tree.specs.View.{data_of};
ghost use Rattle.explain.specs.Details.{field_in};

use crate::details::Case;
use asl_forward::frame_turns::{Fault, Frame};
use json_tree::{Json, Text};
use ref_paths::PathStep;
use std::alloc::{AllocError, Global};

/// What is wrong, and where.
#[derive(Drop)]
pub struct Detail {
    /// Names and indexes within the state's JSON; none where it is of no one field.
    pub place: Vec<PathStep>,
    pub case: Case,
}

/// Why a turn fails.
#[derive(Drop)]
pub struct Why {
    /// The state before which the thread stands.
    pub state: Text,
    /// The error and the cause with which the thread fails.
    pub fault: Fault,
    pub detail: Detail,
}

/// The way to a place within a state's JSON, as far as a search has gone.
#[derive(Drop)]
pub(crate) struct Way {
    steps: Vec<PathStep>,
}

impl Way {
    pub(crate) fn new(alloc: Global) -> Way {
        Way {
            steps: Vec::new(alloc),
        }
    }

    /// Goes into a field of this name.
    pub(crate) fn enter(&mut self, alloc: Global, name: &str) -> Result<(), AllocError> {
        let name = Text::new(alloc, name)?;
        self.steps.push(PathStep::Name(name))?;
        Ok(())
    }

    /// Goes into an element of this index.
    pub(crate) fn enter_item(&mut self, index: usize) -> Result<(), AllocError> {
        let index = u32::try_from(index).unwrap_or(u32::MAX);
        self.steps.push(PathStep::Index(index))?;
        Ok(())
    }

    /// Goes back one step.
    pub(crate) fn leave(&mut self) {
        drop(self.steps.pop());
    }

    /// The names and indexes of the way.
    pub(crate) fn into_steps(self) -> Vec<PathStep> {
        let Way { steps } = self;
        steps
    }
}

/// A field of an object.
#[tactic(auto, using(item_store::proofs::Shapes::pairs_again))]
pub(crate) fn field<'a>(json: &'a Json, name: &str) -> Option<&'a Json>
    ensures { option_map (λ j. data_of j.now) result ≡ field_in name.now (data_of json.now) }
{
    match json {
        Json::Fields(fields) => fields.get(name),
        _ => None,
    }
}

/// The text of a field of an object.
pub(crate) fn text_in<'a>(json: &'a Json, name: &str) -> Option<&'a Text> {
    match field(json, name) {
        Some(Json::Text(text)) => Some(text),
        _ => None,
    }
}
