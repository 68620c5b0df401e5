//! What a path picks.

ghost use Rattle.std.specs.Prelude.{◌≡◌, option_map};
ghost use Rattle.json_tree.specs.View.{data_of};
ghost use Rattle.ref_paths.specs.Picking.{child_at, pick_at};

use crate::path::{PathStep, RefPath};
use json_tree::Json;

impl PathStep {
    /// The field or the element that the step leads to.
    #[tactic(auto, using(crate::proofs::Shapes::values_again, crate::proofs::Shapes::pairs_again))]
    pub(crate) fn child<'a>(&self, parent: &'a Json) -> Option<&'a Json>
        ensures { option_map (λ j. data_of j.now) result ≡ child_at self.now (data_of parent.now) }
    {
        match (self, parent) {
            (PathStep::Name(name), Json::Fields(fields)) => fields.get(name.as_str()),
            (PathStep::Index(index), Json::List(list)) => list.get(*index as usize),
            _ => None,
        }
    }
}

impl RefPath {
    /// The value that the path leads to, lent: a name leads to that field of an object, an index to that element of a
    /// list, and no step leads anywhere else. One look-up for each step, and no memory.
    pub fn pick<'a>(&self, root: &'a Json) -> Option<&'a Json>
        ensures { option_map (λ j. data_of j.now) result ≡ pick_at self.now (data_of root.now) }
    {
        pick_steps(self.steps.as_slice(), root)
    }
}

pub(crate) fn pick_steps<'a>(steps: &[PathStep], root: &'a Json) -> Option<&'a Json>
    ensures { option_map (λ j. data_of j.now) result ≡ pick_at steps.now (data_of root.now) }
{
    let mut current = root;
    for step in steps {
        current = step.child(current)?;
    }
    Some(current)
}
