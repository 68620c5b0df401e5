//! Templates.

use crate::path::RefPath;
use json_tree::{Json, Text};
use std::alloc::{AllocError, AllocFailed};
use std::marker::Model;
use thiserror::Error;

/// A JSON value with paths in it, to be filled with what they pick (Amazon States Language, "Payload Template").
#[derive(Debug, Drop)]
pub struct Template {
    pub(crate) root: Node,
}

impl Model for Template {
    ghost use Rattle.ref_paths.specs.PayloadCode.{payload_code};
    ghost use Rattle.ref_paths.specs.PayloadView.{payload_of};
    ghost use Rattle.ref_paths.specs.Templates.{Payload};

    ghost Value = { Payload };

    ghost coded = { payload_code };

    ghost view = { λ a. payload_of a.root };
}

/// A value in a template.
#[cycle(template)]
#[derive(Debug, Drop)]
pub(crate) enum Node {
    /// Null, a boolean, a number or a text, which stands for itself.
    Literal(Json),
    /// What the path picks of the input.
    Input(RefPath),
    ItemIndex,
    /// What the path picks of the item.
    Item(RefPath),
    List(NodeList),
    Fields(NodeFields),
}

#[cycle(template)]
#[derive(Debug, Drop)]
pub(crate) struct NodeList {
    pub(crate) inner: Vec<Node>,
}

impl Model for NodeList {
    ghost use Rattle.std.specs.Prelude.{List};
    ghost use Rattle.ref_paths.specs.PayloadCode.{payload_list_code};
    ghost use Rattle.ref_paths.specs.Templates.{Payload, payload_list_depth};

    ghost Value = { List Payload };

    ghost coded = { payload_list_code };

    ghost use Rattle.ref_paths.specs.PayloadView.{payload_list_of};

    ghost view = { λ a. payload_list_of a.inner.items };

    ghost size = { payload_list_depth };

    ghost use Rattle.ref_paths.specs.PayloadFalls.{payload_list_falls};

    ghost size_decreases = { λ a h. payload_list_falls a.inner.items };
}

/// Fields in the order in which they stood, under their names without `.$`.
#[cycle(template)]
#[derive(Debug, Drop)]
pub(crate) struct NodeFields {
    pub(crate) inner: Vec<NodeField>,
}

#[cycle(template)]
#[derive(Debug, Drop)]
pub(crate) struct NodeField {
    pub(crate) name: Text,
    pub(crate) value: Node,
}

impl Model for NodeFields {
    ghost use Rattle.std.specs.Prelude.{List, ℕ};
    ghost use Rattle.ref_paths.specs.PayloadCode.{payload_fields_code};
    ghost use Rattle.ref_paths.specs.Templates.{Payload, payload_fields_depth};

    ghost Value = { List (List ℕ × Payload) };

    ghost coded = { payload_fields_code };

    ghost use Rattle.ref_paths.specs.PayloadView.{payload_fields_of};

    ghost view = { λ a. payload_fields_of a.inner.items };

    ghost size = { payload_fields_depth };

    ghost use Rattle.ref_paths.specs.PayloadFalls.{payload_fields_fall};

    ghost size_decreases = { λ a h. payload_fields_fall a.inner.items };
}

/// Why a value is read as no template. A text is the name of the field that the fault is about, as it stands in its
/// object.
#[derive(Debug, Drop, PartialEq, Eq, Error)]
pub enum TemplateFault {
    /// The name ends with `.$`, and the value is no path's text; or the name without `.$` is a field's of the object too.
    #[error("a field of a template that has no path")]
    BadTemplate(Text),
    /// The value names an intrinsic function, or a part of the context object that is left out here.
    #[error("a field of a template that is not supported")]
    Unsupported(Text),
    /// An allocation was refused.
    #[error("out of memory")]
    Memory,
}

impl From<AllocError> for TemplateFault {
    ghost use Rattle.std.specs.Prelude.{◌≡◌};
    ghost use Rattle.ref_paths.specs.declared.template.TemplateFault.TheVariants.{Memory};

    ghost from_gives = { λ _ e. e ≡ Memory };

    fn from(_refused: AllocError) -> TemplateFault {
        TemplateFault::Memory
    }
}

impl<T: Drop> From<AllocFailed<T>> for TemplateFault {
    ghost use Rattle.std.specs.Prelude.{◌≡◌};
    ghost use Rattle.ref_paths.specs.declared.template.TemplateFault.TheVariants.{Memory};

    ghost from_gives = { λ _ e. e ≡ Memory };

    fn from(_refused: AllocFailed<T>) -> TemplateFault {
        TemplateFault::from(AllocError)
    }
}
