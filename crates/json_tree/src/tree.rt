// The values, and the lists and fields that hold them.
ghost use Rattle.std.specs.Prelude.{◌≡◌, IsTrue, IfOk, OnErr};
ghost use Rattle.json_tree.specs.Data.{has_room};
ghost use Rattle.json_tree.specs.View.{data_of};

use crate::text::Text;
use crate::told::Told;
use std::alloc::{AllocError, Global};
use std::marker::Model;
use std::sync::Arc;

/// A JSON value whose numbers are whole (RFC 8259, section 3). `≡` is equality of values: what a list or a text has room
/// for is no part of it.
#[cycle(json)]
#[derive(Debug, Drop)]
pub enum Json {
    Null,
    Bool(bool),
    /// A number with no point and no exponent, of 64 bits with a sign.
    Whole(i64),
    Text(Text),
    List(JsonList),
    /// An object.
    Fields(JsonFields),
}

/// The values of a list, in order. Contracts see a list of data. Owners share one node, and an empty list has none.
#[cycle(json)]
#[derive(Debug, Drop)]
pub struct JsonList {
    pub(crate) alloc: Global,
    pub(crate) inner: Option<Arc<Vec<Json>>>,
    pub(crate) told: Told,
}

impl Model for JsonList {
    ghost use Rattle.std.specs.Prelude.{List};
    ghost use Rattle.json_tree.specs.Data.{Data, list_depth};
    ghost use Rattle.json_tree.specs.DataCode.{list_code};

    ghost Value = { List Data };

    ghost coded = { list_code };

    ghost use Rattle.json_tree.specs.View.{list_of, held};

    ghost view = { λ a. list_of (held a.inner) };

    ghost use Rattle.json_tree.specs.Told.{IsTold};

    ghost invariant = { λ a. IsTold a.told (list_depth (list_of (held a.inner))) };

    ghost size = { list_depth };

    ghost use Rattle.json_tree.specs.Falls.{list_falls};

    ghost size_decreases = { λ a h. list_falls a };
}

/// A field of an object.
#[cycle(json)]
#[derive(Debug, Drop)]
pub struct Field {
    pub name: Text,
    pub value: Json,
}

/// The fields of an object, each name once and in the order of the names' bytes. Contracts see a list of pairs. Owners
/// share one node, and an object with no field has none.
#[cycle(json)]
#[derive(Debug, Drop)]
pub struct JsonFields {
    pub(crate) alloc: Global,
    pub(crate) inner: Option<Arc<Vec<Field>>>,
    pub(crate) told: Told,
}

impl Model for JsonFields {
    ghost use Rattle.std.specs.Prelude.{List, ℕ};
    ghost use Rattle.json_tree.specs.Data.{Data, fields_depth};
    ghost use Rattle.json_tree.specs.DataCode.{fields_code};

    ghost Value = { List (List ℕ × Data) };

    ghost coded = { fields_code };

    ghost use Rattle.json_tree.specs.Fields.{IsInNameOrder};
    ghost use Rattle.json_tree.specs.Told.{IsTold};
    ghost use Rattle.json_tree.specs.View.{fields_of, held};

    ghost view = { λ a. fields_of (held a.inner) };

    ghost invariant = { λ a. IsInNameOrder (fields_of (held a.inner)) × IsTold a.told (fields_depth (fields_of (held a.inner))) };

    ghost size = { fields_depth };

    ghost use Rattle.json_tree.specs.Falls.{fields_fall};

    ghost size_decreases = { λ a h. fields_fall a };
}

impl Json {
    /// The same value, shared: one step, whatever the value holds. Only a text takes memory.
    pub fn copy(&self) -> Result<Json, AllocError>
        ensures ok { IfOk result (λ j. j ≡ self.now) }
        ensures err { OnErr result (IsTrue (has_room (data_of self.now))) }
    {
        match self {
            Json::Null => Ok(Json::Null),
            Json::Bool(b) => Ok(Json::Bool(*b)),
            Json::Whole(n) => Ok(Json::Whole(*n)),
            Json::Text(text) => Ok(Json::Text(text.copy()?)),
            Json::List(list) => Ok(Json::List(list.copy()?)),
            Json::Fields(fields) => Ok(Json::Fields(fields.copy()?)),
        }
    }
}

impl Clone for Json {
    ghost use Rattle.std.specs.Prelude.{◌≡◌};

    ghost is_clone = { λ a b. b ≡ a };

    fn clone(&self) -> Result<Json, AllocError> {
        self.copy()
    }
}

impl Clone for Field {
    ghost use Rattle.std.specs.Prelude.{◌≡◌};

    ghost is_clone = { λ a b. b ≡ a };

    fn clone(&self) -> Result<Field, AllocError> {
        let name = self.name.copy()?;
        let value = self.value.copy()?;
        Ok(Field { name, value })
    }
}

/// Why nothing was changed.
#[derive(Clone, Copy, Debug, Drop, PartialEq, Eq)]
pub enum ChangeFault {
    /// There is no such element, or no field of this name.
    Absent,
    /// An allocation was refused.
    Memory,
}
