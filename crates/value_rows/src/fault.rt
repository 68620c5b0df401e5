//! What is said in place of an answer.
use attr_values::ItemFault;
use item_store::CallFault;
use json_tree::JsonFault;
use ref_paths::FillFault;
use std::alloc::{AllocError, AllocFailed};
use step_names::NameFault;

/// What is said in place of an answer.
#[derive(Clone, Copy, Debug, PartialEq, Eq)]
pub(crate) enum RowFault {
    /// Memory was refused.
    Memory,
    /// The name of another fault.
    Said(&'static str),
}

impl From<AllocError> for RowFault {
    fn from(_refused: AllocError) -> RowFault {
        RowFault::Memory
    }
}

impl<T: Drop> From<AllocFailed<T>> for RowFault {
    fn from(_refused: AllocFailed<T>) -> RowFault {
        RowFault::Memory
    }
}

impl From<JsonFault> for RowFault {
    fn from(fault: JsonFault) -> RowFault {
        match fault {
            JsonFault::NotJson => RowFault::Said("not JSON"),
            JsonFault::NotWhole => RowFault::Said("not whole"),
            JsonFault::Memory => RowFault::Memory,
        }
    }
}

impl From<NameFault> for RowFault {
    fn from(fault: NameFault) -> RowFault {
        match fault {
            NameFault::BadName => RowFault::Said("no name"),
            NameFault::Memory => RowFault::Memory,
        }
    }
}

impl From<ItemFault> for RowFault {
    fn from(fault: ItemFault) -> RowFault {
        match fault {
            ItemFault::BadValue => RowFault::Said("bad value"),
            ItemFault::BadNumber => RowFault::Said("bad number"),
            ItemFault::NoKey => RowFault::Said("no key"),
            ItemFault::KeyType => RowFault::Said("another type"),
            ItemFault::EmptyKey => RowFault::Said("empty key"),
            ItemFault::Memory => RowFault::Memory,
        }
    }
}

impl From<FillFault> for RowFault {
    fn from(fault: FillFault) -> RowFault {
        match fault {
            FillFault::NoSuchNode => RowFault::Said("no such node"),
            FillFault::Memory => RowFault::Memory,
        }
    }
}

/// A call that touches no item is told the name of its error.
impl From<CallFault> for RowFault {
    fn from(fault: CallFault) -> RowFault {
        match fault.error_name() {
            Some(name) => RowFault::Said(name),
            None => RowFault::Memory,
        }
    }
}
