//! Laws over several calls. Each is the contract of a call that does nothing.

ghost use Rattle.item_store.specs.Laws.{CallsChangeOneItem, CallsLookAtOneItem, SwapsAreUndone};
ghost use Rattle.item_store.specs.Spelling.{ConditionsAreSpelled};

/// A call touches one item at most: it looks at no other, and changes no other.
pub fn calls_touch_one_item()
    ensures changes { CallsChangeOneItem }
    ensures looks { CallsLookAtOneItem }
{}

/// A swap is undone by the swap of what it gave.
pub fn swaps_are_undone()
    ensures { SwapsAreUndone }
{}

/// A text is read to the condition that it spells, and to none where it spells none.
pub fn conditions_are_spelled()
    ensures { ConditionsAreSpelled }
{}
