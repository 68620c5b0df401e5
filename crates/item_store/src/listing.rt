//! Items in the order of their keys.

ghost use Rattle.std.specs.Prelude.{◌≡◌};

use crate::slot::SlotNo;
use attr_values::{Item, Key};
use indexmap::IndexMap;
use std::collections::btree_map::Iter;

/// The items of a store in the order of their keys, lent. Contracts see what is left, `items_left`.
#[derive(Drop)]
pub struct Items<'a> {
    order: Iter<'a, Key, SlotNo>,
    slots: &'a IndexMap<Key, Option<Item>>,
}

impl<'a> Items<'a> {
    pub(crate) fn new(
        order: Iter<'a, Key, SlotNo>,
        slots: &'a IndexMap<Key, Option<Item>>,
    ) -> Items<'a>
        ensures order { result.order ≡ order.entry }
        ensures slots { result.slots.now ≡ slots.now }
    {
        Items { order, slots }
    }
}

impl<'a> Iterator for Items<'a> {
    type Item = &'a Item;

    ghost use Rattle.std.specs.Iterator.{YieldsFirstRef, item_count};
    ghost use Rattle.item_store.specs.Listing.{items_left};

    ghost next_gives = { YieldsFirstRef items_left };

    ghost remaining = { item_count items_left };

    fn next(&mut self) -> Option<&'a Item> {
        while let Some((_, slot)) = self.order.next() {
            if let Some((_, Some(item))) = self.slots.get_index(slot.index) {
                return Some(item);
            }
        }
        None
    }
}
