// What the table answers a call, and what of it is to be put where.
ghost use Rattle.std.specs.Prelude.{◌≡◌, Some, None, IfOk};
ghost use Rattle.item_store.specs.Deciding.{decision, reply_of, refused};
ghost use Rattle.item_store.specs.Store.{stored_items, slot_key};
ghost use Rattle.item_store.specs.Table.{at_key, in_form, told};
ghost use Rattle.saved_steps.specs.Answering.{IsAnswerAt, IsAnswered};
ghost use Rattle.saved_steps.specs.Made.{KeepsStore};

use crate::fact::Access;
use attr_values::{Item, Key};
use item_store::{Answer, Call, CallFault, ItemStore, SlotNo, decide};
use json_tree::Text;
use std::alloc::{AllocError, Global};

/// The item that a call touches, and of a write what is to stand in its slot.
#[derive(Drop)]
pub struct Touch {
    pub(crate) access: Access,
    pub(crate) slot: SlotNo,
    pub(crate) new: Option<Item>,
}

/// What the table answers a call, and the item that it touches, if any.
#[derive(Drop)]
pub struct Answered {
    pub(crate) answer: Answer,
    pub(crate) touch: Option<Touch>,
}

/// The answer to a call that touches no item. Out of memory is no answer.
fn refuse(alloc: Global, fault: CallFault) -> Result<Answered, AllocError>
    ensures { IfOk result (λ a. (reply_of a.answer ≡ refused (told fault)) × (a.touch ≡ None) × (fault ≡ CallFault.Memory → ⊥)) }
{
    let Some(name) = fault.error_name() else {
        return Err(AllocError);
    };
    let name = Text::new(alloc, name)?;
    Ok(Answered {
        answer: Answer::Refused(name),
        touch: None,
    })
}

/// What a call does with the item in the slot of its key.
fn answer_at(
    items: &ItemStore,
    alloc: Global,
    call: Call,
    key: Key,
    slot: SlotNo,
) -> Result<Answered, AllocError>
    requires { slot_key items.now slot ≡ Some key }
    ensures { IfOk result (λ a. IsAnswerAt (decision call.request (stored_items items.now key)) key slot a) }
{
    let Ok(decided) = decide(alloc, call, items.look(slot)) else {
        drop(key);
        return Err(AllocError);
    };
    let access = Access {
        key,
        mode: decided.access,
    };
    Ok(Answered {
        answer: decided.answer,
        touch: Some(Touch {
            access,
            slot,
            new: decided.new,
        }),
    })
}

/// What a call does with the item of its key, in a slot that is there then.
fn answer_key(
    items: &mut ItemStore,
    alloc: Global,
    call: Call,
    key: Key,
) -> Result<Answered, AllocError>
    ensures answer { IfOk result (λ a. IsAnswered items.new (at_key (stored_items items.old) key (decision call.request (stored_items items.old key))) a) }
    ensures items { stored_items items.new ≡ stored_items items.old }
    ensures store { KeepsStore items.old items.new }
{
    let Ok(kept) = key.copy() else {
        drop(key);
        drop(call);
        return Err(AllocError);
    };
    let Ok(slot) = items.slot(key) else {
        drop(kept);
        drop(call);
        return Err(AllocError);
    };
    answer_at(items, alloc, call, kept, slot)
}

/// What the table answers a call, whose item goes to it. Takes memory for the answer, for the slot and for the copies of a key.
pub(crate) fn answer(
    items: &mut ItemStore,
    alloc: Global,
    call: Call,
) -> Result<Answered, AllocError>
    ensures answer { IfOk result (λ a. IsAnswered items.new (in_form items.old.table items.old.schema (stored_items items.old) call) a) }
    ensures items { stored_items items.new ≡ stored_items items.old }
    ensures store { KeepsStore items.old items.new }
{
    match items.key(&call) {
        Ok(key) => answer_key(items, alloc, call, key),
        Err(fault) => {
            drop(call);
            refuse(alloc, fault)
        }
    }
}
