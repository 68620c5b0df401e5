// What the table answers a call.
ghost use Rattle.std.specs.Prelude.{◌≡◌, IfOk, option_copied};
ghost use Rattle.item_store.specs.Deciding.{reply_of, refused};
ghost use Rattle.item_store.specs.Table.{told};
ghost use Rattle.explain.specs.Ends.{reply_at};

use crate::calls::copy_call;
use attr_values::Item;
use item_store::{Answer, Call, CallFault, Decided, ItemStore, decide};
use json_tree::Text;
use std::alloc::{AllocError, Global};

/// What a table of this name and schema answers a call, if this item has the call's key.
pub(crate) fn answer(
    alloc: Global,
    call: &Call,
    table: &ItemStore,
    item: Option<&Item>,
) -> Result<Answer, AllocError>
    ensures { IfOk result (λ a. reply_of a ≡ reply_at table.now (option_copied item.entry) call.now) }
{
    match table.key(call) {
        Ok(key) => {
            drop(key);
            let call = copy_call(call)?;
            let decided = decide(alloc, call, item)?;
            let Decided {
                access: _,
                new,
                answer,
            } = decided;
            drop(new);
            Ok(answer)
        }
        Err(fault) => refusal(alloc, fault),
    }
}

/// The answer to a call that touches no item. Out of memory is no answer.
fn refusal(alloc: Global, fault: CallFault) -> Result<Answer, AllocError>
    ensures { IfOk result (λ a. (reply_of a ≡ refused (told fault)) × (fault ≡ CallFault.Memory → ⊥)) }
{
    match fault.error_name() {
        Some(name) => Ok(Answer::Refused(Text::new(alloc, name)?)),
        None => Err(AllocError),
    }
}
