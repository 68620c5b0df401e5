// Copies of calls, which share their items.
ghost use Rattle.std.specs.Prelude.{◌≡◌, IfOk};

use item_store::{Call, Condition, Request, Terms};
use std::alloc::AllocError;

/// An equal condition.
pub(crate) fn copy_condition(condition: &Condition) -> Result<Condition, AllocError>
    ensures { IfOk result (λ c. c ≡ condition.now) }
{
    Ok(Condition {
        kind: condition.kind,
        attribute: condition.attribute.copy()?,
    })
}

fn copy_terms(terms: &Terms) -> Result<Terms, AllocError>
    ensures { IfOk result (λ t. t ≡ terms.now) }
{
    let condition = match &terms.condition {
        Some(condition) => Some(copy_condition(condition)?),
        None => None,
    };
    Ok(Terms {
        condition,
        returns: terms.returns,
    })
}

fn copy_request(request: &Request) -> Result<Request, AllocError>
    ensures { IfOk result (λ r. r ≡ request.now) }
{
    match request {
        Request::Get(key) => Ok(Request::Get(key.copy()?)),
        Request::Put(item, terms) => {
            let terms = copy_terms(terms)?;
            let Ok(item) = item.copy() else {
                drop(terms);
                return Err(AllocError);
            };
            Ok(Request::Put(item, terms))
        }
        Request::Delete(key, terms) => {
            let terms = copy_terms(terms)?;
            let Ok(key) = key.copy() else {
                drop(terms);
                return Err(AllocError);
            };
            Ok(Request::Delete(key, terms))
        }
    }
}

/// An equal call, which shares its item.
pub(crate) fn copy_call(call: &Call) -> Result<Call, AllocError>
    ensures { IfOk result (λ c. c ≡ call.now) }
{
    let table = call.table.copy()?;
    let request = copy_request(&call.request)?;
    Ok(Call { table, request })
}
