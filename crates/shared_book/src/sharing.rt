// Which book is shared.
ghost use Rattle.std.specs.Prelude.{[], None};
ghost use Rattle.attr_values.specs.declared.key.KeyType.TheVariants.{S};
ghost use Rattle.book_log.specs.Log.{Log};

use std::marker::Brand;
use std::sync::ledger::Ledger;

/// A ledger of receipts, and the beginning and the entries of the book that is shared under it. The call that shares a book
/// picks both, at `Brand`.
pub trait Sharing: Ledger {
    ghost begun: { Log };
}

impl Sharing for Brand {
    ghost begun = { record {
      begin = record { table = []; schema = record { partition = record { name = []; kind = S }; sort = None }; items = [] };
      entries = [];
    } };
}
