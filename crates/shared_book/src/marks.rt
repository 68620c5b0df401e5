// Which numbers have a receipt.
ghost use Rattle.std.specs.Prelude.{◌≡◌, ℕ, ◌+◌, ◌-◌, ◌^◌, ◌<◌, ◌≤◌, ◌==◌, ◌||◌, true, false, length, replicate, slice_index_or, IfOk, MatchOption};
ghost use Rattle.shared_book.specs.Closed.{all_receipts, is_marked, receipt_times};

use crate::pass::Pass;
use crate::receipt::Receipt;
use std::alloc::{AllocError, Global};
use std::sync::ledger::Ledger;

/// The first number from `first` on and below `end` for which there is no receipt. Takes memory for a mark for each number, and time
/// linear in the numbers of these and of the receipts.
pub(crate) fn missing<L: Ledger>(
    alloc: Global,
    passes: &[Pass<L>],
    first: usize,
    end: usize,
) -> Result<Option<usize>, AllocError>
    requires { first ≤ end }
    ensures { IfOk result (λ found. MatchOption found ((k : ℕ) → first ≤ k → k < end → 0 < receipt_times k (all_receipts passes.now))
        (λ n. (first ≤ n) × (n < end) × (receipt_times n (all_receipts passes.now) ≡ 0))) }
{
    let mut marks = Vec::from_elem(alloc, false, end - first)?;
    Ok(missing_by(marks.as_mut_slice(), passes, first, end))
}

/// The same, by marks of which none is set.
fn missing_by<L: Ledger>(
    marks: &mut [bool],
    passes: &[Pass<L>],
    first: usize,
    end: usize,
) -> Option<usize>
    requires fit { (first ≤ end) × (end < 2 ^ 64) }
    requires blank { marks.old ≡ replicate (end - first) false }
    ensures { MatchOption result ((k : ℕ) → first ≤ k → k < end → 0 < receipt_times k (all_receipts passes.now))
        (λ n. (first ≤ n) × (n < end) × (receipt_times n (all_receipts passes.now) ≡ 0)) }
{
    mark_all(marks, first, passes);
    unmarked(marks, first)
}

/// Marks the numbers of the receipts of all passes, counted from `first` on.
fn mark_all<L: Ledger>(marks: &mut [bool], first: usize, passes: &[Pass<L>])
    ensures len { length marks.new ≡ length marks.old }
    ensures marked { (j : ℕ) → j < length marks.old → slice_index_or marks.new j false ≡ is_marked (slice_index_or marks.old j false) (first + j) (all_receipts passes.now) }
{
    for pass in passes {
        mark(marks, first, pass.receipts());
    }
}

/// Marks the numbers of the receipts, counted from `first` on.
fn mark(marks: &mut [bool], first: usize, receipts: &[Receipt])
    ensures len { length marks.new ≡ length marks.old }
    ensures marked { (j : ℕ) → j < length marks.old → slice_index_or marks.new j false ≡ is_marked (slice_index_or marks.old j false) (first + j) receipts.now }
{
    for receipt in receipts {
        mark_one(marks, first, receipt.number);
    }
}

/// Marks a number, counted from `first` on.
#[tactic(auto, using(crate::proofs::Marking::mark_here, crate::proofs::Marking::mark_below, crate::proofs::Marking::mark_past))]
fn mark_one(marks: &mut [bool], first: usize, number: usize)
    ensures len { length marks.new ≡ length marks.old }
    ensures marked { (j : ℕ) → j < length marks.old → slice_index_or marks.new j false ≡ (slice_index_or marks.old j false || (number == first + j)) }
{
    if number >= first && number - first < marks.len() {
        marks[number - first] = true;
    }
}

/// The first number from `first` on that isn't marked.
fn unmarked(marks: &[bool], first: usize) -> Option<usize>
    requires { first + length marks.now < 2 ^ 64 }
    ensures { MatchOption result ((j : ℕ) → j < length marks.now → slice_index_or marks.now j false ≡ true)
        (λ n. (j : ℕ) × (j < length marks.now) × (n ≡ first + j) × (slice_index_or marks.now j false ≡ false)) }
{
    for (i, marked) in marks.iter().enumerate() {
        if !*marked {
            return Some(first + i);
        }
    }
    None
}
