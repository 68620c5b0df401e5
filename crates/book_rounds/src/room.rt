// Whether there is room for a step.
ghost use Rattle.std.specs.Prelude.{◌≡◌, ◌+◌, ◌||◌, nat_le, nat_lt};
ghost use Rattle.book_log.specs.Answers.{is_full_for_step, most_steps, most_before_a_step};

use book_events::BookCalls;

/// So many steps may remain.
const MOST_STEPS: usize = 65_536;

/// So many may entries and remaining steps be together before a step.
const MOST_BEFORE_A_STEP: usize = 999_998;

/// Whether the book refuses each step as full. Takes no memory.
#[tactic(auto, using(crate::proofs::Sums::full_by))]
pub fn is_full_for_step<B: BookCalls>(book: &B) -> bool
    ensures { result ≡ is_full_for_step (B.log book.now) }
{
    is_full(book.entries().1.len(), book.history().len())
}

#[tactic(auto, using(crate::proofs::Sums::sum_test))]
fn is_full(entries: usize, steps: usize) -> bool
    ensures { result ≡ (nat_le most_steps steps || nat_lt most_before_a_step (entries + steps)) }
{
    MOST_STEPS <= steps || MOST_BEFORE_A_STEP < entries || MOST_BEFORE_A_STEP - entries < steps
}
