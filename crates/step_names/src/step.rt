ghost use Rattle.std.specs.Prelude.{◌≡◌, ◌↔◌, ◌==◌, ◌∷◌, ◌++◌, ◌+◌, ◌<◌, ◌≤◌, length, None, Some, IfOk, OnOk, OnErr, IsErrOf, string_bytes, string_len};
ghost use Rattle.std.specs.String.{string_capacity};
ghost use Rattle.step_names.specs.Grammar.{read_step};
ghost use Rattle.step_names.specs.Thread.{IsStep};
ghost use Rattle.step_names.specs.Written.{step_text};

use crate::NameFault;
use crate::grammar::{cut, read_number};
use crate::thread::ThreadName;
use crate::written::{decimal_len, push_ascii, push_decimal};
use std::alloc::{AllocError, Global};
use std::cmp::Ordering;

/// The most bytes that the name of a step is written in: 11 more than its thread's.
pub const LONGEST_STEP: usize = 757;

/// The name of a step: the `no`-th of its thread, from 1. `no` 0 of an execution's own thread is its start.
#[derive(Debug, Drop)]
pub struct StepName {
    pub thread: ThreadName,
    pub no: u32,
}

impl StepName {
    /// Reads a name. A text that is no name is told before any memory is asked for; a name takes the blocks of its
    /// thread's. Time in proportion to the text.
    ///
    /// # Errors
    ///
    /// `BadName` where the text is not of the grammar, and `Memory`.
    pub fn read(alloc: Global, text: &str) -> Result<StepName, NameFault>
        ensures ok { IfOk result (λ s. read_step text.now ≡ Some s) }
        ensures bad { IsErrOf result NameFault.BadName ↔ (read_step text.now ≡ None) }
    {
        let Some((thread, number)) = cut(text, '#') else {
            return Err(NameFault::BadName);
        };
        let Some(no) = read_number(number) else {
            return Err(NameFault::BadName);
        };
        match ThreadName::read(alloc, thread) {
            Ok(thread) => Ok(StepName { thread, no }),
            Err(fault) => Err(fault),
        }
    }

    /// The length of the written name, in bytes. Takes no memory, in time of the name's digits.
    pub fn text_len(&self) -> usize
        ensures len { result ≡ length (step_text self.now) }
        ensures bound { result ≤ LONGEST_STEP }
        ensures bounds { IsStep self.now.thread self.now.no }
    {
        self.thread.text_len() + 1 + decimal_len(self.no)
    }

    /// The name's one spelling. Takes one block, of its length.
    #[tactic(auto, using(crate::proofs::Spelling::step_reads))]
    pub fn write_text(&self, alloc: Global) -> Result<String, AllocError>
        ensures text { IfOk result (λ s. string_bytes s ≡ step_text self.now) }
        ensures bound { IfOk result (λ s. string_len s ≤ LONGEST_STEP) }
        ensures reads_back { IfOk result (λ s. read_step (string_bytes s) ≡ Some self.now) }
    {
        let mut out = String::with_capacity(alloc, self.text_len())?;
        self.push_to(&mut out);
        Ok(out)
    }

    /// Puts the name's one spelling at the end of a text. Takes memory only where the text has no room for it, and
    /// so none where [`LONGEST_STEP`] more bytes were reserved. A refusal leaves the text as it was.
    pub fn write_to(&self, out: &mut String) -> Result<(), AllocError>
        ensures ok { OnOk result (string_bytes out.new ≡ string_bytes out.old ++ step_text self.now) }
        ensures full { OnErr result (string_capacity out.old < string_len out.old + length (step_text self.now)) }
        ensures err { OnErr result (string_bytes out.new ≡ string_bytes out.old) }
        ensures len { OnOk result (string_len out.new ≡ string_len out.old + length (step_text self.now)) }
        ensures capacity { string_capacity out.old ≤ string_capacity out.new }
    {
        out.reserve(self.text_len())?;
        self.push_to(out);
        Ok(())
    }

    /// Puts the name at the end, in room that is there.
    fn push_to(&self, out: &mut String)
        requires { string_len out.old + length (step_text self.now) ≤ string_capacity out.old }
        ensures bytes { string_bytes out.new ≡ string_bytes out.old ++ step_text self.now }
        ensures len { string_len out.new ≡ string_len out.old + length (step_text self.now) }
        ensures capacity { string_capacity out.old ≤ string_capacity out.new }
    {
        self.thread.push_to(out);
        push_ascii(out, b'#');
        push_decimal(out, self.no);
    }

    /// A copy, by the allocators that this name keeps. Takes the blocks of its thread's copy.
    pub fn copy(&self) -> Result<StepName, AllocError>
        ensures { IfOk result (λ s. s ≡ self.now) }
    {
        let thread = self.thread.copy()?;
        Ok(StepName {
            thread,
            no: self.no,
        })
    }
}

impl PartialEq for StepName {
    ghost use Rattle.std.specs.Ordering.{eq_by_cmp};
    ghost use Rattle.std.specs.Cmp.{eq_by_cmp_equiv, partial_equiv_from_equiv};
    ghost use Rattle.step_names.specs.Order.{step_cmp, step_cmp_total};

    ghost eq = { eq_by_cmp step_cmp };

    ghost laws = { partial_equiv_from_equiv (eq_by_cmp_equiv step_cmp_total) };

    fn eq(&self, other: &StepName) -> bool {
        self.cmp(other).is_eq()
    }
}

impl Eq for StepName {
    ghost use Rattle.std.specs.Cmp.{eq_by_cmp_equiv};
    ghost use Rattle.step_names.specs.Order.{step_cmp_total};

    ghost laws = { eq_by_cmp_equiv step_cmp_total };
}

impl PartialOrd for StepName {
    ghost use Rattle.std.specs.Prelude.{refl};
    ghost use Rattle.std.specs.Ordering.{as_partial_cmp};
    ghost use Rattle.std.specs.Cmp.{partial_order_from_agreeing_total};
    ghost use Rattle.step_names.specs.Order.{step_cmp, step_cmp_total};

    ghost partial_cmp = { as_partial_cmp step_cmp };

    ghost laws = { partial_order_from_agreeing_total step_cmp step_cmp_total (λ _ _. refl) (λ _ _. refl) };

    fn partial_cmp(&self, other: &StepName) -> Option<Ordering> {
        Some(self.cmp(other))
    }
}

impl Ord for StepName {
    ghost use Rattle.std.specs.Prelude.{refl};
    ghost use Rattle.step_names.specs.Order.{step_cmp, step_cmp_total};

    ghost cmp = { step_cmp };

    ghost total = { step_cmp_total };

    ghost matches_partial_cmp = { λ _ _. refl };

    ghost matches_eq = { λ _ _. refl };

    fn cmp(&self, other: &StepName) -> Ordering {
        match self.thread.cmp(&other.thread) {
            Ordering::Equal => self.no.cmp(&other.no),
            unequal => unequal,
        }
    }
}
