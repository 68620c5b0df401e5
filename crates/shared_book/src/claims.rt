// Which threads a claim leaves out.
ghost use Rattle.std.specs.Prelude.{◌≡◌, [], true, false, length, filter, OnErr, OnOk, Some, ◌⊎◌};
ghost use Rattle.step_names.specs.Thread.{Thread};
ghost use Rattle.shared_book.specs.Away.{AreOutside, LeavesOutMore, LeavesOutOthers, PassesNoOther, claim_ended, claimed_alone, claimed_with, is_thread_among, is_passed, passed_by};

use std::alloc::{AllocError, Global};
use std::collections::BTreeSet;
use std::marker::Model;
use step_names::ThreadName;

/// The threads that callers have claimed; and these together with those that are passed by. Contracts see the names in both.
#[derive(Drop)]
pub(crate) struct Claims {
    claimed: BTreeSet<ThreadName>,
    outside: BTreeSet<ThreadName>,
}

impl Model for Claims {
    ghost use Rattle.shared_book.specs.Away.{AreOutside, Away};

    ghost Value = { Away };

    ghost view = { λ c. record { claimed = c.claimed.keys; outside = c.outside.keys } };

    ghost invariant = { λ c. AreOutside (record { claimed = c.claimed.keys; outside = c.outside.keys }) };
}

impl Claims {
    pub(crate) fn new(alloc: Global) -> Claims
        ensures { result ≡ record { claimed = []; outside = [] } }
    {
        Claims {
            claimed: BTreeSet::new(alloc),
            outside: BTreeSet::new(alloc),
        }
    }

    /// The threads that a claim leaves out.
    pub(crate) fn outside(&self) -> &BTreeSet<ThreadName>
        ensures keys { result.now.keys ≡ self.now.outside }
        ensures claimed { AreOutside self.now }
    {
        &self.outside
    }

    /// How many are claimed.
    pub(crate) fn len(&self) -> usize
        ensures { result ≡ length self.now.claimed }
    {
        self.claimed.len()
    }

    /// Claims a thread. Takes memory for two copies of its name.
    pub(crate) fn claim(&mut self, thread: &ThreadName) -> Result<(), AllocError>
        requires { is_thread_among self.old.outside thread.now ≡ false }
        ensures ok { OnOk result (self.new ≡ claimed_with self.old (Some thread.now)) }
        ensures passed { OnOk result (PassesNoOther self.old self.new) }
        ensures more { OnOk result (LeavesOutMore self.old self.new) }
        ensures err { OnErr result (self.new ≡ self.old) }
    {
        let claimed = thread.copy()?;
        let outside = thread.copy()?;
        self.outside.insert(outside)?;
        match self.claimed.insert(claimed) {
            Ok(_) => Ok(()),
            Err(refused) => {
                drop(refused);
                self.outside.remove(thread);
                Err(AllocError)
            }
        }
    }

    /// Ends the claim of a thread, if there is one. Takes no memory.
    pub(crate) fn end(&mut self, thread: &ThreadName)
        ensures ended { self.new ≡ claim_ended self.old thread.now }
        ensures passed { PassesNoOther self.old self.new }
        ensures others { LeavesOutOthers thread.now.exec self.old self.new }
    {
        if self.claimed.remove(thread) {
            self.outside.remove(thread);
        }
    }

    /// Passes a thread by that is claimed. Takes no memory.
    pub(crate) fn pass_by(&mut self, thread: &ThreadName)
        ensures by { self.new ≡ passed_by self.old thread.now }
        ensures passed { (t : Thread) → is_passed self.new t ≡ true → (is_passed self.old t ≡ true) ⊎ (t ≡ thread.now) }
    {
        self.claimed.remove(thread);
    }

    /// Passes nobody by any more. Takes no memory.
    pub(crate) fn forget_passed(&mut self)
        ensures { self.new ≡ claimed_alone self.old }
    {
        keep_claimed(&self.claimed, &mut self.outside);
    }
}

/// Leaves those that are claimed.
fn keep_claimed(claimed: &BTreeSet<ThreadName>, outside: &mut BTreeSet<ThreadName>)
    ensures { outside.new.keys ≡ filter (is_thread_among claimed.now.keys) outside.old.keys }
{
    outside.retain(|thread| claimed.contains(thread));
}
