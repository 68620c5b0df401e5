ghost use Rattle.std.specs.Prelude.{◌≡◌, ◌≤◌, ◌<◌, ◌↔◌, ◌⊎◌, ◌+◌, [], ◌++◌, length, None, Some, IfOk, OnOk, OnErr, IsErrOf, IsTrue, SomeIff, string_bytes, string_len};
ghost use Rattle.std.specs.String.{string_capacity};
ghost use Rattle.std.specs.List.{list_all};
ghost use Rattle.step_names.specs.Thread.{execution, child_of, is_name, is_name_byte, IsThread};
ghost use Rattle.step_names.specs.Written.{thread_text};
ghost use Rattle.step_names.specs.Grammar.{read_thread};
ghost use Rattle.step_names.specs.Under.{is_under, IsUnder, goes_on_by};

use crate::NameFault;
use crate::exec_name::ExecName;
use crate::grammar::{is_name, read_parts};
use crate::path_buffer::MOST_BRANCHES;
use crate::written::{path_len, push_path};
use json_tree::Text;
use std::alloc::{AllocError, Global};
use std::cmp::Ordering;
use std::marker::Model;

/// The most bytes that the name of an execution has.
pub(crate) const LONGEST_EXEC: usize = 64;

/// The most bytes that the name of a thread is written in: 64 of the execution's name, and 22 of each branch.
pub const LONGEST_THREAD: usize = 746;

/// The name of a thread. The names of an execution's threads share the execution's name.
///
/// Contracts see it as its execution's bytes and its list of branches, and so `≡` there, and `==` here, compare
/// names and no capacities. It keeps the bounds of the grammar, so there is a longest name.
#[derive(Debug, Drop)]
pub struct ThreadName {
    exec: ExecName,
    path: Vec<(u32, u32)>,
}

impl Model for ThreadName {
    ghost use Rattle.step_names.specs.Thread.{Thread, IsThread};

    ghost Value = { Thread };

    ghost view = { λ a. record { exec = a.exec; path = a.path.items } };

    ghost invariant = { λ a. IsThread (record { exec = a.exec; path = a.path.items }) };
}

impl ThreadName {
    /// The execution's own thread, where the text is a NAME. Takes no memory, in time of the text's length.
    pub fn new(alloc: Global, exec: Text) -> Option<ThreadName>
        ensures { SomeIff result (IsTrue (is_name exec)) (execution exec) }
    {
        if !is_name(exec.as_str()) {
            return None;
        }
        Some(ThreadName {
            exec: ExecName::shared(exec),
            path: Vec::new(alloc),
        })
    }

    /// Reads a name. A text that is no name is told before any memory is asked for; a name takes two blocks for an
    /// execution of more than 22 bytes, and one for its branches, if it has any. Time in proportion to the text.
    ///
    /// # Errors
    ///
    /// `BadName` where the text is not of the grammar, and `Memory`.
    pub fn read(alloc: Global, text: &str) -> Result<ThreadName, NameFault>
        ensures ok { IfOk result (λ t. read_thread text.now ≡ Some t) }
        ensures bad { IsErrOf result NameFault.BadName ↔ (read_thread text.now ≡ None) }
    {
        let Some((exec, path)) = read_parts(text) else {
            return Err(NameFault::BadName);
        };
        let exec = Text::new(alloc, exec)?;
        let path = Vec::from_slice(alloc, path.as_slice())?;
        Ok(ThreadName {
            exec: ExecName::shared(exec),
            path,
        })
    }

    /// A name of parts that keep the bounds.
    pub(crate) fn from_parts(exec: ExecName, path: Vec<(u32, u32)>) -> ThreadName
        requires { IsThread (record { exec = exec; path = path.items }) }
        ensures { result ≡ record { exec = exec; path = path.items } }
    {
        ThreadName { exec, path }
    }

    /// The execution's name.
    pub fn exec(&self) -> &str
        ensures exec { result.now ≡ self.now.exec }
        ensures bounds { IsThread self.now }
    {
        self.exec.as_str()
    }

    /// The execution's name, shared. Takes no memory, but where the name was made in a room and has more than 22 bytes.
    pub fn exec_text(&self) -> Result<Text, AllocError>
        ensures { IfOk result (λ t. t ≡ self.now.exec) }
    {
        self.exec.share()
    }

    /// The branches that lead to the thread, outermost first: the number of the step that forked, from 1, and the
    /// branch's index, from 0.
    pub fn path(&self) -> &[(u32, u32)]
        ensures path { result.now ≡ self.now.path }
        ensures bounds { IsThread self.now }
    {
        self.path.as_slice()
    }

    /// Whether this is an execution's own thread.
    pub fn is_execution(&self) -> bool
        ensures { IsTrue result ↔ (self.now.path ≡ []) }
    {
        self.path.is_empty()
    }

    /// A copy, which shares the execution's name. Takes a block for the branches, if there are any, by the allocator
    /// that this name keeps; and two more where the name was made in a room and its execution has more than 22 bytes.
    pub fn copy(&self) -> Result<ThreadName, AllocError>
        ensures { IfOk result (λ t. t ≡ self.now) }
    {
        let exec = self.exec.copy()?;
        let path = Vec::from_slice(*self.path.allocator(), self.path.as_slice())?;
        Ok(ThreadName { exec, path })
    }

    /// The length of the written name, in bytes. Takes no memory, in time of the name's digits.
    pub fn text_len(&self) -> usize
        ensures len { result ≡ length (thread_text self.now) }
        ensures bound { result ≤ LONGEST_THREAD }
        ensures bounds { IsThread self.now }
    {
        self.exec.as_str().len() + path_len(self.path.as_slice())
    }

    /// The name's one spelling. Takes one block, of its length.
    #[tactic(auto, using(crate::proofs::Spelling::thread_reads))]
    pub fn write_text(&self, alloc: Global) -> Result<String, AllocError>
        ensures text { IfOk result (λ s. string_bytes s ≡ thread_text self.now) }
        ensures bound { IfOk result (λ s. string_len s ≤ LONGEST_THREAD) }
        ensures reads_back { IfOk result (λ s. read_thread (string_bytes s) ≡ Some self.now) }
    {
        let mut out = String::with_capacity(alloc, self.text_len())?;
        self.push_to(&mut out);
        Ok(out)
    }

    /// Puts the name's one spelling at the end of a text. Takes memory only where the text has no room for it, and
    /// so none where [`LONGEST_THREAD`] more bytes were reserved. A refusal leaves the text as it was.
    pub fn write_to(&self, out: &mut String) -> Result<(), AllocError>
        ensures ok { OnOk result (string_bytes out.new ≡ string_bytes out.old ++ thread_text self.now) }
        ensures full { OnErr result (string_capacity out.old < string_len out.old + length (thread_text self.now)) }
        ensures err { OnErr result (string_bytes out.new ≡ string_bytes out.old) }
        ensures len { OnOk result (string_len out.new ≡ string_len out.old + length (thread_text self.now)) }
        ensures capacity { string_capacity out.old ≤ string_capacity out.new }
    {
        out.reserve(self.text_len())?;
        self.push_to(out);
        Ok(())
    }

    /// Puts the name at the end, in room that is there.
    pub(crate) fn push_to(&self, out: &mut String)
        requires { string_len out.old + length (thread_text self.now) ≤ string_capacity out.old }
        ensures bytes { string_bytes out.new ≡ string_bytes out.old ++ thread_text self.now }
        ensures len { string_len out.new ≡ string_len out.old + length (thread_text self.now) }
        ensures capacity { string_capacity out.old ≤ string_capacity out.new }
    {
        let _ = out.push_str(self.exec.as_str());
        push_path(out, self.path.as_slice());
    }

    /// The name of a branch of the fork that step `fork` of this thread made. It shares the execution's name, and takes
    /// the memory of a copy of this name with a branch more.
    ///
    /// # Errors
    ///
    /// `BadName` where the number is 0 or there are 31 branches already, which is told before any memory is asked
    /// for, and `Memory`.
    pub fn child(&self, alloc: Global, fork: u32, branch: u32) -> Result<ThreadName, NameFault>
        ensures ok { IfOk result (λ t. t ≡ child_of self.now fork branch) }
        ensures bad { IsErrOf result NameFault.BadName ↔ ((fork ≡ 0) ⊎ (length self.now.path ≡ 31)) }
    {
        if fork == 0 || self.path.len() == MOST_BRANCHES {
            return Err(NameFault::BadName);
        }
        let exec = self.exec.copy()?;
        let mut path = Vec::with_capacity(alloc, self.path.len() + 1)?;
        path.extend_from_slice(self.path.as_slice())?;
        path.push((fork, branch))?;
        Ok(ThreadName { exec, path })
    }

    /// Whether this thread lies under the fork that step `fork` of the other made, at any depth. Takes no memory, in
    /// time of the shorter name.
    pub fn is_under(&self, thread: &ThreadName, fork: u32) -> bool
        ensures test { result ≡ is_under self.now thread.now fork }
        ensures under { IsTrue result ↔ IsUnder self.now thread.now fork }
    {
        self.exec.as_str() == thread.exec.as_str()
            && goes_on_by(self.path.as_slice(), thread.path.as_slice(), fork)
    }
}

/// Whether the path is the one above, a branch of the fork, and perhaps more.
fn goes_on_by(path: &[(u32, u32)], above: &[(u32, u32)], fork: u32) -> bool
    ensures { result ≡ goes_on_by path.now above.now fork }
{
    match path.strip_prefix(above) {
        Some([next, ..]) => next.0 == fork,
        Some([]) => false,
        None => false,
    }
}

impl PartialEq for ThreadName {
    ghost use Rattle.std.specs.Ordering.{eq_by_cmp};
    ghost use Rattle.std.specs.Cmp.{eq_by_cmp_equiv, partial_equiv_from_equiv};
    ghost use Rattle.step_names.specs.Order.{thread_cmp, thread_cmp_total};

    ghost eq = { eq_by_cmp thread_cmp };

    ghost laws = { partial_equiv_from_equiv (eq_by_cmp_equiv thread_cmp_total) };

    fn eq(&self, other: &ThreadName) -> bool {
        self.cmp(other).is_eq()
    }
}

impl Eq for ThreadName {
    ghost use Rattle.std.specs.Cmp.{eq_by_cmp_equiv};
    ghost use Rattle.step_names.specs.Order.{thread_cmp_total};

    ghost laws = { eq_by_cmp_equiv thread_cmp_total };
}

impl PartialOrd for ThreadName {
    ghost use Rattle.std.specs.Prelude.{refl};
    ghost use Rattle.std.specs.Ordering.{as_partial_cmp};
    ghost use Rattle.std.specs.Cmp.{partial_order_from_agreeing_total};
    ghost use Rattle.step_names.specs.Order.{thread_cmp, thread_cmp_total};

    ghost partial_cmp = { as_partial_cmp thread_cmp };

    ghost laws = { partial_order_from_agreeing_total thread_cmp thread_cmp_total (λ _ _. refl) (λ _ _. refl) };

    fn partial_cmp(&self, other: &ThreadName) -> Option<Ordering> {
        Some(self.cmp(other))
    }
}

impl Ord for ThreadName {
    ghost use Rattle.std.specs.Prelude.{refl};
    ghost use Rattle.step_names.specs.Order.{thread_cmp, thread_cmp_total};

    ghost cmp = { thread_cmp };

    ghost total = { thread_cmp_total };

    ghost matches_partial_cmp = { λ _ _. refl };

    ghost matches_eq = { λ _ _. refl };

    fn cmp(&self, other: &ThreadName) -> Ordering {
        match self.exec.as_str().cmp(other.exec.as_str()) {
            Ordering::Equal => self.path.cmp(&other.path),
            unequal => unequal,
        }
    }
}
