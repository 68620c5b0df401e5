// What a fork keeps of its branches.
ghost use Rattle.std.specs.Prelude.{◌≡◌, ◌≤◌, ◌<◌, ℕ, true, length};
ghost use Rattle.branch_tree.specs.Leading.{leading_done, is_in_turn, done_at, failures, AreCounted, WereCounted};

use crate::branch::Branch;

/// How many branches are done before the first that is not, and how many have failed.
#[derive(Clone, Copy)]
pub(crate) struct Counts {
    pub(crate) leading: usize,
    pub(crate) failed: usize,
}

/// Of no branch.
pub(crate) const NONE: Counts = Counts {
    leading: 0,
    failed: 0,
};

/// The counts of these branches. Looks at each.
pub(crate) fn count(kids: &[Branch]) -> Counts
    ensures { AreCounted kids.now result.leading result.failed }
{
    Counts {
        leading: leading_from(kids, 0),
        failed: failures(kids),
    }
}

/// The counts of branches of which the one at an index was changed, told whether that one had failed. Looks at one of them, and at
/// those by which more lead now.
pub(crate) fn counts_after(kids: &[Branch], counts: Counts, index: usize, failed: bool) -> Counts
    requires { WereCounted kids.now counts.leading counts.failed index failed }
    ensures { AreCounted kids.now result.leading result.failed }
{
    let leading = leading_after(kids, counts.leading, index);
    let others = if failed {
        counts.failed - 1
    } else {
        counts.failed
    };
    if kids[index].has_failed() {
        Counts {
            leading,
            failed: others + 1,
        }
    } else {
        Counts {
            leading,
            failed: others,
        }
    }
}

/// How many branches are done before the first that is not, of which so many were before the one at an index was changed.
fn leading_after(kids: &[Branch], leading: usize, index: usize) -> usize
    requires fits { leading ≤ length kids.now }
    requires there { index < length kids.now }
    requires others { (j : ℕ) → j < leading → (j ≡ index → ⊥) → done_at kids.now j ≡ true }
    ensures { result ≡ leading_done kids.now }
{
    if index < leading && !kids[index].is_done() {
        return index;
    }
    leading_from(kids, leading)
}

/// How many of these branches are done before the first that is not, and so many at least.
fn leading_from(kids: &[Branch], least: usize) -> usize
    requires fits { least ≤ length kids.now }
    requires done { (j : ℕ) → j < least → done_at kids.now j ≡ true }
    ensures { result ≡ leading_done kids.now }
{
    for index in least..kids.len() {
        if !kids[index].is_done() {
            return index;
        }
    }
    kids.len()
}

/// How many of these branches have failed.
#[tactic(auto, using(crate::proofs::Counted::fail_on, crate::proofs::Counted::fail_over))]
fn failures(kids: &[Branch]) -> usize
    ensures { result ≡ failures kids.now }
{
    let mut failed = 0;
    for kid in kids {
        if kid.has_failed() {
            failed += 1;
        }
    }
    failed
}

/// Whether a branch may begin, of whose fork so many branches before it are done from the first on.
pub(crate) fn is_in_turn(bound: u32, leading: usize, index: usize) -> bool
    requires { leading ≤ index }
    ensures { result ≡ is_in_turn bound leading index }
{
    bound == 0 || index - leading < bound as usize
}
