// What is kept of each member, and single writes of it.
ghost use Rattle.std.specs.Prelude.{◌≡◌, ◌<◌, ◌≤◌, length, max, IfSome, IsSome, OnOk};
ghost use Rattle.linked_classes.specs.Cells.{cell_at};
ghost use Rattle.linked_classes.specs.Linked.{relinked, reended};
ghost use Rattle.linked_classes.specs.Members.{member_classes, nexts_in, befores_in};

use crate::sparse::SparseVec;
use std::alloc::AllocError;

/// Where a number stands in a class.
#[derive(Clone, Copy, Debug, Drop, PartialEq, Eq)]
pub struct Member {
    pub class: u32,
    /// The greatest member of the class that is less.
    pub before: Option<u32>,
    /// The least member of the class that is greater.
    pub next: Option<u32>,
}

/// Links a member, if there is one, to the next.
pub(crate) fn link_next(members: &mut SparseVec<Member>, number: Option<u32>, next: Option<u32>)
    requires { IfSome number (λ k. IsSome (cell_at members.old.cells k)) }
    ensures classes { member_classes (cell_at members.new.cells) ≡ member_classes (cell_at members.old.cells) }
    ensures nexts { nexts_in (cell_at members.new.cells) ≡ relinked number (nexts_in (cell_at members.old.cells)) next }
    ensures befores { befores_in (cell_at members.new.cells) ≡ befores_in (cell_at members.old.cells) }
    ensures end { length members.new.cells ≡ length members.old.cells }
    ensures room { members.new.room ≡ members.old.room }
    ensures spare { members.new.spare ≡ members.old.spare }
{
    let Some(number) = number else {
        return;
    };
    let Some(member) = members.get(number) else {
        return;
    };
    let linked = Member {
        class: member.class,
        before: member.before,
        next,
    };
    members.replace(number, linked);
}

/// Links a member, if there is one, to the one before it.
pub(crate) fn link_before(members: &mut SparseVec<Member>, number: Option<u32>, before: Option<u32>)
    requires { IfSome number (λ k. IsSome (cell_at members.old.cells k)) }
    ensures classes { member_classes (cell_at members.new.cells) ≡ member_classes (cell_at members.old.cells) }
    ensures nexts { nexts_in (cell_at members.new.cells) ≡ nexts_in (cell_at members.old.cells) }
    ensures befores { befores_in (cell_at members.new.cells) ≡ relinked number (befores_in (cell_at members.old.cells)) before }
    ensures end { length members.new.cells ≡ length members.old.cells }
    ensures room { members.new.room ≡ members.old.room }
    ensures spare { members.new.spare ≡ members.old.spare }
{
    let Some(number) = number else {
        return;
    };
    let Some(member) = members.get(number) else {
        return;
    };
    let linked = Member {
        class: member.class,
        before,
        next: member.next,
    };
    members.replace(number, linked);
}

/// Writes the end of a class, where nothing is beyond the member that comes or goes.
pub(crate) fn write_end(
    ends: &mut Vec<Option<u32>>,
    class: u32,
    beyond: Option<u32>,
    end: Option<u32>,
)
    requires { class < length ends.old.items }
    ensures ends { cell_at ends.new.items ≡ reended beyond class (cell_at ends.old.items) end }
    ensures len { length ends.new.items ≡ length ends.old.items }
{
    if beyond.is_none() {
        ends[class as usize] = end;
    }
}

/// Makes ends for so many classes, the new ones of nothing.
pub(crate) fn widen(ends: &mut Vec<Option<u32>>, width: usize) -> Result<(), AllocError>
    ensures ends { cell_at ends.new.items ≡ cell_at ends.old.items }
    ensures ok { OnOk result (width ≤ length ends.new.items) }
    ensures least { length ends.old.items ≤ length ends.new.items }
    ensures most { length ends.new.items ≤ max (length ends.old.items) width }
{
    // one write of a whole run, where a push for each would cost several times as much
    if ends.len() < width {
        ends.resize(width, None)?;
    }
    Ok(())
}
