// Everything that a step needs, made before it is taken.
ghost use Rattle.std.specs.Prelude.{◌≡◌, IfOk, IsTrue, is_some, [], option_map};
ghost use Rattle.item_store.specs.Store.{stored_items};
ghost use Rattle.step_names.specs.Thread.{Thread};
ghost use Rattle.asl_forward.specs.Planned.{asks_table};
ghost use Rattle.saved_steps.specs.Answering.{change_from};
ghost use Rattle.saved_steps.specs.Held.{frames_of};
ghost use Rattle.saved_steps.specs.Effects.{effect_with_bound, first_bound};
ghost use Rattle.saved_steps.specs.Made.{CanMake, IsMadeOf, IsMadeBy, KeepsStore, effect_of_work};

use crate::answering::{Answered, Touch, answer};
use crate::made::{Change, Made};
use crate::next::Next;
use crate::places::{bound_over, has_tree};
use crate::world::World;
use asl_forward::{Frame, Outcome, Prepared, finish};
use branch_tree::Branch;
use std::alloc::{AllocError, Global};
use step_names::{StepName, ThreadName};

/// The change of a thread's frame, and of the item that its call touches.
fn change_of(frame: Frame, touch: Option<Touch>) -> Change
    ensures { result ≡ change_from frame touch }
{
    match touch {
        Some(Touch { access, slot, new }) => Change::Call {
            frame,
            access,
            slot,
            new,
        },
        None => Change::Plain(frame),
    }
}

/// Whether a turn comes to a call.
fn asks(outcome: &Outcome) -> bool
    ensures { result ≡ asks_table outcome.now }
{
    matches!(outcome, Outcome::Call(_))
}

impl World {
    /// Makes everything that a step needs: the place of an execution, the slot of a key and the answer of a call, the
    /// branches of a fork, and the names that the step's fact keeps. The world then shows the same frames and items, also
    /// where memory is refused.
    pub fn make(&mut self, alloc: Global, name: &StepName, next: Next) -> Result<Made, AllocError>
        requires { CanMake self.old name.now next }
        ensures made { IfOk result (λ m. IsMadeOf self.old self.new name.now next m) }
        ensures frames { (t : Thread) → frames_of self.new t ≡ frames_of self.old t }
        ensures items { stored_items self.new.items ≡ stored_items self.old.items }
        ensures store { KeepsStore self.old.items self.new.items }
    {
        self.executions.go_by();
        let Ok(name) = name.copy() else {
            drop(next);
            return Err(AllocError);
        };
        match next {
            Next::Begin(frame) => self.make_begin(alloc, name, frame),
            Next::Work(prepared) => {
                let bound = self.first_bound(&name.thread, prepared.frame());
                self.make_work(alloc, name, bound, prepared)
            }
            Next::Join(frame) => Ok(Made {
                name,
                bound: 0,
                change: Change::Join(frame),
            }),
            Next::Terminate(frame) => Ok(Made {
                name,
                bound: 0,
                change: Change::Terminate(frame),
            }),
        }
    }

    fn make_begin(
        &mut self,
        alloc: Global,
        name: StepName,
        frame: Frame,
    ) -> Result<Made, AllocError>
        requires { CanMake self.old name (Next.Begin frame) }
        ensures made { IfOk result (λ m. IsMadeOf self.old self.new name (Next.Begin frame) m) }
        ensures frames { (t : Thread) → frames_of self.new t ≡ frames_of self.old t }
        ensures items { self.new.items ≡ self.old.items }
    {
        let is_absent = !has_tree(self.executions.trees(), name.thread.exec());
        prove!(is_absent);
        if self
            .executions
            .make_place(alloc, name.thread.exec())
            .is_err()
        {
            drop(frame);
            drop(name);
            return Err(AllocError);
        }
        Ok(Made {
            name,
            bound: 0,
            change: Change::Begin(frame),
        })
    }

    /// The bound of the fork over a thread that has made no move; else 0, and of an execution's own thread, without a look-up.
    fn first_bound(&self, thread: &ThreadName, frame: &Frame) -> u32
        ensures { result ≡ first_bound (frames_of self.now) thread.now frame.now }
    {
        if frame.count != 0 || thread.is_execution() {
            return 0;
        }
        bound_over(self.executions.trees(), thread)
    }

    fn make_work(
        &mut self,
        alloc: Global,
        name: StepName,
        bound: u32,
        prepared: Prepared,
    ) -> Result<Made, AllocError>
        requires { CanMake self.old name (Next.Work prepared) }
        ensures made { IfOk result (λ m. IsMadeBy self.new name (option_map (effect_with_bound bound) (effect_of_work self.old.items name prepared prepared.outcome)) m) }
        ensures frames { (t : Thread) → frames_of self.new t ≡ frames_of self.old t }
        ensures items { stored_items self.new.items ≡ stored_items self.old.items }
        ensures store { KeepsStore self.old.items self.new.items }
    {
        if asks(prepared.outcome()) {
            return self.make_call(alloc, name, bound, prepared);
        }
        let (_, _, outcome) = prepared.into_parts();
        match outcome {
            Outcome::Next(frame) => Ok(Made {
                name,
                bound,
                change: Change::Plain(frame),
            }),
            Outcome::Fork(frame, frames) => {
                let Ok(kids) = Branch::leaves(alloc, frames.into_vec()) else {
                    drop(frame);
                    drop(name);
                    return Err(AllocError);
                };
                Ok(Made {
                    name,
                    bound,
                    change: Change::Fork(frame, kids),
                })
            }
            Outcome::Call(_) => unreachable!(),
        }
    }

    fn make_call(
        &mut self,
        alloc: Global,
        name: StepName,
        bound: u32,
        prepared: Prepared,
    ) -> Result<Made, AllocError>
        requires suits { CanMake self.old name (Next.Work prepared) }
        requires asks { IsTrue (asks_table prepared.outcome) }
        ensures made { IfOk result (λ m. IsMadeBy self.new name (option_map (effect_with_bound bound) (effect_of_work self.old.items name prepared prepared.outcome)) m) }
        ensures frames { (t : Thread) → frames_of self.new t ≡ frames_of self.old t }
        ensures items { stored_items self.new.items ≡ stored_items self.old.items }
        ensures store { KeepsStore self.old.items self.new.items }
    {
        let (frame, machine, outcome) = prepared.into_parts();
        let Outcome::Call(call) = outcome else {
            unreachable!()
        };
        let Ok(Answered { answer, touch }) = answer(&mut self.items, alloc, call) else {
            drop(frame);
            drop(machine);
            drop(name);
            return Err(AllocError);
        };
        let Ok(next) = finish(alloc, &machine, &frame, answer) else {
            drop(touch);
            drop(frame);
            drop(machine);
            drop(name);
            return Err(AllocError);
        };
        drop(frame);
        drop(machine);
        Ok(Made {
            name,
            bound,
            change: change_of(next, touch),
        })
    }
}
