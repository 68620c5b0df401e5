//! Names of threads and of their steps.
//!
//! A thread is named by its execution and by the branches that lead to it: `E` is the execution's own thread,
//! and `E/2.0/5.1` is branch 1 of the fork that step 5 of `E/2.0` made. A step is named by its thread and its
//! number: `E/2.0#5` is the fifth step of `E/2.0`, and `E#0` is the start of `E`.
//!
//! ```text
//! NAME    1 to 64 ASCII letters, digits, `_` and `-`
//! NUM     `0`, or digits that don't begin with `0`, of a number that fits 32 bits
//! thread  NAME, then up to 31 times `/` NUM `.` NUM, the first NUM not 0
//! step    thread `#` NUM
//! ```
//!
//! Each name has this one spelling. Threads are ordered by the execution's name, byte by byte, and then branch
//! by branch, the shorter path first; steps by their thread and then their number.
#![tactic(auto)]

mod exec_name;
mod grammar;
mod laws;
mod path_buffer;
mod room;
mod step;
mod thread;
mod written;

pub use grammar::{is_name, is_name_byte, read_number};
pub use laws::{forks_nest, names_in_order, step_spelling, thread_spelling};
pub use room::NameRoom;
use std::alloc::{AllocError, AllocFailed};
use std::error::Error;
use std::fmt;
pub use step::{LONGEST_STEP, StepName};
pub use thread::{LONGEST_THREAD, ThreadName};
pub use written::{decimal_len, push_decimal};

/// Why there is no such name.
#[derive(Clone, Copy, Debug, PartialEq, Eq)]
pub enum NameFault {
    /// The text is not of the grammar, or the name would go past the bounds.
    BadName,
    /// Memory was refused.
    Memory,
}

impl fmt::Display for NameFault {
    fn fmt<W: fmt::Write>(&self, f: &mut fmt::Formatter<W>) -> fmt::Result {
        match self {
            NameFault::BadName => write!(f, "no name of a thread or a step"),
            NameFault::Memory => write!(f, "out of memory"),
        }
    }
}

impl Error for NameFault {}

impl From<AllocError> for NameFault {
    ghost use Rattle.std.specs.Prelude.{◌≡◌};
    ghost use Rattle.step_names.specs.declared.NameFault.TheVariants.{Memory};

    ghost from_gives = { λ _ e. e ≡ Memory };

    fn from(_e: AllocError) -> NameFault {
        NameFault::Memory
    }
}

impl<T: Drop> From<AllocFailed<T>> for NameFault {
    ghost use Rattle.std.specs.Prelude.{◌≡◌};
    ghost use Rattle.step_names.specs.declared.NameFault.TheVariants.{Memory};

    ghost from_gives = { λ _ e. e ≡ Memory };

    fn from(_e: AllocFailed<T>) -> NameFault {
        NameFault::Memory
    }
}
