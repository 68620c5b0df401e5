// One line, given to a session by itself.
ghost use Rattle.std.specs.Prelude.{◌≡◌, [], false, Some};
ghost use Rattle.operator_line.specs.Serving.{Serves};
ghost use Rattle.graph_follower.specs.Following.{book_log_in};

use operator_line::{ServeFault, Session, serve};
use sqlite::Alter;
use std::alloc::Global;
use std::sync::Wait;
use std::thread::Threads;
use threaded_book::Book;

/// What a session answers to a line: the reply of `serve` to this line alone. Takes what that takes.
pub(crate) fn give_line<T: Threads + Wait + Sync, S: Alter>(
    rt: &T,
    alloc: Global,
    session: &mut Session<Book, S>,
    line: &[u8],
) -> (Result<(), ServeFault>, Vec<u8>)
    ensures { session.old.is_failed ≡ false → Serves result.0 line.now (book_log_in session.old) (book_log_in session.new) (Some []) (Some result.1.items) }
{
    let mut input = line;
    let mut reply = Vec::new(alloc);
    let outcome = serve(rt, alloc, &mut input, &mut reply, session);
    (outcome, reply)
}
