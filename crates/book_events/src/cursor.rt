// From where on a thread is looked for that is free.
ghost use Rattle.std.specs.Prelude.{◌≡◌, ◌⊎◌, []};
ghost use Rattle.std.specs.String.{string_bytes};
ghost use Rattle.book_events.specs.Cursors.{GoesBack, IsUpTo, first_of_all, cursor_place};

use std::alloc::Global;
use std::cmp::Ordering;
use step_names::ThreadName;

/// A place among all threads, in the order of their names: the execution's name, and the path under it. If no thread before it is
/// free, a search for the first that is begins there (`Events::first_ready_from`). So threads that are passed by are gone by once.
#[derive(Drop)]
pub struct Cursor {
    pub exec: String,
    pub path: Vec<(u32, u32)>,
}

impl Cursor {
    /// Before all threads. Takes no memory.
    pub fn new(alloc: Global) -> Cursor
        ensures { cursor_place result ≡ first_of_all }
    {
        Cursor {
            exec: String::new(alloc),
            path: Vec::new(alloc),
        }
    }

    /// Goes back before all threads. Takes no memory.
    pub fn reset(&mut self)
        ensures { cursor_place self.new ≡ first_of_all }
    {
        self.exec.clear();
        self.path.clear();
    }

    /// Goes back before an execution that changed, if it has come so far. If the memory of its name is refused, before all threads.
    pub fn go_back(&mut self, exec: &str)
        ensures { GoesBack exec.now (cursor_place self.old) (cursor_place self.new) }
    {
        match exec.cmp(self.exec.as_str()) {
            Ordering::Less => {
                rewrite(&mut self.exec, exec);
                self.path.clear();
            }
            Ordering::Equal => self.path.clear(),
            Ordering::Greater => {}
        }
    }

    /// Goes on to a thread. Takes the memory of its names as they get longer; if it is refused, the cursor goes less far.
    pub fn go_on(&mut self, thread: &ThreadName)
        ensures { IsUpTo thread.now (cursor_place self.new) }
    {
        self.path.clear();
        if self.exec.as_str() != thread.exec() {
            rewrite(&mut self.exec, thread.exec());
        }
        if !self.exec.is_empty() {
            let _ = self.path.extend_from_slice(thread.path());
        }
    }
}

/// Writes a name in place of another. If the memory is refused, the text is empty.
fn rewrite(text: &mut String, name: &str)
    ensures { (string_bytes text.new ≡ name.now) ⊎ (string_bytes text.new ≡ []) }
{
    text.clear();
    let _ = text.push_str(name);
}
