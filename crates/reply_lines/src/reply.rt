// Replies, as they are written.
ghost use Rattle.std.specs.Prelude.{◌≡◌, ℕ, List, ◌+◌, ◌<◌, ◌≤◌, ◌^◌, ◌∷◌, ◌++◌, [], codes, length, map, flat_map, string_bytes, string_len, OnOk, OnErr};
ghost use Rattle.std.specs.Fmt.{decimal};
ghost use Rattle.std.specs.String.{string_capacity};
ghost use Rattle.attr_values.specs.Writing.{item_json};
ghost use Rattle.item_store.specs.Listing.{items_left};
ghost use Rattle.json_tree.specs.View.{data_of};
ghost use Rattle.json_tree.specs.Written.{quoted, text_of};
ghost use Rattle.step_names.specs.Written.{step_text};
ghost use Rattle.reply_lines.specs.Replies.{done_reply, entry_reply, step_reply, moved_reply, kind_text, with_feed, list_reply, names_reply, place_text, fault_text, frame_reply, refused, refused_by, refused_for_step, refused_for_field, machine_reply, readiness_text, refusal_reply};
ghost use Rattle.reply_lines.specs.Replying.{AppendsReply, AreLines, has_room_for_lines};

use crate::lines::Lines;
use attr_values::{Item, write_item};
use book_log::branches::Readiness;
use book_log::machines::MachineFault;
use book_log::steps::Kind;
use book_log::turns::{Fault, Frame, Phase};
use book_log::{Entry, Refusal};
use item_store::Items;
use json_tree::{Json, Text, write_text};
use std::alloc::{AllocError, Global};
use step_index::StepRecords;
use step_names::{LONGEST_STEP, StepName, ThreadName, decimal_len, push_decimal};

/// A reply that is being written. It keeps the room of the longest one so far.
#[derive(Drop)]
pub struct Reply {
    pub(crate) text: String,
}

impl Reply {
    /// No text. Takes no memory.
    pub fn new(alloc: Global) -> Reply
        ensures { string_bytes result.text ≡ [] }
    {
        Reply {
            text: String::new(alloc),
        }
    }

    /// Begins the next reply. Takes no memory, and keeps the room.
    pub fn clear(&mut self)
        ensures { string_bytes self.new.text ≡ [] }
    {
        self.text.clear();
    }

    /// The reply so far.
    pub fn as_bytes(&self) -> &[u8]
        ensures { result.now ≡ string_bytes self.now.text }
    {
        self.text.as_bytes()
    }

    /// `ok`.
    pub fn accept(&mut self) -> Result<(), AllocError>
        ensures ok { AppendsReply result self.old self.new done_reply }
    {
        self.word("ok\n")
    }

    /// The reply of an accepted command, which its entry holds.
    pub fn accept_entry(&mut self, entry: &Entry) -> Result<(), AllocError>
        ensures ok { AppendsReply result self.old self.new (entry_reply entry.now) }
    {
        match entry {
            Entry::Define { .. } => self.accept(),
            Entry::Start { exec, .. } => self.accept_start(exec),
            Entry::Step { name, kind } => self.accept_moved(name, *kind),
            Entry::Undo { .. } => self.accept(),
            Entry::Rollback { undone, .. } => self.accept_names(undone.names()),
            Entry::Settle => self.accept(),
            Entry::Hold { count, .. } => self.count(*count as u64),
        }
    }

    /// `ok` and the first step of an execution.
    fn accept_start(&mut self, exec: &ThreadName) -> Result<(), AllocError>
        ensures ok { AppendsReply result self.old self.new (step_reply (record { thread = exec.now; no = 0 })) }
    {
        self.word("ok ")?;
        exec.write_to(&mut self.text)?;
        self.word("#")?;
        self.number(0)?;
        self.word("\n")
    }

    /// `ok`, a step and its kind.
    fn accept_moved(&mut self, name: &StepName, kind: Kind) -> Result<(), AllocError>
        ensures ok { AppendsReply result self.old self.new (moved_reply (record { name = name.now; kind = kind })) }
    {
        self.word("ok ")?;
        name.write_to(&mut self.text)?;
        self.word(kind_word(kind))?;
        self.word("\n")
    }

    /// `ok`, the number of steps, and a line for each.
    pub fn accept_steps(&mut self, records: &StepRecords) -> Result<(), AllocError>
        ensures ok { AppendsReply result self.old self.new (list_reply (map (λ r. step_text r.fact.name) records.now.items)) }
    {
        self.count(records.len() as u64)?;
        for place in 0..records.len() {
            self.step_line(&records.get(place).fact.name)?;
        }
        Ok(())
    }

    /// `ok`, the number of names, and a line for each.
    pub fn accept_names(&mut self, names: &[StepName]) -> Result<(), AllocError>
        ensures ok { AppendsReply result self.old self.new (names_reply names.now) }
    {
        self.count(names.len() as u64)?;
        for name in names {
            self.step_line(name)?;
        }
        Ok(())
    }

    /// `ok`, the number of items, and a line for each. The lines are made first, since they have to be counted.
    pub fn accept_items(&mut self, alloc: Global, items: Items<'_>) -> Result<(), AllocError>
        requires { length (items_left items) < 2 ^ 63 }
        ensures ok { AppendsReply result self.old self.new (list_reply (map (λ i. text_of (item_json i)) (items_left items.entry))) }
    {
        let mut lines = Reply::new(alloc);
        let mut count: u64 = 0;
        for item in items {
            lines.item_line(alloc, item)?;
            count += 1;
        }
        self.count(count)?;
        self.word(lines.text.as_str())
    }

    /// Makes room for lines with their count, and for the line of one step more.
    pub fn reserve_lines(&mut self, lines: &Lines) -> Result<(), AllocError>
        ensures same { string_bytes self.new.text ≡ string_bytes self.old.text }
        ensures room { OnOk result (has_room_for_lines self.new.text (string_len lines.now.text + 758)) }
        ensures kept { string_capacity self.old.text ≤ string_capacity self.new.text }
    {
        self.text.reserve(lines.text.len() + LONGEST_STEP + 32)
    }

    /// `ok`, how many lines there are, and these lines. Takes memory only where no room was made.
    pub fn accept_lines(&mut self, lines: &Lines) -> Result<(), AllocError>
        ensures ok { (texts : List (List ℕ)) → AreLines lines.now texts → AppendsReply result self.old self.new (list_reply texts) }
        ensures room { has_room_for_lines self.old.text (string_len lines.now.text) → OnErr result ⊥ }
    {
        let digits = decimal_len(lines.count);
        self.text.reserve(lines.text.len() + digits + 4)?;
        self.text.push_str("ok ")?;
        push_decimal(&mut self.text, lines.count);
        self.text.push_str("\n")?;
        self.text.push_str(lines.text.as_str())
    }

    /// `ok` and a thread's frame.
    pub fn accept_frame(&mut self, alloc: Global, frame: &Frame) -> Result<(), AllocError>
        ensures ok { AppendsReply result self.old self.new (frame_reply frame.now) }
    {
        match &frame.phase {
            Phase::Ready => {
                self.word("ok ready ")?;
                self.place(alloc, frame)?;
                self.word("\n")
            }
            Phase::Parked(branches, _) => {
                self.word("ok parked ")?;
                self.place(alloc, frame)?;
                self.word(" ")?;
                self.number(u64::from(*branches))?;
                self.word("\n")
            }
            Phase::Done(output) => {
                self.word("ok done ")?;
                self.json_line(alloc, output)
            }
            Phase::Failed(fault) => {
                self.word("ok failed ")?;
                self.fault(alloc, fault)?;
                self.word("\n")
            }
        }
    }

    /// `no` and a code.
    pub fn refuse(&mut self, code: u32) -> Result<(), AllocError>
        ensures ok { AppendsReply result self.old self.new (refused code) }
    {
        self.word("no ")?;
        self.number(u64::from(code))?;
        self.word("\n")
    }

    /// `no`, a code and a number.
    pub fn refuse_by(&mut self, code: u32, number: u32) -> Result<(), AllocError>
        ensures ok { AppendsReply result self.old self.new (refused_by code number) }
    {
        self.word("no ")?;
        self.number(u64::from(code))?;
        self.word(" ")?;
        self.number(u64::from(number))?;
        self.word("\n")
    }

    /// `no` and the refusal of a book.
    pub fn refuse_command(&mut self, alloc: Global, refusal: Refusal) -> Result<(), AllocError>
        ensures ok { AppendsReply result self.old self.new (refusal_reply refusal) }
        ensures memory { refusal ≡ Refusal.Memory → OnOk result ⊥ }
    {
        match refusal {
            Refusal::NoMachine => self.refuse(1),
            Refusal::MachineTaken => self.refuse(2),
            Refusal::BadMachine(fault) => self.refuse_machine(alloc, fault),
            Refusal::ExecTaken => self.refuse(4),
            Refusal::NoThread => self.refuse(5),
            Refusal::NotReady(readiness) => self.refuse_readiness(readiness),
            Refusal::NoStep => self.refuse(7),
            Refusal::HasDependents(step) => self.refuse_for_step(8, &step),
            Refusal::Stale(_) => self.refuse(9),
            Refusal::Full => self.refuse(10),
            Refusal::Memory => Err(AllocError),
            Refusal::Settled => self.refuse(12),
            Refusal::Held(step) => self.refuse_for_step(13, &step),
        }
    }

    fn refuse_for_step(&mut self, code: u32, step: &StepName) -> Result<(), AllocError>
        ensures ok { AppendsReply result self.old self.new (refused_for_step code step.now) }
    {
        self.word("no ")?;
        self.number(u64::from(code))?;
        self.word(" ")?;
        self.step_line(step)
    }

    fn refuse_readiness(&mut self, readiness: Readiness) -> Result<(), AllocError>
        ensures ok { AppendsReply result self.old self.new (codes "no 6 " ++ with_feed (readiness_text readiness)) }
    {
        self.word("no 6 ")?;
        self.word(readiness_word(readiness))?;
        self.word("\n")
    }

    fn refuse_machine(&mut self, alloc: Global, fault: MachineFault) -> Result<(), AllocError>
        ensures ok { AppendsReply result self.old self.new (machine_reply fault) }
    {
        match fault {
            MachineFault::Missing(field) => self.refuse_field(alloc, 1, field),
            MachineFault::UnknownField(field) => self.refuse_field(alloc, 2, field),
            MachineFault::Unsupported(field) => self.refuse_field(alloc, 3, field),
            MachineFault::BadField(field) => self.refuse_field(alloc, 4, field),
            MachineFault::NoTarget(name) => self.refuse_field(alloc, 5, name),
            MachineFault::NextAndEnd(state) => self.refuse_field(alloc, 6, state),
            MachineFault::StatesAllPlace => self.refuse_by(3, 7),
            MachineFault::TooDeep => self.refuse_by(3, 8),
            MachineFault::Memory => Err(AllocError),
        }
    }

    fn refuse_field(&mut self, alloc: Global, fault: u32, field: Text) -> Result<(), AllocError>
        ensures ok { AppendsReply result self.old self.new (refused_for_field fault field) }
    {
        self.word("no 3 ")?;
        self.number(u64::from(fault))?;
        self.word(" ")?;
        self.json_line(alloc, &Json::Text(field))
    }

    /// The state as a JSON text, and the number of moves.
    fn place(&mut self, alloc: Global, frame: &Frame) -> Result<(), AllocError>
        ensures ok { AppendsReply result self.old self.new (place_text frame.now) }
    {
        self.quoted(alloc, &frame.state)?;
        self.word(" ")?;
        self.number(u64::from(frame.count))
    }

    fn fault(&mut self, alloc: Global, fault: &Fault) -> Result<(), AllocError>
        ensures ok { AppendsReply result self.old self.new (fault_text fault.now) }
    {
        self.quoted(alloc, &fault.error)?;
        self.word(" ")?;
        self.quoted(alloc, &fault.cause)
    }

    fn quoted(&mut self, alloc: Global, text: &Text) -> Result<(), AllocError>
        ensures ok { AppendsReply result self.old self.new (quoted text.now) }
    {
        let text = Json::Text(text.copy()?);
        self.json(alloc, &text)
    }

    fn item_line(&mut self, alloc: Global, item: &Item) -> Result<(), AllocError>
        ensures ok { AppendsReply result self.old self.new (with_feed (text_of (item_json item.now))) }
    {
        let json = write_item(item)?;
        self.json_line(alloc, &json)
    }

    fn json_line(&mut self, alloc: Global, json: &Json) -> Result<(), AllocError>
        ensures ok { AppendsReply result self.old self.new (with_feed (text_of (data_of json.now))) }
    {
        self.json(alloc, json)?;
        self.word("\n")
    }

    fn json(&mut self, alloc: Global, json: &Json) -> Result<(), AllocError>
        ensures ok { AppendsReply result self.old self.new (text_of (data_of json.now)) }
    {
        let text = write_text(alloc, json)?;
        self.word(text.as_str())
    }

    fn step_line(&mut self, step: &StepName) -> Result<(), AllocError>
        ensures ok { AppendsReply result self.old self.new (with_feed (step_text step.now)) }
    {
        step.write_to(&mut self.text)?;
        self.word("\n")
    }

    /// `ok` and how many lines follow.
    fn count(&mut self, lines: u64) -> Result<(), AllocError>
        ensures ok { AppendsReply result self.old self.new (codes "ok " ++ with_feed (decimal lines)) }
    {
        self.word("ok ")?;
        self.number(lines)?;
        self.word("\n")
    }

    fn number(&mut self, number: u64) -> Result<(), AllocError>
        ensures ok { AppendsReply result self.old self.new (decimal number) }
    {
        write!(self.text, "{number}")
    }

    fn word(&mut self, word: &str) -> Result<(), AllocError>
        ensures ok { AppendsReply result self.old self.new word.now }
    {
        self.text.push_str(word)
    }
}

fn kind_word(kind: Kind) -> &'static str
    ensures { result.now ≡ kind_text kind }
{
    match kind {
        Kind::Start => " start",
        Kind::Plain => " plain",
        Kind::Call => " call",
        Kind::Fork => " fork",
        Kind::Join => " join",
        Kind::Terminate => " terminate",
    }
}

fn readiness_word(readiness: Readiness) -> &'static str
    ensures { result.now ≡ readiness_text readiness }
{
    match readiness {
        Readiness::Done => "done",
        Readiness::Failed => "failed",
        _ => "waiting",
    }
}
