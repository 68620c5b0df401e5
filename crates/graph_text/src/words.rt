// The words for steps, keys, frames and reasons.
use crate::page::Page;
use attr_values::{Item, Key, KeyPart, write_item};
use book_events::turns::{Frame, Phase};
use book_events::{Access, Fact, Kind};
use item_store::AccessMode;
use std::alloc::{AllocError, Global};
use step_graph::{Reason, kind_word};

impl Page {
    /// A key: each of its attributes as an attribute value.
    pub(crate) fn key(&mut self, alloc: Global, key: &Key) -> Result<(), AllocError> {
        self.key_part(alloc, &key.partition)?;
        match &key.sort {
            Some(part) => {
                self.word(" ")?;
                self.key_part(alloc, part)
            }
            None => Ok(()),
        }
    }

    fn key_part(&mut self, alloc: Global, part: &KeyPart) -> Result<(), AllocError> {
        match part {
            KeyPart::S(text) => {
                self.word("{\"S\":")?;
                self.quoted(alloc, text.as_str())?;
            }
            KeyPart::N(number) => {
                let text = number.write_text(alloc)?;
                self.word("{\"N\":")?;
                self.quoted(alloc, text.as_str())?;
            }
        }
        self.word("}")
    }

    /// An item: each of its attributes as an attribute value.
    pub(crate) fn item(&mut self, alloc: Global, item: &Item) -> Result<(), AllocError> {
        let json = write_item(item)?;
        self.json(alloc, &json)
    }

    /// An item, or that there is none.
    pub(crate) fn item_or_none(
        &mut self,
        alloc: Global,
        item: Option<&Item>,
    ) -> Result<(), AllocError> {
        match item {
            Some(item) => self.item(alloc, item),
            None => self.word("none"),
        }
    }

    /// What a step is: its kind, and of a call the key that it touched.
    pub(crate) fn kind(&mut self, alloc: Global, fact: &Fact) -> Result<(), AllocError> {
        self.word(kind_word(fact.kind))?;
        match &fact.access {
            Some(access) => {
                self.word(touch_word(access.mode))?;
                self.key(alloc, &access.key)
            }
            None => Ok(()),
        }
    }

    /// A frame, as `show` tells it.
    pub(crate) fn frame(&mut self, alloc: Global, frame: &Frame) -> Result<(), AllocError> {
        match &frame.phase {
            Phase::Ready => {
                self.word("ready ")?;
                self.stand(alloc, frame)
            }
            Phase::Parked(branches, _) => {
                self.word("parked ")?;
                self.stand(alloc, frame)?;
                self.word(" ")?;
                self.number(u64::from(*branches))
            }
            Phase::Done(output) => {
                self.word("done ")?;
                self.json(alloc, output)
            }
            Phase::Failed(fault) => {
                self.word("failed ")?;
                self.quoted(alloc, fault.error.as_str())?;
                self.word(" ")?;
                self.quoted(alloc, fault.cause.as_str())
            }
        }
    }

    /// The state of a thread: where it stands, or how it ended, without its output.
    pub(crate) fn state(&mut self, alloc: Global, frame: &Frame) -> Result<(), AllocError> {
        match &frame.phase {
            Phase::Done(_) => self.word("done"),
            _ => self.frame(alloc, frame),
        }
    }

    /// The state at which a thread stands, and how many moves it made.
    fn stand(&mut self, alloc: Global, frame: &Frame) -> Result<(), AllocError> {
        self.quoted(alloc, frame.state.as_str())?;
        self.word(" ")?;
        self.number(u64::from(frame.count))
    }

    /// Why the later of two steps depends directly on the earlier one, as a sentence without its point.
    pub(crate) fn because(
        &mut self,
        alloc: Global,
        earlier: &Fact,
        later: &Fact,
        reason: Reason,
    ) -> Result<(), AllocError> {
        self.step(alloc, &later.name)?;
        match reason {
            Reason::Thread => self.word(" follows ")?,
            Reason::Start => self.word(" is in the execution started by ")?,
            Reason::Fork => self.word(" is in a branch forked by ")?,
            Reason::Join => self.word(closing_words(later.kind))?,
            Reason::Item => self.shared(alloc, earlier, later)?,
            Reason::Bound => self.word(" waited for the branch of ")?,
        }
        self.step(alloc, &earlier.name)
    }

    /// That two calls touched one item.
    fn shared(&mut self, alloc: Global, earlier: &Fact, later: &Fact) -> Result<(), AllocError> {
        let Some(own) = &later.access else {
            return Ok(());
        };
        self.word(touches_words(own))?;
        self.key(alloc, &own.key)?;
        match &earlier.access {
            Some(access) => self.word(touched_words(access)),
            None => Ok(()),
        }
    }
}

fn touch_word(mode: AccessMode) -> &'static str {
    match mode {
        AccessMode::Read => " reads ",
        AccessMode::Write => " writes ",
    }
}

fn touches_words(access: &Access) -> &'static str {
    match access.mode {
        AccessMode::Read => " reads item ",
        AccessMode::Write => " writes item ",
    }
}

fn touched_words(access: &Access) -> &'static str {
    match access.mode {
        AccessMode::Read => " read by ",
        AccessMode::Write => " written by ",
    }
}

fn closing_words(kind: Kind) -> &'static str {
    match kind {
        Kind::Terminate => " terminates the branch of ",
        _ => " joins the branch of ",
    }
}
