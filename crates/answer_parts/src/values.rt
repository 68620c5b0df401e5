// Values of answers, and what makes them.
use json_tree::{Json, JsonFields, JsonList, Text};
use std::alloc::{AllocError, Global};
use std::collections::BTreeMap;
use step_names::{StepName, ThreadName};

/// An object that is being made. Its fields are written in the order of their bytes. Each call that adds a field takes memory for its name and
/// its value. A refusal is kept inside, also that of a value that is given, and `done` answers it: so who makes an object has one way out.
#[derive(Drop)]
pub struct Object {
    alloc: Global,
    fields: JsonFields,
    is_refused: bool,
}

impl Object {
    /// No fields. Takes no memory.
    pub fn new(alloc: Global) -> Object {
        Object {
            alloc,
            fields: JsonFields::new(alloc),
            is_refused: false,
        }
    }

    /// Adds a field. One of the same name goes.
    pub fn put(&mut self, name: &str, value: Result<Json, AllocError>) {
        match value {
            Ok(value) => {
                if !is_inserted(self.alloc, &mut self.fields, name, value) {
                    self.is_refused = true;
                }
            }
            Err(AllocError) => self.is_refused = true,
        }
    }

    /// Adds `null`.
    pub fn put_null(&mut self, name: &str) {
        self.put(name, Ok(Json::Null));
    }

    /// Adds whether something is so.
    pub fn put_whether(&mut self, name: &str, is_so: Result<bool, AllocError>) {
        match is_so {
            Ok(is_so) => self.put(name, Ok(Json::Bool(is_so))),
            Err(AllocError) => self.is_refused = true,
        }
    }

    /// Adds a text, of which it takes a copy.
    pub fn put_text(&mut self, name: &str, text: &str) {
        self.put(name, text_value(self.alloc, text));
    }

    /// Adds a word, or `null`.
    pub fn put_word(&mut self, name: &str, word: Option<&str>) {
        match word {
            Some(word) => self.put_text(name, word),
            None => self.put_null(name),
        }
    }

    /// Adds a number, as [`whole`] makes it.
    pub fn put_number(&mut self, name: &str, number: usize) {
        self.put(name, Ok(whole(number)));
    }

    /// Adds a list.
    pub fn put_list(&mut self, name: &str, values: Rows) {
        self.put(name, values.done());
    }

    /// Adds a step's name.
    pub fn put_step(&mut self, name: &str, step: &StepName) {
        self.put(name, step_value(self.alloc, step));
    }

    /// Adds the name of a thread's step of this number.
    pub fn put_step_of(&mut self, name: &str, thread: &ThreadName, no: u32) {
        match thread.copy() {
            Ok(thread) => {
                let step = StepName { thread, no };
                self.put_step(name, &step);
                drop(step);
            }
            Err(AllocError) => self.is_refused = true,
        }
    }

    /// Adds a thread's name.
    pub fn put_thread(&mut self, name: &str, thread: &ThreadName) {
        self.put(name, thread_value(self.alloc, thread));
    }

    /// Keeps that memory was refused.
    pub fn refuse(&mut self) {
        self.is_refused = true;
    }

    /// The object as a value, or that memory was refused. Takes none.
    pub fn done(self) -> Result<Json, AllocError> {
        let Object {
            alloc: _,
            fields,
            is_refused,
        } = self;
        if is_refused {
            drop(fields);
            return Err(AllocError);
        }
        Ok(Json::Fields(fields))
    }
}

/// Adds a field, if memory isn't refused. Whether it was added.
fn is_inserted(alloc: Global, fields: &mut JsonFields, name: &str, value: Json) -> bool {
    let Ok(name) = Text::new(alloc, name) else {
        drop(value);
        return false;
    };
    match fields.insert(name, value) {
        Ok(before) => {
            drop(before);
            true
        }
        Err(refused) => {
            drop(refused);
            false
        }
    }
}

/// A list that is being made. Each value that is added takes memory. A refusal is kept inside, as in an [`Object`].
#[derive(Drop)]
pub struct Rows {
    alloc: Global,
    values: Vec<Json>,
    /// How many were given, also those that were refused: so a page ends where it would.
    given: usize,
    is_refused: bool,
}

impl Rows {
    /// No values. Takes no memory.
    pub fn new(alloc: Global) -> Rows {
        Rows {
            alloc,
            values: Vec::new(alloc),
            given: 0,
            is_refused: false,
        }
    }

    /// How many values were given.
    pub fn len(&self) -> usize {
        self.given
    }

    /// Adds a value.
    pub fn push(&mut self, value: Result<Json, AllocError>) {
        self.given = self.given.saturating_add(1);
        match value {
            Ok(value) => {
                if self.values.push(value).is_err() {
                    self.is_refused = true;
                }
            }
            Err(AllocError) => self.is_refused = true,
        }
    }

    /// Adds a text, of which it takes a copy.
    pub fn push_text(&mut self, text: &str) {
        self.push(text_value(self.alloc, text));
    }

    /// Adds a step's name.
    pub fn push_step(&mut self, step: &StepName) {
        self.push(step_value(self.alloc, step));
    }

    /// Adds a thread's name.
    pub fn push_thread(&mut self, thread: &ThreadName) {
        self.push(thread_value(self.alloc, thread));
    }

    /// Keeps that memory was refused.
    pub fn refuse(&mut self) {
        self.is_refused = true;
    }

    /// The list, or that memory was refused.
    pub fn list(self) -> Result<JsonList, AllocError> {
        let Rows {
            alloc: _,
            values,
            given: _,
            is_refused,
        } = self;
        if is_refused {
            drop(values);
            return Err(AllocError);
        }
        match JsonList::from_vec(values) {
            Ok(list) => Ok(list),
            Err(refused) => {
                drop(refused);
                Err(AllocError)
            }
        }
    }

    /// The list as a value, or that memory was refused.
    pub fn done(self) -> Result<Json, AllocError> {
        Ok(Json::List(self.list()?))
    }
}

/// Names of threads, each once. Each takes memory for its copy. A refusal is kept inside, as in an [`Object`].
#[derive(Drop)]
pub struct ThreadNames {
    alloc: Global,
    names: BTreeMap<ThreadName, ()>,
    is_refused: bool,
}

impl ThreadNames {
    /// None. Takes no memory.
    pub fn new(alloc: Global) -> ThreadNames {
        ThreadNames {
            alloc,
            names: BTreeMap::new(alloc),
            is_refused: false,
        }
    }

    /// Adds a name.
    pub fn add(&mut self, name: &ThreadName) {
        self.take(name.copy());
    }

    /// Adds a name that is given.
    pub fn take(&mut self, name: Result<ThreadName, AllocError>) {
        match name {
            Ok(name) => {
                if self.names.insert(name, ()).is_err() {
                    self.is_refused = true;
                }
            }
            Err(AllocError) => self.is_refused = true,
        }
    }

    /// The names in their order, each with nothing.
    pub(crate) fn names(&self) -> &BTreeMap<ThreadName, ()> {
        &self.names
    }

    /// Whether memory was refused.
    pub(crate) fn is_refused(&self) -> bool {
        self.is_refused
    }

    /// The names in their order as a list, or that memory was refused.
    pub fn done(self) -> Result<Json, AllocError> {
        let mut values = Rows::new(self.alloc);
        for (name, ()) in self.names.iter() {
            values.push_thread(name);
        }
        if self.is_refused {
            values.refuse();
        }
        values.done()
    }
}

/// A number, and 2^63 - 1 in place of a greater one.
pub fn whole(number: usize) -> Json {
    match i64::try_from(number) {
        Ok(number) => Json::Whole(number),
        Err(_) => Json::Whole(i64::MAX),
    }
}

/// A text as a value: a copy of it.
fn text_value(alloc: Global, text: &str) -> Result<Json, AllocError> {
    Ok(Json::Text(Text::new(alloc, text)?))
}

/// A text that was written, as a value.
pub(crate) fn written_value(written: Result<String, AllocError>) -> Result<Json, AllocError> {
    Ok(Json::Text(Text::from_string(written?)?))
}

/// A step's name as a value.
pub fn step_value(alloc: Global, step: &StepName) -> Result<Json, AllocError> {
    written_value(step.write_text(alloc))
}

/// A thread's name as a value.
fn thread_value(alloc: Global, thread: &ThreadName) -> Result<Json, AllocError> {
    written_value(thread.write_text(alloc))
}
