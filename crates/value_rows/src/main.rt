#![tactic(auto)]

//! Answers rows: each an operation of the libraries below and its inputs, so that what the operations answer is data and no code.
//!
//! A row ends with the byte 1E, and its word and its inputs are parted by the byte 1F, as tools/value_rows.py sends them; it also says
//! which operations there are. Each row has one line in answer: what came of it, the name of its fault, or `memory` where memory was
//! refused, and then the next row is answered. With an argument, whichever it is, a row that is answered `memory` is asked once more.
mod attrs;
mod changing;
mod fault;
mod items;
mod json;
mod keys;
mod lines;
mod names;
mod order;
mod parts;
mod paths;
mod templates;

use fault::RowFault;
use item_store::ItemStore;
use std::alloc::Global;
use std::io::Read;
use std::{env, io};

/// The byte at the end of a row.
const ROW_END: u8 = 0x1e;

/// What a row is answered. Only a text of JSON and a line of a command may hold other bytes than UTF-8.
fn answer(
    alloc: Global,
    out: &mut String,
    store: &mut Option<ItemStore>,
    row: &[u8],
) -> Result<(), RowFault> {
    if let Some(bytes) = row.strip_prefix(b"text\x1f") {
        return json::put_text(alloc, out, bytes);
    }
    if let Some(bytes) = row.strip_prefix(b"line\x1f") {
        return lines::put_line(alloc, out, bytes);
    }
    match str::from_utf8(row) {
        Ok(row) => {
            let (word, rest) = parts::cut(row);
            items::answer(alloc, out, store, word, rest)
        }
        Err(_) => Err(RowFault::Said("no row")),
    }
}

fn tell(
    rt: &impl Print,
    alloc: Global,
    store: &mut Option<ItemStore>,
    row: &[u8],
    again: bool,
) -> io::Result<()> {
    let mut out = String::new(alloc);
    let mut told = answer(alloc, &mut out, store, row);
    if again && told == Err(RowFault::Memory) {
        out.clear();
        told = answer(alloc, &mut out, store, row);
    }
    match told {
        Ok(()) => println!(rt; "{out}"),
        Err(RowFault::Memory) => println!(rt; "memory"),
        Err(RowFault::Said(word)) => println!(rt; "{word}"),
    }
}

fn tell_all(
    rt: &impl Print,
    alloc: Global,
    store: &mut Option<ItemStore>,
    rows: &[u8],
    again: bool,
) -> io::Result<()> {
    for row in rows.split(|byte| *byte == ROW_END) {
        if !row.is_empty() {
            tell(rt, alloc, store, row, again)?;
        }
    }
    Ok(())
}

fn main(rt: HostRuntime) -> io::Result<()> {
    let alloc = rt.alloc();
    let again = env::args(&rt)?.nth(1).is_some();
    let mut rows = Vec::new(alloc);
    let _count = rt.stdin().read_to_end(&mut rows)?;
    let mut store = None;
    tell_all(&rt, alloc, &mut store, rows.as_slice(), again)
}
