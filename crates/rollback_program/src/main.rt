#![tactic(auto)]

//! `rollback`: serves the lines of standard input on standard output, with a journal in memory or of a file.

use journal_copy::open_at;
use rollback_run::lines::calls::BookCalls;
use rollback_run::{
    ExitFault, Mode, ModeRefusal, finish, has_to_close, mode_of, refuse, run, unread_words,
};
use sqlite::{Alter, Connection, Error, ErrorCode, File, FileStore, MemStore};
use std::alloc::{AllocError, Global};
use std::env;
use std::io::{BufWriter, Stdin, Write};
use std::process::ExitCode;
use std::sync::Wait;
use std::thread::Threads;
use threaded_book::Book;

fn asked(rt: &HostRuntime) -> Result<Mode, ModeRefusal> {
    let alloc = rt.alloc();
    let arguments = match env::args(rt) {
        Ok(arguments) => arguments,
        Err(error) => return Err(unread_words(&error)),
    };
    match arguments.collect::<Vec<String>>(alloc) {
        Ok(words) => mode_of(alloc, words.as_slice()),
        Err(_) => Err(ModeRefusal::Memory),
    }
}

fn in_memory(alloc: Global) -> Result<Connection<MemStore>, Error> {
    match Connection::open_in_memory(alloc) {
        Ok(connection) => Ok(connection),
        Err(AllocError) => Err(Error::SqliteFailure(ErrorCode::OutOfMemory)),
    }
}

fn run_on<T: Threads + Wait + Sync, B: BookCalls + Send, S: Alter + Drop, W: Write>(
    rt: &HostRuntime,
    threads: &T,
    mode: &Mode,
    connection: Result<Connection<S>, Error>,
    writer: &mut W,
) -> (Result<(), ExitFault>, Option<Connection<S>>) {
    run::<T, B, S, Stdin, W>(
        threads,
        rt.alloc(),
        mode,
        connection,
        &mut rt.stdin(),
        writer,
    )
}

fn run_in_memory<T: Threads + Wait + Sync, B: BookCalls + Send, W: Write>(
    rt: &HostRuntime,
    threads: &T,
    mode: &Mode,
    writer: &mut W,
) -> u8 {
    let connection = in_memory(rt.alloc());
    let (outcome, left) = run_on::<T, B, _, W>(rt, threads, mode, connection, writer);
    drop(left);
    finish(outcome, Ok(()), &mut rt.stderr())
}

/// Closes a connection if the run has to.
fn close_after(
    mode: &Mode,
    outcome: Result<(), ExitFault>,
    connection: Connection<FileStore<File>>,
) -> Result<(), Error> {
    if has_to_close(mode, outcome) {
        connection.close()
    } else {
        drop(connection);
        Ok(())
    }
}

/// If the run ended well on a journal, its file is closed: it has all lines then.
fn run_on_file<T: Threads + Wait + Sync, B: BookCalls + Send, W: Write>(
    rt: &HostRuntime,
    threads: &T,
    mode: &Mode,
    connection: Result<Connection<FileStore<File>>, Error>,
    writer: &mut W,
) -> u8 {
    let (outcome, left) = run_on::<T, B, _, W>(rt, threads, mode, connection, writer);
    let closed = match left {
        Some(connection) => close_after(mode, outcome, connection),
        None => Ok(()),
    };
    finish(outcome, closed, &mut rt.stderr())
}

/// Checks a copy in memory of a file's journal: the file and its log aren't written, and a session may have them open.
fn run_on_copy<T: Threads + Wait + Sync, B: BookCalls + Send, W: Write>(
    rt: &HostRuntime,
    threads: &T,
    mode: &Mode,
    file: &str,
    writer: &mut W,
) -> u8 {
    let connection = open_at(rt, file);
    let (outcome, left) = run_on::<T, B, _, W>(rt, threads, mode, connection, writer);
    drop(left);
    finish(outcome, Ok(()), &mut rt.stderr())
}

/// Makes the connection that the mode asks for, and runs over it.
fn run_in<T: Threads + Wait + Sync, B: BookCalls + Send, W: Write>(
    rt: &HostRuntime,
    threads: &T,
    mode: &Mode,
    writer: &mut W,
) -> u8 {
    match mode {
        Mode::InMemory => run_in_memory::<T, B, W>(rt, threads, mode, writer),
        Mode::Journal(file) => {
            let connection = Connection::open(rt, file.as_str());
            run_on_file::<T, B, W>(rt, threads, mode, connection, writer)
        }
        Mode::Check(file) => run_on_copy::<T, B, W>(rt, threads, mode, file.as_str(), writer),
    }
}

fn run_asked<T: Threads + Wait + Sync, B: BookCalls + Send, W: Write>(
    rt: &HostRuntime,
    threads: &T,
    asked: Result<Mode, ModeRefusal>,
    writer: &mut W,
) -> u8 {
    match asked {
        Ok(mode) => run_in::<T, B, W>(rt, threads, &mode, writer),
        Err(refusal) => refuse(refusal, writer, &mut rt.stderr()),
    }
}

fn main(rt: HostRuntime) -> ExitCode {
    let status = match BufWriter::new(rt.alloc(), rt.stdout()) {
        Ok(mut writer) => run_asked::<HostRuntime, Book, _>(&rt, &rt, asked(&rt), &mut writer),
        Err(_) => refuse(ModeRefusal::Memory, &mut rt.stdout(), &mut rt.stderr()),
    };
    ExitCode::from(status)
}
