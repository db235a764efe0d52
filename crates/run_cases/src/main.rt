//! Calls of `hotsync` over folders, a source and standard output in memory, as the lines of standard input ask for them.
//!
//! - `case TEXT` begins anew, and is printed.
//! - `zeros N`, `feeds N`, `hex H` and `lines A, B` give bytes: zeros, line feeds, those of the hexadecimal, or a line for each
//!   text. `set PLACE H` changes some of them.
//! - `now N` makes N seconds since 1904 the date now, which can't be told before.
//! - `palm NAME` and `desk NAME` make the bytes a file of a folder, `source` what is left in the source. `many palm N` gives the
//!   folder N files `N1000.pdb`, `N1001.pdb` and so on without a byte.
//! - `fail palm N` makes the folder's Nth call fail, up to the end of the next call, and `desk` likewise. `fail source N` does it
//!   for each call, and `trace` and `out` likewise.
//! - `call WORDS` calls with these words, one space between two of them, and prints the exit status, what was printed and what
//!   the session did: the number of its requests, writes and frames, the bytes and the packets that the reader of each end took,
//!   the ids that new records got, and the frames that were harmed where the line is down.
//! - `print WORDS` calls likewise, and prints the exit status and what was printed alone.
//! - `names` and `files` print what the folders then hold, `trace` the trace, or its lines of the numbers behind it, and `taken`
//!   its bytes in hexadecimal.
//! - `words WORDS` prints what these words are read as: `usage` where they are out of the form, `help` and the
//!   command or `version` where they ask for these, and else each word, the date in
//!   seconds and an option that isn't given as `-`; behind `actions` the names with their actions, those of `--only` too, and
//!   what is done with `MemoDB`.
//! - `system WORDS` calls over the folders, files and standard output of the system, and prints the words behind `$ hotsync`, and
//!   then what that call prints. These are the calls of the folder `examples`, and some over files that other software wrote.
//! - `moments` prints how often each folder changed, and `at palm N` takes it as it was after N changes.
#![tactic(auto)]

mod bench;
mod shown;
mod words;

use bench::{Bench, args_of};
use hotsync_run::run_program;
use hs_folders::{DirFolder, FileSink, FileSource, StdoutSink};
use std::io;

fn main(rt: HostRuntime) -> io::Result<()> {
    let mut bench = Bench::new(rt.alloc());
    answer(&rt, &mut bench)
}

// Prints what each line gets.
fn answer(rt: &HostRuntime, bench: &mut Bench) -> io::Result<()> {
    for line in rt.lines(rt.alloc()) {
        let line = line?;
        match line.strip_prefix("system ") {
            Some(words) => call_on_system(rt, words)?,
            None => print_said(rt, bench, line.as_str())?,
        }
    }
    Ok(())
}

fn print_said(rt: &HostRuntime, bench: &mut Bench, line: &str) -> io::Result<()> {
    let said = bench.obey(line)?;
    print!(rt; "{said}")
}

// Calls over the folders beside the program, and the files and the standard output of the system, which gets refusals too.
fn call_on_system(rt: &HostRuntime, words: &str) -> io::Result<()> {
    let alloc = rt.alloc();
    println!(rt; "$ hotsync {words}")?;
    let args = args_of(alloc, words)?;
    run_program(
        alloc,
        None,
        &args,
        DirFolder::new(rt, alloc),
        DirFolder::new(rt, alloc),
        &mut FileSource::new(rt),
        &mut FileSink::new(rt, alloc),
        &mut StdoutSink::new(rt),
        &mut StdoutSink::new(rt),
    );
    Ok(())
}
