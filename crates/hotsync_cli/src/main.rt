//! The program `hotsync`: the call of the same name over real folders, files and standard output, those over a port, and the import in the categories of another file.
#![tactic(auto)]

use hotsync_looks::{asks_liking, import_on_system};
use hotsync_run::{arguments, run_on_system};
use port_files::{asks_ported, backup_on_system};
use port_run::{asks_docking, asks_sync, serve_on_system, sync_on_system};
use std::fs::{File, OpenFile, OpenOptions};
use std::io::IsTerminal;
use std::process::ExitCode;
use std::rt::Files;

// A file that is always empty, and forgets what it is told.
const NOTHING: &str = "/dev/null";

// Opens nothing once. Where the caller closed standard input, output or error, it takes that one's place.
fn nothing<R: Files<File = File>>(rt: &R) -> Option<File> {
    let mut how = OpenOptions::new();
    how.read(true);
    how.write(true);
    how.open(rt, NOTHING).ok()
}

fn main(rt: HostRuntime) -> ExitCode {
    // All three, before any other file is opened: else that one would get the lines of the program.
    let _standard = [nothing(&rt), nothing(&rt), nothing(&rt)];
    match arguments(&rt) {
        Ok(args) if asks_sync(&args) => sync_on_system(&rt, &args),
        Ok(args) if asks_docking(&args) => serve_on_system(&rt, &args),
        Ok(args) if asks_ported(&args) => backup_on_system(&rt, &args),
        Ok(args) if asks_liking(&args) => import_on_system(&rt, &args),
        _ => run_on_system(&rt, rt.stderr().is_terminal()),
    }
}
