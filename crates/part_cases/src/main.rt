//! What only a call of a library reaches, as the lines of standard input ask for it.
//!
//! Bytes are hexadecimal. A line that says something prints one line. `case TEXT` is printed as it
//! is, and begins with an empty folder.
//!
//! - The handheld's folder: `file NAME H` puts a file into it, `fail N` makes its Nth call fail,
//!   `records NAME` prints the records of one.
//! - Both ends of a line: `feed H`, `next`, `gap` and `tally` of one reader of packets, `reader` a new one; `fragment H`,
//!   the fragment in these bytes, and `hello H`, the greeting; `send ID LENGTH`, `current`, `ack ID FLAGS SIZE`, `timer` and
//!   `answered ID` of one sender; `expect ID`, `data ID H` and `whole` of one receiver, `receiver` a new one.
//! - Messages: `dlp args COUNT START H`, the arguments in these bytes, `dlp request H` and `dlp reply FUNCTION H`: or why
//!   they are none.
//! - Of the system: `disk folder CALL`, `disk other CALL` (one folder more), `disk source CALL`, `disk sink CALL`, `disk
//!   stdout CALL`, and `disk new` (each of them). A folder's calls are `open PATH`, `list`, `some`, `read NAME`, `replace
//!   NAME H`, `remove NAME`, a source's `open PATH` and `read ROOM`, a sink's `open PATH` and `write H`; in a name `~` stands
//!   for a space and `^` for a zero byte, and `-` alone is the empty name. What others do there: `disk make PATH`, `disk
//!   write PATH H`, `disk chmod PATH N`, `disk link TARGET PATH`, `disk pipe PATH PATH`, `disk clear PATH`; and `disk stands
//!   PATH`, `disk mode PATH`.
//! - A session: `session USERS ADD CALL..` says it to a server over the folder, `fake REPLIES USERS
//!   ADD CALL..` over a link that answers these replies, and prints the functions that were asked
//!   for. The last reply comes again and again; where REPLIES ends with `-` the link goes down, and
//!   where it ends with `!` it has no memory. USERS are the desktop's users, ADD is `add` or
//!   `known`.
//! - The first call: `finish`, `list`, `mark:BITS:USER:NAME`, `delete:H`, or a database that is
//!   opened by `open:H`, `read:H` or `create:H:ATTRIBUTES`.
//! - What is asked of the database then: `count`, `ids:N`, `at:N`, `id:N`, `next`, `code:N`, `app`,
//!   `sort`, `put:ID:CATEGORY:H`, `remove:ID`, `clean`, `reset`, `set-app:H`, `set-sort:H`,
//!   `set-code:ID:H`. It is closed, or with `abandon` as the last call abandoned.
//! - What a mirror does with it: `slow` reads the whole database, `fast:BASE` what changed since
//!   these base rows, entries ID.CATEGORY.H with a comma between them and `-` before a gone one;
//!   `news:PLAN` sends a plan's replacements and adds, `purge:PLAN` purges. PLAN is
//!   REPLACE:ADDS:PURGE, lists with a comma between entries: of REPLACE ID.CATEGORY.H, of ADDS
//!   CATEGORY.H, of PURGE an id. A category above 15 is a secret record's, less 16.
#![tactic(auto)]

mod answer;
mod asked;
mod cases;
mod disk;
mod ends;
mod fake;
mod faults;
mod plans;
mod said;
mod session;

use case_words::word;
use disk::Disk;
use ends::Ends;
use hs_folders::MemFolder;
use std::alloc::{AllocError, Global};
use std::io;

// What the lines so far have made.
#[derive(Drop)]
struct Made<'r> {
    folder: MemFolder,
    ends: Ends,
    disk: Disk<'r>,
}

fn main(rt: HostRuntime) -> io::Result<()> {
    let alloc = rt.alloc();
    let mut cases = Made {
        folder: MemFolder::new(alloc),
        ends: Ends::new(alloc)?,
        disk: Disk::new(&rt, alloc),
    };
    for line in rt.lines(alloc) {
        let said = obey(alloc, &mut cases, &line?)?;
        if !said.is_empty() {
            println!(rt; "{said}")?;
        }
    }
    Ok(())
}

// What a line asks for.
fn obey(alloc: Global, cases: &mut Made<'_>, line: &str) -> Result<String, AllocError> {
    let words: Vec<&str> = line.split(' ').collect(alloc)?;
    let rest = words.get(1..).unwrap_or(&[]);
    match word(&words, 0) {
        "disk" => cases.disk.obey(rest),
        "dlp" => faults::obey(alloc, rest),
        "case" | "file" | "fail" | "records" | "session" | "fake" => {
            cases::obey(alloc, &mut cases.folder, line, &words)
        }
        _ => ends::obey(alloc, &mut cases.ends, &words),
    }
}
