// Hints for whoever called, on standard error. Nothing is promised of them: what can't be said is left out.
use crate::path_hints::hint_paths;
use call_parts::{Answer, Report};
use category_tables::read_table;
use cmd_status::{Status, push_name};
use dlp_args::MessageText;
use dlp_replies::{Reply, read_reply};
use folder_files::{DESKTOP_INFO, JOURNAL, read_desktop_info, rows_file};
use hs_folders::Folder;
use pdb_files::read_database;
use pdb_values::{Database, DbName};
use run_clap::{Command, RunWords, read_command};
use run_words::{NamedAction, Target, read_actions, run_actions};
use session_parts::{Counts, DbReport, Did, Skip};
use std::alloc::{AllocError, Global};
use std::fs::File;
use std::rt::Files;

// The function whose reply tells when the handheld was synchronised last.
const READ_USER_INFO: u8 = 0x10;

// The number of the request for the handheld's databases.
const READ_DB_LIST: u8 = 0x16;

/// Says what may help with the words of a run that was done, and why what the words name could not be opened.
pub fn hint_words<R: Files<File = File> + Eprint + AllocGlobal>(
    rt: &R,
    now: Option<u32>,
    words: &[String],
    status: &Status,
    report: &Report,
) {
    let Ok(command) = read_command(rt.alloc(), now, words) else {
        return;
    };
    hint_paths(rt, &command, status);
    if let (Status::Done, Command::Run(run) | Command::DryRun(run)) = (status, &command) {
        hint_date(rt, run, report);
        hint_actions(rt, run, report);
        hint_only(rt, run, report);
    }
}

// Agreement of both sides hangs on the dates of their sessions.
fn hint_date<R: Eprint>(rt: &R, run: &RunWords<'_>, report: &Report) {
    let Some(reply) = report.replies.first() else {
        return;
    };
    if run.date.seconds() <= seconds_of_last(reply.bytes()) {
        let _ = eprintln!(rt;
            "hint: the date is not behind that of the last session; --slow reads every record"
        );
    }
}

// The seconds of the handheld's last session, as it told them, or 0.
fn seconds_of_last(reply: &[u8]) -> u32 {
    match &read_reply(READ_USER_INFO, reply) {
        Ok(Reply::ReadUserInfo { last, .. }) => last.seconds(),
        _ => 0,
    }
}

// Actions of databases that neither side has.
fn hint_actions<R: Eprint + AllocGlobal>(rt: &R, run: &RunWords<'_>, report: &Report) {
    let Some(text) = run.choice.actions else {
        return;
    };
    if let Ok(items) = read_actions(rt.alloc(), text) {
        hint_items(rt, "--actions", &items, &report.databases);
    }
}

// Stems of databases that neither side has.
fn hint_only<R: Eprint + AllocGlobal>(rt: &R, run: &RunWords<'_>, report: &Report) {
    if run.choice.only.is_none() {
        return;
    }
    if let Ok(items) = run_actions(rt.alloc(), run) {
        hint_items(rt, "--only", &items, &report.databases);
    }
}

// Items of an option whose name no database has.
fn hint_items<R: Eprint + AllocGlobal>(
    rt: &R,
    option: &str,
    items: &[NamedAction],
    databases: &[DbReport],
) {
    for item in items {
        hint_item(rt, option, item, databases);
    }
}

fn hint_item<R: Eprint + AllocGlobal>(
    rt: &R,
    option: &str,
    item: &NamedAction,
    databases: &[DbReport],
) {
    let Target::One(name) = &item.target else {
        return;
    };
    if is_told(name, databases) {
        return;
    }
    if let Ok(stem) = name.file_stem(rt.alloc()) {
        let _ = eprintln!(rt;
            "hint: no database is called {stem}, so its item of {option} did nothing"
        );
    }
}

fn is_told(name: &DbName, databases: &[DbReport]) -> bool {
    databases
        .iter()
        .any(|database| database.name.as_bytes() == name.as_bytes())
}

/// Says what may help with the folders of an answer.
pub fn hint_folders<R: Eprint + AllocGlobal, H: Folder + Drop, D: Folder + Drop>(
    rt: &R,
    answer: Answer<H, D>,
) {
    let Answer {
        status,
        report,
        mut device,
        mut desk,
    } = answer;
    match status {
        Status::Done => {
            for database in &report.databases {
                hint_database(rt, database);
                hint_table(rt, database, &mut device, &mut desk);
            }
            hint_names(rt, &mut device);
            if asks_lists(&report.issued) {
                hint_names(rt, &mut desk);
            }
        }
        Status::DesktopFolder => hint_journal(rt, &mut desk),
        Status::NewHandheld(name) => hint_new_handheld(rt, &name),
        _ => {}
    }
}

// The word that brings back a database that the handheld lost, or how many records are there twice now.
fn hint_database<R: Eprint + AllocGlobal>(rt: &R, database: &DbReport) {
    let Ok(stem) = database.name.file_stem(rt.alloc()) else {
        return;
    };
    match database.did {
        Did::Skipped(Skip::Missing) => {
            let _ = eprintln!(rt;
                "hint: --actions={stem}:desktop brings {stem} back to the handheld"
            );
        }
        Did::Synced(Counts { twice, .. }) if twice > 0 => {
            let _ = eprintln!(rt;
                "hint: {stem}: changed on both sides, and kept in both versions: {twice}"
            );
        }
        _ => {}
    }
}

// The command that brings categories' names to a desktop of one user whose file of a database has none.
fn hint_table<R: Eprint + AllocGlobal, H: Folder, D: Folder>(
    rt: &R,
    database: &DbReport,
    device: &mut H,
    desk: &mut D,
) {
    let Did::Synced(_) = database.did else {
        return;
    };
    let alloc = rt.alloc();
    let Ok(stem) = database.name.file_stem(alloc) else {
        return;
    };
    if lacks_block(alloc, desk, &database.name)
        && has_table(alloc, device, &database.name)
        && has_one_user(alloc, desk)
    {
        let _ = eprintln!(rt;
            "hint: the desktop's {stem} has no category names yet: hotsync categories HANDHELD DESKTOP"
        );
    }
}

fn lacks_block<F: Folder>(alloc: Global, folder: &mut F, name: &DbName) -> bool {
    match database_in(alloc, folder, name) {
        Some(database) => database.app().is_none(),
        None => false,
    }
}

fn has_table<F: Folder>(alloc: Global, folder: &mut F, name: &DbName) -> bool {
    let Some(database) = database_in(alloc, folder, name) else {
        return false;
    };
    match database.app() {
        Some(block) => read_table(block).is_some(),
        None => false,
    }
}

// The database of records of this name in a folder, where it can be read.
fn database_in<F: Folder>(alloc: Global, folder: &mut F, name: &DbName) -> Option<Database> {
    let file = rows_file(alloc, name).ok()?;
    let bytes = folder.read(alloc, &file).ok()?;
    read_database(alloc, &bytes).ok()
}

fn has_one_user<F: Folder>(alloc: Global, desk: &mut F) -> bool {
    let Ok(bytes) = desk.read(alloc, DESKTOP_INFO) else {
        return false;
    };
    match read_desktop_info(alloc, &bytes) {
        Ok(slots) => slots.len() == 1,
        Err(_) => false,
    }
}

// The three ways on where a handheld would cost the desktop records of a database.
fn hint_new_handheld<R: Eprint + AllocGlobal>(rt: &R, name: &DbName) {
    if let Ok(stem) = name.file_stem(rt.alloc()) {
        let _ = eprintln!(rt;
            "hint: --actions={stem}:both keeps what both sides have, {stem}:desktop brings back the desktop's, {stem}:handheld takes the handheld's"
        );
    }
}

// Whether a session asked for the handheld's databases. One that restores files of any ending doesn't.
fn asks_lists(requests: &[MessageText]) -> bool {
    requests
        .iter()
        .any(|request| request.bytes().first() == Some(&READ_DB_LIST))
}

// Files that would be databases were their endings in lower case.
fn hint_names<R: Eprint + AllocGlobal, F: Folder>(rt: &R, folder: &mut F) {
    let alloc = rt.alloc();
    let Ok(names) = folder.list(alloc) else {
        return;
    };
    for name in &names {
        if is_passed_over(name.as_str()) {
            hint_name(rt, alloc, name.as_str());
        }
    }
}

fn hint_name<R: Eprint>(rt: &R, alloc: Global, name: &str) {
    if let Ok(name) = printed(alloc, name) {
        let _ = eprintln!(rt; "hint: {name} was passed over: its ending has to be in lower case");
    }
}

// Whether a name ends as that of a database does, but not in lower case.
fn is_passed_over(name: &str) -> bool {
    match name.rsplit_once('.') {
        Some((_, ending)) => is_other_case(ending, "pdb") || is_other_case(ending, "prc"),
        None => false,
    }
}

fn is_other_case(ending: &str, lower: &str) -> bool {
    ending != lower && ending.eq_ignore_ascii_case(lower)
}

fn printed(alloc: Global, name: &str) -> Result<String, AllocError> {
    let mut text = String::new(alloc);
    push_name(&mut text, name)?;
    Ok(text)
}

// The journal that can't be carried out, where there is one.
fn hint_journal<R: Eprint + AllocGlobal, F: Folder>(rt: &R, folder: &mut F) {
    let Ok(names) = folder.list(rt.alloc()) else {
        return;
    };
    if names.iter().any(|name| name.as_str() == JOURNAL) {
        let _ = eprintln!(rt; "hint: {JOURNAL} in the desktop's folder can't be carried out");
    }
}
