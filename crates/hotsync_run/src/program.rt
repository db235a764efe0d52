// What the program does with the words that it was called with.
ghost use Rattle.std.specs.Prelude.{◌≡◌, ◌↔◌, IfOk, IsErr, IsErrOf, None, drop, false, map, string_bytes, true};
ghost use Rattle.std.specs.Process.{exit_status};
ghost use Rattle.hotsync_looks.specs.Misuses.{IsMisuse, TellsFault};
ghost use Rattle.hotsync_run.specs.Calls.{HasSession, IsCall, OfProgram, ReadsFirst, fault_in, gives_result, paths_of, task_in};
ghost use Rattle.run_words.specs.Helps.{command_named};
ghost use Rattle.cmd_status.specs.Codes.{code_of};
ghost use Rattle.call_parts.specs.Refusals.{BlamesHandheld, BlamesSource};
ghost use Rattle.call_parts.specs.Reports.{IsNotStarted};
ghost use Rattle.hotsync_run.specs.Systems.{AreUntold, EndsProgram, IsSystemCall};
ghost use Rattle.cmd_status.specs.Told.{sink_told};
ghost use Rattle.call_parts.specs.Told.{call_told};

use crate::command::hotsync;
use crate::counted_folder::CountedFolder;
use crate::first_day::{hint_swapped, looks_swapped};
use crate::hints::{hint_folders, hint_words};
use call_parts::{Answer, SessionEnd, seconds_now};
use cmd_files::MadeFolder;
use cmd_status::{Status, StderrSink, print_refusal};
use hs_folders::{DirFolder, FileSink, FileSource, Folder, Sink, Source, StdoutSink};
use run_clap::WordsFault;
use run_words::{CommandWord, command_named};
use std::alloc::Global;
use std::fs::File;
use std::io::ErrorKind;
use std::process::ExitCode;
use std::rt::{Env, Files};
use std::time::Clock;
use std::{env, io};

/// The exit status of the program, and what the call handed back.
#[derive(Drop)]
pub struct Ended<H, D> {
    pub code: u8,
    pub answer: Answer<H, D>,
}

/// Calls [`hotsync`] with the words behind the program's name, and gives the exit status of what it answers.
///
/// `args` begin with the program's name. Without any there are no words. `now` are the seconds of the date now, if it can be told.
pub fn run_program<H: Folder, D: Folder, S: Source, T: Sink, O: Sink, E: Sink>(
    alloc: Global,
    now: Option<u32>,
    args: &[String],
    device: H,
    desk: D,
    source: &mut S,
    trace: &mut T,
    out: &mut O,
    err: &mut E,
) -> Ended<H, D>
    ensures code { result.code ≡ code_of result.answer.status }
    ensures run { OfProgram (IsCall (task_in now (drop 1 args.now)))
        H.Folder D.Folder S.Source T.Sink O.Sink E.Sink
        device desk source.old trace.old out.old err.old
        result.answer source.new trace.new out.new err.new }

    // Where the words ask for nothing, the status names the word at fault.
    ensures fault { task_in now (drop 1 args.now) ≡ None
        → TellsFault (command_named (map string_bytes (drop 1 args.now)))
        (fault_in now (drop 1 args.now)) result.answer.status }

    // Such words of a command that prints its result leave standard output alone.
    ensures misuse { task_in now (drop 1 args.now) ≡ None
        → gives_result (command_named (map string_bytes (drop 1 args.now))) ≡ true
        → IsMisuse result.answer.status → out.new ≡ out.old }

    // A session leaves standard error alone, and so do such words of one, or of no command.
    ensures session { HasSession (task_in now (drop 1 args.now)) → err.new ≡ err.old }
    ensures lines { task_in now (drop 1 args.now) ≡ None
        → gives_result (command_named (map string_bytes (drop 1 args.now))) ≡ false
        → err.new ≡ err.old }

    // Nothing goes over a line but in a session.
    ensures report { ¬ HasSession (task_in now (drop 1 args.now))
        → IsNotStarted result.answer.report }

    // What is judged later is not touched, and neither is what the words give no path.
    ensures source_first { ReadsFirst (task_in now (drop 1 args.now))
        → BlamesSource result.answer.status
        → (result.answer.device ≡ device) × (result.answer.desk ≡ desk) }
    ensures handheld_first { result.answer.report.end ≡ SessionEnd.NotStarted
        → BlamesHandheld result.answer.status → result.answer.desk ≡ desk }
    ensures device { (paths_of (task_in now (drop 1 args.now))).handheld ≡ None
        → result.answer.device ≡ device }
    ensures desk { (paths_of (task_in now (drop 1 args.now))).desktop ≡ None
        → result.answer.desk ≡ desk }
    ensures source { (paths_of (task_in now (drop 1 args.now))).source ≡ None
        → source.new ≡ source.old }
    ensures trace { (paths_of (task_in now (drop 1 args.now))).trace ≡ None
        → trace.new ≡ trace.old }
{
    let answer = hotsync(
        alloc,
        now,
        words_of(args),
        device,
        desk,
        source,
        trace,
        out,
        err,
    );
    Ended {
        code: answer.status.code(),
        answer,
    }
}

// The words behind the program's name.
fn words_of(args: &[String]) -> &[String]
    ensures { result.now ≡ drop 1 args.now }
{
    args.get(1..).unwrap_or(&[])
}

/// Runs the program over the system's folders and files, its standard output and its standard error, with hints on that, and
/// where it is wanted with how many writes went to the handheld's folder, once they take a second.
pub fn run_on_system<R: Clock + Env + Files<File = File> + Print + Eprint + AllocGlobal>(
    rt: &R,
    is_count_wanted: bool,
) -> ExitCode
    ensures { EndsProgram (exit_status result) }
{
    let ended = run_handed(rt, is_count_wanted, seconds_now(rt), arguments(rt));
    let code = ended.code;
    hint_folders(rt, ended.answer);
    ExitCode::from(code)
}

// The call for the words that the system handed over. Where it did not, they ask for nothing that this program does.
fn run_handed<'r, R: Clock + Files<File = File> + Print + Eprint + AllocGlobal>(
    rt: &'r R,
    is_count_wanted: bool,
    now: Option<u32>,
    args: Result<Vec<String>, WordsFault>,
) -> Ended<CountedFolder<'r, R, DirFolder<'r, R>>, MadeFolder<'r, R, DirFolder<'r, R>>>
    ensures code { result.code ≡ code_of result.answer.status }
    ensures words { IfOk args (λ args. IsSystemCall (task_in now (drop 1 args.items))
        result.answer.status result.answer.report) }
    ensures none { IsErr args → IsSystemCall None result.answer.status result.answer.report }
    ensures no_memory { IsErrOf args WordsFault.NoMemory
        → result.answer.status ≡ Status.NoMemory }
{
    match args {
        Ok(args) => run_over_files(rt, is_count_wanted, now, &args),
        Err(WordsFault::Usage) => run_over_files(rt, is_count_wanted, now, &[]),
        Err(WordsFault::NoMemory) => unread_call(rt),
    }
}

// The program over the system's folders and files and its standard output.
fn run_over_files<'r, R: Clock + Files<File = File> + Print + Eprint + AllocGlobal>(
    rt: &'r R,
    is_count_wanted: bool,
    now: Option<u32>,
    args: &[String],
) -> Ended<CountedFolder<'r, R, DirFolder<'r, R>>, MadeFolder<'r, R, DirFolder<'r, R>>>
    ensures code { result.code ≡ code_of result.answer.status }
    ensures call { IsSystemCall (task_in now (drop 1 args.now))
        result.answer.status result.answer.report }
{
    let alloc = rt.alloc();
    let is_swapped = looks_swapped(rt, now, words_of(args));
    let ended = run_untold(
        alloc,
        now,
        args,
        CountedFolder::new(rt, DirFolder::new(rt, alloc), is_count_wanted),
        MadeFolder::new(rt, DirFolder::new(rt, alloc), is_backup(words_of(args))),
        &mut FileSource::new(rt),
        &mut FileSink::new(rt, alloc),
        &mut StdoutSink::new(rt),
        &mut StderrSink::new(rt),
    );
    hint_words(
        rt,
        now,
        words_of(args),
        &ended.answer.status,
        &ended.answer.report,
    );
    if is_swapped && matches!(ended.answer.status, Status::Done) {
        hint_swapped(rt);
    }
    ended
}

// Whether the words ask for a backup, whose folder is made where it isn't there.
fn is_backup(words: &[String]) -> bool {
    matches!(command_named(words), Some(CommandWord::Backup))
}

// The program over objects that tell nothing.
fn run_untold<H: Folder, D: Folder, S: Source, T: Sink, O: Sink, E: Sink>(
    alloc: Global,
    now: Option<u32>,
    args: &[String],
    device: H,
    desk: D,
    source: &mut S,
    trace: &mut T,
    out: &mut O,
    err: &mut E,
) -> Ended<H, D>
    requires { AreUntold
        (call_told H.Folder D.Folder S.Source T.Sink device desk source.old trace.old)
        (sink_told O.Sink out.old) }
    ensures code { result.code ≡ code_of result.answer.status }
    ensures call { IsSystemCall (task_in now (drop 1 args.now))
        result.answer.status result.answer.report }
{
    run_program(alloc, now, args, device, desk, source, trace, out, err)
}

// A call whose words were not fetched for want of memory.
fn unread_call<'r, R: Clock + Files<File = File> + Print + Eprint + AllocGlobal>(
    rt: &'r R,
) -> Ended<CountedFolder<'r, R, DirFolder<'r, R>>, MadeFolder<'r, R, DirFolder<'r, R>>>
    ensures code { result.code ≡ code_of result.answer.status }
    ensures no_memory { result.answer.status ≡ Status.NoMemory }
    ensures call { IsSystemCall None result.answer.status result.answer.report }
{
    let alloc = rt.alloc();
    say_no_memory(
        alloc,
        CountedFolder::new(rt, DirFolder::new(rt, alloc), false),
        MadeFolder::new(rt, DirFolder::new(rt, alloc), false),
        &mut StdoutSink::new(rt),
    )
}

// Prints that there is no memory, and hands both folders back.
fn say_no_memory<H: Folder, D: Folder, O: Sink>(
    alloc: Global,
    device: H,
    desk: D,
    out: &mut O,
) -> Ended<H, D>
    requires { O.taken out.old ≡ None }
    ensures code { result.code ≡ code_of result.answer.status }
    ensures no_memory { result.answer.status ≡ Status.NoMemory }
    ensures call { IsSystemCall None result.answer.status result.answer.report }
{
    let status = print_refusal(alloc, Status::NoMemory, out);
    Ended {
        code: status.code(),
        answer: Answer::not_started(alloc, status, device, desk),
    }
}

/// The words that the program was called with, its name first. Those that are no text, or that the system does not hand
/// over, are out of the form.
pub fn arguments<R: Env + AllocGlobal>(rt: &R) -> Result<Vec<String>, WordsFault> {
    match fetched(rt) {
        Ok(args) => Ok(args),
        Err(error) => Err(fault_of(error.kind())),
    }
}

// The words as the system hands them over.
fn fetched<R: Env + AllocGlobal>(rt: &R) -> io::Result<Vec<String>> {
    let mut args = Vec::new(rt.alloc());
    for arg in env::args(rt)? {
        args.push(arg)?;
    }
    Ok(args)
}

// Why there are no words.
fn fault_of(kind: ErrorKind) -> WordsFault
    ensures { (result ≡ WordsFault.NoMemory) ↔ (kind ≡ ErrorKind.OutOfMemory) }
{
    match kind {
        ErrorKind::OutOfMemory => WordsFault::NoMemory,
        _ => WordsFault::Usage,
    }
}
