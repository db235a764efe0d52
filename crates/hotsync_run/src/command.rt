// The top call.
ghost use Rattle.std.specs.Prelude.{◌≡◌, ◌⊎◌, None, false, map, string_bytes, true};
ghost use Rattle.cmd_status.specs.Told.{sink_told};
ghost use Rattle.hotsync_looks.specs.Misuses.{IsMisuse, TellsFault};
ghost use Rattle.hotsync_run.specs.Calls as calls;
ghost use Rattle.hotsync_run.specs.Calls.{HasSession, IsCall, IsRefused, OfProgram, ReadsFirst, fault_in, paths_of, task_in};
ghost use Rattle.run_words.specs.Helps.{command_named as named_by_first};
ghost use Rattle.call_parts.specs.Refusals.{BlamesHandheld, BlamesSource};
ghost use Rattle.call_parts.specs.Reports.{IsNotStarted};

use call_parts::{Answer, SessionEnd};
use cmd_files::{backup_folder, emulate, install_file, restore_folder};
use cmd_session::{dry_run_folders, file_categories, run_folders, run_made_folders};
use cmd_status::{Status, print_refusal};
use hotsync_looks::{look_at, print_help, print_misuse, print_packets, word_at_fault};
use hs_folders::{Folder, Sink, Source};
use run_clap::{Command, WordsFault, read_command};
use run_words::{CommandWord, command_named};
use std::alloc::Global;

/// Does what the words ask for, and prints the lines of its status on `out`.
///
/// Where what is printed is the result of a command, as that of `export` is, what is refused goes to `err` in its place.
/// `now` are the seconds of the date now, if it can be told, and `words` those after the program's name. Both folders are handed back with every status.
pub fn hotsync<H: Folder, D: Folder, S: Source, T: Sink, O: Sink, E: Sink>(
    alloc: Global,
    now: Option<u32>,
    words: &[String],
    device: H,
    desk: D,
    source: &mut S,
    trace: &mut T,
    out: &mut O,
    err: &mut E,
) -> Answer<H, D>
    ensures run { OfProgram (IsCall (task_in now words.now))
        H.Folder D.Folder S.Source T.Sink O.Sink E.Sink
        device desk source.old trace.old out.old err.old
        result source.new trace.new out.new err.new }

    // Where the words ask for nothing, the status names the word at fault.
    ensures fault { task_in now words.now ≡ None
        → TellsFault (named_by_first (map string_bytes words.now)) (fault_in now words.now)
        result.status }

    // Such words of a command that prints its result leave standard output alone.
    ensures misuse { task_in now words.now ≡ None
        → calls.gives_result (named_by_first (map string_bytes words.now)) ≡ true
        → IsMisuse result.status → out.new ≡ out.old }

    // A session leaves standard error alone, and so do such words of one, or of no command.
    ensures session { HasSession (task_in now words.now) → err.new ≡ err.old }
    ensures lines { task_in now words.now ≡ None
        → calls.gives_result (named_by_first (map string_bytes words.now)) ≡ false
        → err.new ≡ err.old }

    // Nothing goes over a line but in a session.
    ensures report { ¬ HasSession (task_in now words.now) → IsNotStarted result.report }

    // What is judged later is not touched: the folders where the source is blamed, the desktop's where the handheld's is.
    ensures source_first { ReadsFirst (task_in now words.now) → BlamesSource result.status
        → (result.device ≡ device) × (result.desk ≡ desk) }
    ensures handheld_first { result.report.end ≡ SessionEnd.NotStarted
        → BlamesHandheld result.status → result.desk ≡ desk }

    // What the words give no path is not touched.
    ensures device { (paths_of (task_in now words.now)).handheld ≡ None → result.device ≡ device }
    ensures desk { (paths_of (task_in now words.now)).desktop ≡ None → result.desk ≡ desk }
    ensures source { (paths_of (task_in now words.now)).source ≡ None → source.new ≡ source.old }
    ensures trace { (paths_of (task_in now words.now)).trace ≡ None → trace.new ≡ trace.old }
{
    match read_command(alloc, now, words) {
        Ok(Command::Run(run)) => run_folders(alloc, &run, device, desk, source, trace, out),
        Ok(Command::DryRun(run)) => {
            dry_run_folders(alloc, &run, device, desk, source, trace, out)
        }
        Ok(Command::Look(look)) => {
            let status = look_at(alloc, look, source, out, err);
            Answer::not_started(alloc, status, device, desk)
        }
        Ok(Command::Packet(packet)) => {
            let status = print_packets(alloc, packet.hex, out, err);
            Answer::not_started(alloc, status, device, desk)
        }
        Ok(Command::Make(words)) => {
            let (status, report) = run_made_folders(alloc, words.seed, words.count, out);
            Answer {
                status,
                report,
                device,
                desk,
            }
        }
        Ok(Command::Install(words)) => {
            install_file(alloc, &words, device, desk, source, trace, out)
        }
        Ok(Command::Backup(words)) => {
            backup_folder(alloc, &words, device, desk, source, trace, out)
        }
        Ok(Command::Restore(words)) => {
            restore_folder(alloc, &words, device, desk, source, trace, out)
        }
        Ok(Command::Device(words)) => emulate(alloc, &words, device, desk, source, trace, out),
        Ok(Command::Categories(words)) => {
            file_categories(alloc, &words, device, desk, source, trace, out)
        }
        Ok(Command::Help(topic)) => {
            let status = print_help(alloc, topic, out, err);
            Answer::not_started(alloc, status, device, desk)
        }
        Err(WordsFault::Usage) => {
            let status = refuse_words(alloc, now, words, out, err);
            Answer::not_started(alloc, status, device, desk)
        }
        Err(WordsFault::NoMemory) => {
            let status = print_refusal(alloc, Status::NoMemory, out);
            Answer::not_started(alloc, status, device, desk)
        }
    }
}

// Prints what is wrong with words that ask for nothing, apart from the result that the command would have printed.
fn refuse_words<O: Sink, E: Sink>(
    alloc: Global,
    now: Option<u32>,
    words: &[String],
    out: &mut O,
    err: &mut E,
) -> Status
    ensures status { IsMisuse result ⊎ (result ≡ Status.NoMemory) }
    ensures fault { TellsFault (named_by_first (map string_bytes words.now))
        (fault_in now words.now) result }
    ensures printed { IsRefused (sink_told O.Sink out.old) (sink_told O.Sink out.new)
        (sink_told E.Sink err.old) (sink_told E.Sink err.new) result }
    ensures apart { calls.gives_result (named_by_first (map string_bytes words.now)) ≡ true
        → out.new ≡ out.old }
    ensures alone { calls.gives_result (named_by_first (map string_bytes words.now)) ≡ false
        → err.new ≡ err.old }
{
    let (command, fault) = (command_named(words), word_at_fault(now, words));
    if gives_result(command) {
        print_misuse(alloc, command, fault, err)
    } else {
        print_misuse(alloc, command, fault, out)
    }
}

// Whether what a command prints is its result.
fn gives_result(command: Option<CommandWord>) -> bool
    ensures { result ≡ calls.gives_result command }
{
    match command {
        Some(
            CommandWord::Check
            | CommandWord::Show
            | CommandWord::Export
            | CommandWord::Import
            | CommandWord::Verify
            | CommandWord::Picture
            | CommandWord::Packet,
        ) => true,
        _ => false,
    }
}
