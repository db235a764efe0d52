// Words, read by the command of what they ask for.
ghost use Rattle.std.specs.Prelude.{◌≡◌, ◌↔◌, IfErr, IfOk, IsErrOf, IsSome, None, Some, codes, map, string_bytes, true};
ghost use Rattle.run_words.specs.Cables.{sync_of};
ghost use Rattle.run_words.specs.Commands.{deed_of as deed_of_words, task_of};
ghost use Rattle.run_words.specs.Docks.{docking_of};
ghost use Rattle.run_words.specs.Helps.{names_port as port_named};
ghost use Rattle.run_words.specs.Likes.{liking_of};
ghost use Rattle.run_words.specs.Porteds.{ported_of};
ghost use Rattle.run_words.specs.Views.{cable_view, dock_view, like_view, ported_view, task_view};

use crate::matched::{WordsFault, read_form};
use run_words::{
    CABLE, CableWords, Command, DOCK, DockWords, IMPORT, LikeWords, PORTED, PORTED_RUN,
    PortedWords, cable_in, command_in, command_named, deed_of, dock_in, docking_words, form_behind,
    help_of, like_in, liking_words, names_port, ported_in, ported_run_in, ported_words, sync_words,
};
use std::alloc::Global;

// What words ask for beside help, read by `clap`.
fn read_deed<'a>(
    alloc: Global,
    now: Option<u32>,
    command: &Command<'a>,
    words: &'a [String],
) -> Result<Command<'a>, WordsFault>
    requires { deed_of_words now (map string_bytes words.now) ≡ Some (task_view command.now) }
    ensures command { IfOk result (λ read. task_view read ≡ task_view command.now) }
    ensures refused { IfErr result (λ fault. fault ≡ WordsFault.NoMemory) }
{
    let Some(named) = command_named(words) else {
        unreachable!();
    };
    let matched = read_form(alloc, form_behind(named), words)?;
    match command_in(now, named, &matched) {
        Some(read) => Ok(read),
        None => unreachable!(),
    }
}

/// What these words ask for, read by `clap`, or the help that they ask for. `now` is the date now in seconds, if it can be told.
#[tactic(auto, unfolding(run_words::specs::Commands::task_of))]
pub fn read_command<'a>(
    alloc: Global,
    now: Option<u32>,
    words: &'a [String],
) -> Result<Command<'a>, WordsFault>
    ensures command { IfOk result (λ command.
        task_of now (map string_bytes words.entry.now) ≡ Some (task_view command)) }
    ensures usage { IsErrOf result WordsFault.Usage
        ↔ (task_of now (map string_bytes words.entry.now) ≡ None) }
{
    match deed_of(now, words) {
        Some(command) => read_deed(alloc, now, &command, words),
        None => match help_of(words) {
            Some(topic) => Ok(Command::Help(topic)),
            None => Err(WordsFault::Usage),
        },
    }
}

/// The session over a cable that these words ask for, read by `clap`.
pub fn read_sync<'a>(
    alloc: Global,
    now: Option<u32>,
    words: &'a [String],
) -> Result<CableWords<'a>, WordsFault>
    ensures command { IfOk result (λ cable.
        sync_of now (map string_bytes words.entry.now) ≡ Some (cable_view cable)) }
    ensures usage { IsErrOf result WordsFault.Usage
        ↔ (sync_of now (map string_bytes words.entry.now) ≡ None) }
{
    let Some(_) = sync_words(now, words) else {
        return Err(WordsFault::Usage);
    };
    if names_port(words, "run") {
        return read_ported_run(alloc, now, words);
    }
    let matched = read_form(alloc, CABLE, words)?;
    match cable_in(now, &matched) {
        Some(cable) => Ok(cable),
        None => unreachable!(),
    }
}

// The session over a cable that words behind `run` ask for, which name the port.
fn read_ported_run<'a>(
    alloc: Global,
    now: Option<u32>,
    words: &'a [String],
) -> Result<CableWords<'a>, WordsFault>
    requires named { port_named (codes "run") (map string_bytes words.now) ≡ true }
    requires some { IsSome (sync_of now (map string_bytes words.now)) }
    ensures command { IfOk result (λ cable.
        sync_of now (map string_bytes words.entry.now) ≡ Some (cable_view cable)) }
    ensures refused { IfErr result (λ fault. fault ≡ WordsFault.NoMemory) }
{
    let matched = read_form(alloc, PORTED_RUN, words)?;
    match ported_run_in(now, &matched) {
        Some(cable) => Ok(cable),
        None => unreachable!(),
    }
}

/// What these words ask for behind this command, which name a port, read by `clap`.
pub fn read_ported<'a>(
    alloc: Global,
    command: &str,
    words: &'a [String],
) -> Result<PortedWords<'a>, WordsFault>
    ensures command { IfOk result (λ ported. ported_of command.now
        (map string_bytes words.entry.now) ≡ Some (ported_view ported)) }
    ensures usage { IsErrOf result WordsFault.Usage
        ↔ (ported_of command.now (map string_bytes words.entry.now) ≡ None) }
{
    let Some(_) = ported_words(command, words) else {
        return Err(WordsFault::Usage);
    };
    let matched = read_form(alloc, PORTED, words)?;
    match ported_in(&matched) {
        Some(ported) => Ok(ported),
        None => unreachable!(),
    }
}

/// The handheld at a port that these words ask for, read by `clap`.
pub fn read_docking<'a>(alloc: Global, words: &'a [String]) -> Result<DockWords<'a>, WordsFault>
    ensures command { IfOk result (λ dock.
        docking_of (map string_bytes words.entry.now) ≡ Some (dock_view dock)) }
    ensures usage { IsErrOf result WordsFault.Usage
        ↔ (docking_of (map string_bytes words.entry.now) ≡ None) }
{
    let Some(_) = docking_words(words) else {
        return Err(WordsFault::Usage);
    };
    let matched = read_form(alloc, DOCK, words)?;
    match dock_in(&matched) {
        Some(dock) => Ok(dock),
        None => unreachable!(),
    }
}

/// The import in the categories of another file that these words ask for, read by `clap`.
pub fn read_liking<'a>(alloc: Global, words: &'a [String]) -> Result<LikeWords<'a>, WordsFault>
    ensures command { IfOk result (λ like.
        liking_of (map string_bytes words.entry.now) ≡ Some (like_view like)) }
    ensures usage { IsErrOf result WordsFault.Usage
        ↔ (liking_of (map string_bytes words.entry.now) ≡ None) }
{
    let Some(_) = liking_words(words) else {
        return Err(WordsFault::Usage);
    };
    let matched = read_form(alloc, IMPORT, words)?;
    match like_in(&matched) {
        Some(like) => Ok(like),
        None => unreachable!(),
    }
}
