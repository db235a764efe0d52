// A session between folders that are made in memory.
ghost use Rattle.std.specs.Prelude.{◌≡◌, ◌⊎◌, ◌≤◌, IfOk, Some, string_bytes, true};
ghost use Rattle.desk_store.specs.Bounds.{AreBounded};
ghost use Rattle.desk_store.specs.Desks.{IsDesk};
ghost use Rattle.handheld_files.specs.Openings.{AreKept, HoldsAll, Stands, opened_device};
ghost use Rattle.made_folders.specs.Items.{made};
ghost use Rattle.made_folders.specs.Sides.{desktop_files, handheld_files};
ghost use Rattle.palm_device.specs.Bounds.{IsBounded};
ghost use Rattle.run_words.specs.Views.{choice_view, run_view};
ghost use Rattle.cmd_session.specs.Makes.{HasMade, IsMake, every_database, made_run, made_script, script_text};
ghost use Rattle.cmd_status.specs.Told.{sink_told};

use crate::steady::SteadyFolder;
use crate::talk::talk;
use call_parts::{Answer, Report, print_status};
use cmd_status::Status;
use desk_store::Desk;
use handheld_store::Store;
use hs_folders::{Folder, Sink};
use line_script::{Script, read_script};
use made_folders::{MadeFolders, make_folders};
use pdb_values::PalmDate;
use run_clap::{ChoiceWords, RunWords};
use std::alloc::{AllocError, Global};
use std::fmt::Write;

/// The seconds of 2001-09-09T01:46:40.
const DATE: u32 = 3_082_844_800;

/// The line loses one of so many frames, the last one.
const EACH: u32 = 20;

/// How many it loses at most.
const LOSSES: u32 = 1000;

/// Each database, with the action that it has where no word says another.
const EVERY_DATABASE: ChoiceWords<'static> = ChoiceWords {
    only: None,
    actions: None,
};

/// Makes the folders of a seed and a count, has the session between them, and prints what was done.
pub fn run_made_folders<O: Sink>(
    alloc: Global,
    seed: u64,
    count: u32,
    out: &mut O,
) -> (Status, Report)
    requires { count ≤ 5000 }
    ensures { IsMake seed count
        (sink_told O.Sink out.old) (sink_told O.Sink out.new)
        result.0 result.1 }
{
    let (status, report) = made_session(alloc, seed, count);
    let status = print_status(alloc, status, &report.databases, out);
    (status, report)
}

// The session between the folders of a seed and a count. Memory alone can fail it.
fn made_session(alloc: Global, seed: u64, count: u32) -> (Status, Report)
    requires { count ≤ 5000 }
    ensures made { HasMade (made seed count) result.0 result.1 }
    ensures ends { (result.0 ≡ Status.Done) ⊎ (result.0 ≡ Status.NoMemory) }
{
    match made_sides(alloc, seed, count) {
        Ok(sides) => {
            let MadeSides {
                store,
                desk,
                script,
            } = sides;
            let words = made_words(EVERY_DATABASE);
            let answer = talk(alloc, &words, store, desk, script);
            let Answer {
                status,
                report,
                device: _,
                desk: _,
            } = answer;
            (status, report)
        }
        Err(AllocError) => (Status::NoMemory, Report::not_started(alloc)),
    }
}

// Both sides of made folders, opened, and the script of the line between them.
#[derive(Drop)]
struct MadeSides {
    store: Store<SteadyFolder>,
    desk: Desk<SteadyFolder>,
    script: Script,
}

// The folders of a seed and a count, opened, and the script. The files are good and the folder never fails: a refusal counts
// as want of memory.
fn made_sides(alloc: Global, seed: u64, count: u32) -> Result<MadeSides, AllocError>
    requires { count ≤ 5000 }
    ensures script { IfOk result (λ sides. sides.script ≡ made_script) }

    ensures held { IfOk result (λ sides. HoldsAll (handheld_files (made seed count))
        sides.store.databases sides.store.user) }
    ensures palm { IfOk result (λ sides. ⟦<SteadyFolder as Folder>⟧.contents sides.store.folder
        ≡ Some (handheld_files (made seed count))) }
    ensures stands { IfOk result (λ sides.
        Stands (⟦<SteadyFolder as Folder>⟧.contents sides.store.folder)
        sides.store.databases sides.store.user) }
    ensures kept { IfOk result (λ sides. AreKept sides.store.databases) }
    ensures proper { IfOk result (λ sides. IsBounded (opened_device sides.store.databases
        sides.store.user)) }
    ensures sound { IfOk result (λ sides. sides.store.sound ≡ true) }

    ensures slots { IfOk result (λ sides. IsDesk (Some (desktop_files (made seed count)))
        sides.desk.slots) }
    ensures desk { IfOk result (λ sides. ⟦<SteadyFolder as Folder>⟧.contents sides.desk.folder
        ≡ Some (desktop_files (made seed count))) }
    ensures bounded { IfOk result (λ sides. AreBounded sides.desk.slots) }
{
    let script = losing_script(alloc)?;
    let MadeFolders { device, desk } = make_folders(alloc, seed, count)?;
    let Ok(store) = Store::open_folder(alloc, SteadyFolder::new(device)) else {
        return Err(AllocError);
    };
    let Ok(desk) = Desk::open(alloc, SteadyFolder::new(desk)) else {
        return Err(AllocError);
    };
    Ok(MadeSides {
        store,
        desk,
        script,
    })
}

// The words of the session, with this choice of databases.
fn made_words(choice: ChoiceWords<'static>) -> RunWords<'static>
    ensures { choice_view choice.entry ≡ every_database → run_view result ≡ made_run }
{
    RunWords {
        handheld: "",
        desktop: "",
        date: PalmDate::of_seconds(DATE),
        script: None,
        trace: None,
        choice,
        slow: false,
        user: None,
        add_user: false,
    }
}

// The script that loses each twentieth frame.
fn losing_script(alloc: Global) -> Result<Script, AllocError>
    ensures { IfOk result (λ script. script ≡ made_script) }
{
    let text = losing_text(alloc)?;
    match read_script(alloc, text.as_bytes()) {
        Ok(script) => Ok(script),
        Err(_) => Err(AllocError),
    }
}

// Its text.
fn losing_text(alloc: Global) -> Result<String, AllocError>
    ensures { IfOk result (λ text. string_bytes text ≡ script_text made_script) }
{
    let mut text = String::new(alloc);
    for place in 0..LOSSES {
        let number = EACH * (place + 1);
        write!(text, "{number} lost\n")?;
    }
    Ok(text)
}
