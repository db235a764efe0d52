// The folders of both sides.
ghost use Rattle.std.specs.Prelude.{◌≡◌, ◌≤◌, All, IfOk, OnOk, Some, codes, length, option_map};
ghost use Rattle.std.specs.FinMap as finmap;
ghost use Rattle.folder_files.specs.InfoFiles.{device_text};
ghost use Rattle.pdb_files.specs.Files.{canonical};
ghost use Rattle.made_folders.specs.Drawn.{IsDrawn};
ghost use Rattle.made_folders.specs.Items.{made};
ghost use Rattle.made_folders.specs.Sides.{desktop_files, handheld_files, made_database, made_user as user_of_made};

use crate::item::{Item, make_items};
use crate::side::{MadeSide, make_database};
use folder_files::write_device_info;
use hs_folders::{Folder, MemFolder};
use pdb_files::write_database;
use pdb_values::{PalmDate, Password, UserInfo, UserName};
use std::alloc::{AllocError, Global};

/// A folder of a handheld and one of a desktop.
#[derive(Drop)]
pub struct MadeFolders {
    pub device: MemFolder,
    pub desk: MemFolder,
}

/// The folders that a seed and a count of at most 5,000 make.
pub fn make_folders(alloc: Global, seed: u64, count: u32) -> Result<MadeFolders, AllocError>
    requires { count ≤ 5000 }
    ensures device { IfOk result (λ folders. ⟦<MemFolder as Folder>⟧.contents folders.device
        ≡ Some (handheld_files (made seed count))) }
    ensures desk { IfOk result (λ folders. ⟦<MemFolder as Folder>⟧.contents folders.desk
        ≡ Some (desktop_files (made seed count))) }
{
    let items = make_items(alloc, seed, count)?;
    let device = make_handheld(alloc, &items)?;
    let desk = make_desktop(alloc, &items)?;
    Ok(MadeFolders { device, desk })
}

// The handheld's folder: its database, and that it was synchronized with the desktop of number 1.
fn make_handheld(alloc: Global, items: &[Item]) -> Result<MemFolder, AllocError>
    requires drawn { All IsDrawn items.now }
    requires count { length items.now ≤ 5000 }
    ensures { IfOk result (λ folder. ⟦<MemFolder as Folder>⟧.contents folder
        ≡ Some (handheld_files items.now)) }
{
    let mut folder = MemFolder::new(alloc);
    put_database(alloc, &mut folder, "MadeDB.pdb", MadeSide::Handheld, items)?;
    put_user(alloc, &mut folder)?;
    Ok(folder)
}

// The desktop's folder: its rows, and what both sides had after the last synchronization.
fn make_desktop(alloc: Global, items: &[Item]) -> Result<MemFolder, AllocError>
    requires drawn { All IsDrawn items.now }
    requires count { length items.now ≤ 5000 }
    ensures { IfOk result (λ folder. ⟦<MemFolder as Folder>⟧.contents folder
        ≡ Some (desktop_files items.now)) }
{
    let mut folder = MemFolder::new(alloc);
    put_database(alloc, &mut folder, "MadeDB.pdb", MadeSide::Desktop, items)?;
    put_database(alloc, &mut folder, "MadeDB.base", MadeSide::Base, items)?;
    Ok(folder)
}

// Puts the file of the database of a side into a folder.
fn put_database(
    alloc: Global,
    folder: &mut MemFolder,
    name: &str,
    side: MadeSide,
    items: &[Item],
) -> Result<(), AllocError>
    requires drawn { All IsDrawn items.now }
    requires count { length items.now ≤ 5000 }
    ensures { OnOk result (⟦<MemFolder as Folder>⟧.contents folder.new ≡ option_map (λ held.
        finmap.insert held name.now (canonical (made_database side items.now)))
        (⟦<MemFolder as Folder>⟧.contents folder.old)) }
{
    let database = make_database(alloc, side, items)?;
    let bytes = write_database(alloc, &database)?;
    folder.put(name, &bytes)?;
    Ok(())
}

// Puts what the handheld knows of its user into its folder.
fn put_user(alloc: Global, folder: &mut MemFolder) -> Result<(), AllocError>
    ensures { OnOk result (⟦<MemFolder as Folder>⟧.contents folder.new ≡ option_map (λ held.
        finmap.insert held (codes "device.inf") (device_text user_of_made))
        (⟦<MemFolder as Folder>⟧.contents folder.old)) }
{
    let text = write_device_info(alloc, &made_user())?;
    folder.put("device.inf", text.as_bytes())?;
    Ok(())
}

// What the handheld knows of its user.
fn made_user() -> UserInfo
    ensures { result ≡ user_of_made }
{
    let (Some(name), Some(password)) = (UserName::new(b""), Password::new(b"")) else {
        unreachable!()
    };
    let never = PalmDate::of_seconds(0);
    UserInfo {
        user: 0,
        viewer: 0,
        pc: 1,
        good: never,
        last: never,
        name,
        password,
    }
}
