// The information file of a handheld.
ghost use Rattle.std.specs.Prelude.{◌≡◌, IfOk, Ok, List, ℕ, string_bytes};
ghost use Rattle.pdb_values.specs.declared.user.UserInfo.{UserInfo};
ghost use Rattle.folder_files.specs.InfoFiles.{IsDeviceFile, device_forms, device_in, device_text, device_values};
ghost use Rattle.folder_files.specs.Reading.{lines_at};
ghost use Rattle.folder_files.specs.Views.{Finds};

use crate::bad_line::BadLine;
use crate::line::Lines;
use crate::unread::Unread;
use crate::word::{date_word, name_word, number_word, password_word};
use pdb_values::UserInfo;
use std::alloc::{AllocError, Global};

/// Reads the information file of a handheld, which is all of the bytes. It takes no memory.
pub fn read_device_info(bytes: &[u8]) -> Result<UserInfo, BadLine>
    // What is read has the bytes as its file.
    ensures found { IfOk result (λ info. IsDeviceFile info bytes.now) }
    // What has the bytes as its file is read.
    ensures only { (info : UserInfo) → IsDeviceFile info bytes.now → result ≡ Ok info }
    // Where the first bad line begins.
    ensures exact { result ≡ device_in bytes.now }
{
    read(bytes)
}

#[tactic(auto, unfolding(crate::specs::InfoFiles::device_in))]
fn read(bytes: &[u8]) -> Result<UserInfo, BadLine>
    ensures { result ≡ device_in bytes.now }
{
    match read_lines(bytes) {
        Ok(info) => Ok(info),
        Err(unread) => Err(unread.place_in(bytes)),
    }
}

// The lines in their order.
fn read_lines(bytes: &[u8]) -> Result<UserInfo, Unread>
    ensures { Finds device_values result (lines_at device_forms bytes.now) }
{
    let mut lines = Lines { rest: bytes };
    lines.title(b"hotsync-device 1")?;
    let user = lines.number(b"user ")?;
    let viewer = lines.number(b"viewer ")?;
    let pc = lines.number(b"pc ")?;
    let good = lines.date(b"good ")?;
    let last = lines.date(b"last ")?;
    let name = lines.name(b"name ")?;
    let password = lines.password(b"password ")?;
    lines.end()?;
    Ok(UserInfo {
        user,
        viewer,
        pc,
        good,
        last,
        name,
        password,
    })
}

/// The information file of a handheld with this user.
pub fn write_device_info(alloc: Global, info: &UserInfo) -> Result<String, AllocError>
    ensures text { IfOk result (λ text. string_bytes text ≡ device_text info.now) }
    ensures file { IfOk result (λ text. IsDeviceFile info.now (string_bytes text)) }
{
    let user = number_word(alloc, info.user)?;
    let viewer = number_word(alloc, info.viewer)?;
    let pc = number_word(alloc, info.pc)?;
    let good = date_word(alloc, info.good)?;
    let last = date_word(alloc, info.last)?;
    let name = name_word(alloc, &info.name)?;
    let password = password_word(alloc, &info.password)?;
    format!(in alloc;
        "hotsync-device 1\nuser {user}\nviewer {viewer}\npc {pc}\ngood {good}\nlast {last}\nname {name}\npassword {password}\n"
    )
}
