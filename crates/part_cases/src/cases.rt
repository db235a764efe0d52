// A handheld's folder, and the sessions over it.
use crate::fake::over_fake;
use crate::said::records_text;
use crate::session::session;
use case_words::{bytes_at, number_at, word};
use handheld_server::{Server, ServerLink};
use handheld_store::Store;
use hs_folders::{Folder, MemFolder};
use std::alloc::{AllocError, Global};
use std::mem;

/// Does what a line asks for, over the folder of the lines before it.
pub fn obey(
    alloc: Global,
    folder: &mut MemFolder,
    line: &str,
    words: &[&str],
) -> Result<String, AllocError> {
    let rest = words.get(1..).unwrap_or(&[]);
    match word(words, 0) {
        "case" => {
            *folder = MemFolder::new(alloc);
            return String::from_str(alloc, line);
        }
        "file" => folder.put(word(words, 1), &bytes_at(alloc, words, 2))?,
        "fail" => folder.fail_calls(vec![in alloc; number_at(words, 1)]?),
        "records" => {
            let bytes = folder.read(alloc, word(words, 1));
            return records_text(alloc, &bytes.unwrap_or(Vec::new(alloc)));
        }
        "session" => return over_server(alloc, folder, rest),
        "fake" => return over_fake(alloc, word(words, 1), rest.get(1..).unwrap_or(&[])),
        _ => return String::from_str(alloc, "what?"),
    }
    Ok(String::new(alloc))
}

// Says a session to a server over the folder.
fn over_server(
    alloc: Global,
    folder: &mut MemFolder,
    words: &[&str],
) -> Result<String, AllocError> {
    let taken = mem::replace(folder, MemFolder::new(alloc));
    let server = match Store::open_folder(alloc, taken) {
        Ok(store) => Server::new(store),
        Err((_, taken)) => {
            *folder = taken;
            return String::from_str(alloc, "not opened");
        }
    };
    if !server.is_sound() {
        return String::from_str(alloc, "not sound");
    }
    let (link, said) = session(alloc, ServerLink::new(alloc, server), words)?;
    *folder = link.into_server().into_folder();
    Ok(said)
}
