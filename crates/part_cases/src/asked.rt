// What is asked in a session.
ghost use Rattle.std.specs.Prelude.{◌≡◌, false};

use crate::answer::answer;
use crate::said::{done, heads, refused};
use case_words::{bytes_in, number_in, part, short_in, word};
use desktop_session::{Linked, OpenDb};
use dlp_commands::Link;
use palm_device::new_head;
use pdb_values::{DbName, FourCc, PalmDate, Password, UserInfo, UserName};
use std::alloc::{AllocError, Global};
use std::fmt::Write;

/// Asks what the first word says, and the others of the database that it opened. What was answered.
pub fn asked<L: Link + Drop>(
    alloc: Global,
    linked: &mut Linked<L>,
    calls: &[&str],
) -> Result<String, AllocError>
    requires { linked.old.abandoned ≡ false }
{
    let call = word(calls, 0);
    let name = DbName::new(&bytes_in(alloc, part(call, 1))).ok();
    match (part(call, 0), name) {
        ("list", _) => match linked.list(alloc) {
            Ok(found) => heads(alloc, &found),
            Err(fault) => refused(alloc, fault),
        },
        ("mark", _) => marked(alloc, linked, call),
        ("delete", Some(name)) => {
            let gone = linked.delete(&name);
            done(alloc, gone.map(|gone| if gone { "yes" } else { "no" }))
        }
        ("open", Some(name)) => match linked.open(&name) {
            Ok(base) => with_base(alloc, base, calls),
            Err(fault) => refused(alloc, fault),
        },
        ("read", Some(name)) => match linked.open_read(&name) {
            Ok(base) => with_base(alloc, base, calls),
            Err(fault) => refused(alloc, fault),
        },
        ("create", Some(name)) => {
            let attributes = short_in(part(call, 2));
            let head = new_head(name, FourCc(*b"DATA"), FourCc(*b"memo"), attributes, 1);
            match linked.create(&head) {
                Ok(base) => with_base(alloc, base, calls),
                Err(fault) => refused(alloc, fault),
            }
        }
        _ => String::from_str(alloc, "what?"),
    }
}

// Marks the handheld as a user's, with the viewer 7, the desktop 9 and the date of 2001-09-09, 01:46:40.
fn marked<L: Link + Drop>(
    alloc: Global,
    linked: &mut Linked<L>,
    call: &str,
) -> Result<String, AllocError>
    requires { linked.old.abandoned ≡ false }
{
    let name = UserName::new(&bytes_in(alloc, part(call, 3)));
    let (Some(name), Some(password)) = (name, Password::new(b"")) else {
        return String::from_str(alloc, "what?");
    };
    let user = UserInfo {
        user: number_in(part(call, 2)),
        viewer: 7,
        pc: 9,
        good: PalmDate::of_seconds(0),
        last: PalmDate::of_seconds(3_082_844_800),
        name,
        password,
    };
    let bits = (number_in(part(call, 1)) % 256) as u8;
    done(alloc, linked.mark(&user, bits).map(|()| "done"))
}

// What a database that is open answers to the calls behind the first, and the closing.
fn with_base<L: Link + Drop>(
    alloc: Global,
    base: OpenDb<'_, L>,
    calls: &[&str],
) -> Result<String, AllocError> {
    let mut base = base;
    let said = answers(alloc, &mut base, calls.get(1..).unwrap_or(&[]));
    if word(calls, calls.len().saturating_sub(1)) == "abandon" {
        base.abandon();
        return said;
    }
    let closed = base.close();
    let mut said = said?;
    let text = done(alloc, closed.map(|()| "done"))?;
    write!(said, "; {text}")?;
    Ok(said)
}

// What it answers to each call.
fn answers<L: Link + Drop>(
    alloc: Global,
    base: &mut OpenDb<'_, L>,
    calls: &[&str],
) -> Result<String, AllocError> {
    let mut said = String::from_str(alloc, "open")?;
    for call in calls {
        let text = answer(alloc, base, call)?;
        write!(said, "; {text}")?;
    }
    Ok(said)
}
