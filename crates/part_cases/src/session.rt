// A session over a link.
ghost use Rattle.std.specs.Prelude.{◌≡◌, false};

use crate::asked::asked;
use crate::said::refused;
use case_words::{number_in, word};
use desktop_session::{Ended, Halted, Idle, Linked, SessionFault, UserWish, unclaimed};
use dlp_commands::Link;
use std::alloc::{AllocError, Global};

/// Says a session over a link, which comes back, and what its calls answered. The words are the desktop's
/// users, whether one more may come, and the calls.
pub fn session<L: Link + Drop>(
    alloc: Global,
    link: L,
    words: &[&str],
) -> Result<(L, String), AllocError>
    requires { L.begun link ≡ false }
{
    let mut marks = Vec::new(alloc);
    for user in word(words, 0).split(',') {
        let mut slot = unclaimed();
        slot.user = number_in(user);
        marks.push(slot)?;
    }
    if marks.is_empty() || marks.len() > 16 {
        return Ok((link, String::from_str(alloc, "what?")?));
    }
    let mut wish = UserWish::none();
    wish.add = word(words, 1) == "add";
    let linked = match Idle::new(alloc, link) {
        Ok(idle) => idle.hello(&marks, &wish),
        Err(halted) => Err(halted),
    };
    match linked {
        Ok(linked) => greeted(alloc, linked, words.get(2..).unwrap_or(&[])),
        Err(Halted { link, cause }) => Ok((link, refused(alloc, cause)?)),
    }
}

// Says who was greeted, with number, viewer, desktop, both dates in seconds, name and password, and what
// the calls answered, or whether the end was done.
fn greeted<L: Link + Drop>(
    alloc: Global,
    linked: Linked<L>,
    calls: &[&str],
) -> Result<(L, String), AllocError>
    requires { linked.abandoned ≡ false }
{
    let mut linked = linked;
    let user = linked.user();
    let said = format!(in alloc;
        "user {} {} {} {} {} {}.{}",
        user.user,
        user.viewer,
        user.pc,
        user.good.seconds(),
        user.last.seconds(),
        hex::encode(alloc, user.name.as_bytes())?,
        hex::encode(alloc, user.password.as_bytes())?
    )?;
    let (link, answer) = if word(calls, 0) == "finish" {
        match linked.finish() {
            Ok(Ended { link }) => (link, String::from_str(alloc, "ended")?),
            Err(Halted { link, cause }) => (link, refused(alloc, cause)?),
        }
    } else {
        let answer = asked(alloc, &mut linked, calls)?;
        let Halted { link, cause: _ } = linked.halt(SessionFault::NoMemory);
        (link, answer)
    };
    Ok((link, format!(in alloc; "{said}; {answer}")?))
}
