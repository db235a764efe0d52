// What the words ask of a session over a cable.
ghost use Rattle.std.specs.Prelude.{IfOk};
ghost use Rattle.front_laws.specs.Sound.{AreSoundWishes};
ghost use Rattle.port_run.specs.Wishes.{AsksFor};
ghost use Rattle.run_words.specs.Views.{cable_view};

use desktop_session::UserWish;
use run_words::{CableWords, cable_actions, wished_name};
use session_plan::Wishes;
use std::alloc::{AllocError, Global};

/// What these words ask of a session.
pub fn wishes_of(alloc: Global, words: &CableWords<'_>) -> Result<Wishes, AllocError>
    ensures asked { IfOk result (AsksFor (cable_view words.now)) }
    ensures sound { IfOk result AreSoundWishes }
{
    let _seconds = words.date.seconds();
    let name = wished_name(words.user);
    let _bytes = name.as_bytes();
    let actions = cable_actions(alloc, words)?;
    Ok(Wishes {
        date: words.date,
        slow: words.slow,
        user: UserWish {
            name,
            add: words.add_user,
        },
        actions,
    })
}
