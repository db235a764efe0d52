// What the words of a run ask of its session.
ghost use Rattle.std.specs.Prelude.{IfOk};
ghost use Rattle.front_laws.specs.Sound.{AreSoundWishes};
ghost use Rattle.cmd_session.specs.Wishes.{AsksFor};
ghost use Rattle.run_words.specs.Views.{run_view};

use desktop_session::UserWish;
use run_clap::RunWords;
use run_words::{run_actions, wished_name};
use session_plan::Wishes;
use std::alloc::{AllocError, Global};

/// What these words ask of a session.
pub fn wishes_of(alloc: Global, words: &RunWords<'_>) -> Result<Wishes, AllocError>
    ensures asked { IfOk result (AsksFor (run_view words.now)) }
    ensures sound { IfOk result AreSoundWishes }
{
    let _seconds = words.date.seconds();
    let name = wished_name(words.user);
    let _bytes = name.as_bytes();
    let actions = run_actions(alloc, words)?;
    Ok(Wishes {
        date: words.date,
        slow: words.slow,
        user: UserWish {
            name,
            add: words.add_user,
        },
        actions,
    })
}
