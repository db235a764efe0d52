// The blocks of an open database.
ghost use Rattle.std.specs.Prelude.{◌≡◌};
ghost use Rattle.dlp_replies.specs.ReplyReading.{reply_at};
ghost use Rattle.std.specs.Option.{option_map};
ghost use Rattle.desktop_session.specs.Answers.{IsCopy, answer_by, block_of, mapped, or_none, said_in};
ghost use Rattle.desktop_session.specs.Asking.{copies_app, copies_sort};
ghost use Rattle.desktop_session.specs.Following.{Follows};
ghost use Rattle.desktop_session.specs.Requests.{reading_app, reading_sort};
ghost use Rattle.desktop_session.specs.Stops.{AsksOne};

use crate::fault::SessionFault;
use crate::open_db::OpenDb;
use crate::replies::{self, app_in, sort_in};
use dlp_commands::{Link, Request};
use std::alloc::Global;

impl<'s, L: Link> OpenDb<'s, L> {
    /// A copy of the app block, or nothing where there is none.
    #[tactic(auto, using(crate::proofs::RequestFits::app_fits, crate::proofs::CopyLaws::copy_said, crate::proofs::CopyLaws::copy_failed))]
    pub fn read_app(&mut self, alloc: Global) -> Result<Option<Vec<u8>>, SessionFault>
        ensures same_reference { self.new.linked.ghost_name ≡ self.old.linked.ghost_name }
        ensures same_handle { self.new.handle ≡ self.old.handle }
        ensures asked { AsksOne L.talk L.since L.fault L.downs (reading_app self.old.handle)
            self.old.linked.now self.new.linked.now }
        ensures answer { IsCopy (λ copy. copy.items) result
            (answer_by (L.fault self.new.linked.now.link)
            (or_none (said_in 0x1B block_of (reply_at 0x1B self.new.linked.now.reply)))) }
        ensures follows { Follows L.Link (copies_app self.old.handle) self.old.linked.now.link
            self.new.linked.now.link (mapped (option_map (λ copy. copy.items)) result) }
    {
        let handle = self.handle();
        self.linked.ask(&Request::ReadAppBlock {
            handle,
            offset: 0,
            length: 65_535,
        })?;
        copy_of(alloc, app_in(self.linked.reply()))
    }

    /// A copy of the sort block, or nothing where there is none.
    #[tactic(auto, using(crate::proofs::RequestFits::sort_fits, crate::proofs::CopyLaws::copy_said, crate::proofs::CopyLaws::copy_failed))]
    pub fn read_sort(&mut self, alloc: Global) -> Result<Option<Vec<u8>>, SessionFault>
        ensures same_reference { self.new.linked.ghost_name ≡ self.old.linked.ghost_name }
        ensures same_handle { self.new.handle ≡ self.old.handle }
        ensures asked { AsksOne L.talk L.since L.fault L.downs (reading_sort self.old.handle)
            self.old.linked.now self.new.linked.now }
        ensures answer { IsCopy (λ copy. copy.items) result
            (answer_by (L.fault self.new.linked.now.link)
            (or_none (said_in 0x1D block_of (reply_at 0x1D self.new.linked.now.reply)))) }
        ensures follows { Follows L.Link (copies_sort self.old.handle) self.old.linked.now.link
            self.new.linked.now.link (mapped (option_map (λ copy. copy.items)) result) }
    {
        let handle = self.handle();
        self.linked.ask(&Request::ReadSortBlock {
            handle,
            offset: 0,
            length: 65_535,
        })?;
        copy_of(alloc, sort_in(self.linked.reply()))
    }
}

// A copy of the block that a reply says.
fn copy_of(
    alloc: Global,
    said: Result<&[u8], SessionFault>,
) -> Result<Option<Vec<u8>>, SessionFault>
    ensures { IsCopy (λ copy. copy.items) result
        (or_none (mapped (λ block. block.now) said.entry)) }
{
    match replies::or_none(said)? {
        Some(block) => Ok(Some(block.to_vec(alloc)?)),
        None => Ok(None),
    }
}
