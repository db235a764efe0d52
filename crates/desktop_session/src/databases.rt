// What is said of all databases.
ghost use Rattle.std.specs.Prelude.{◌≡◌, ◌≤◌, IfSome, false, length, replicate};
ghost use Rattle.std.specs.Option.{option_map};
ghost use Rattle.pdb_values.specs.PalmDates.{wire_date};
ghost use Rattle.dlp_replies.specs.ReplyReading.{reply_at};
ghost use Rattle.dlp_commands.specs.UserFunctions.{chosen, name_length};
ghost use Rattle.desktop_session.specs.Answers.{answer_by, no_more, or_false, said_in};
ghost use Rattle.desktop_session.specs.Asking.{deletes, marks};
ghost use Rattle.desktop_session.specs.Following.{Follows};
ghost use Rattle.desktop_session.specs.Requests.{deleting, marked_name, marking};
ghost use Rattle.desktop_session.specs.Stops.{AsksOne};

use crate::fault::SessionFault;
use crate::linked::Linked;
use crate::replies::{self, done_in};
use dlp_commands::{Link, Request};
use pdb_values::{DbName, PalmDate, UserInfo};

impl<L: Link> Linked<L> {
    /// Sets what the bits say of the user: user (0x80), PC (0x40), `last` as both dates (0x20),
    /// name (0x10) and viewer
    /// (0x08). What isn't set is sent as zeros and no name.
    #[tactic(auto, using(crate::proofs::RequestFits::mark_fits, crate::proofs::AnswerLaws::answer_said, crate::proofs::AnswerLaws::answer_failed))]
    pub fn mark(&mut self, mark: &UserInfo, bits: u8) -> Result<(), SessionFault>
        requires { self.old.abandoned ≡ false }
        ensures asked { AsksOne L.talk L.since L.fault L.downs (marking mark.now bits) self.old
            self.new }
        ensures answer { result ≡ answer_by (L.fault self.new.link)
            (said_in 0x11 no_more (reply_at 0x11 self.new.reply)) }
        ensures follows { Follows L.Link (marks mark.now bits) self.old.link self.new.link result }
    {
        let name = name_where_set(bits, mark.name.as_bytes());
        self.ask(&Request::WriteUserInfo {
            user: number_where_set(0x80, bits, mark.user),
            viewer: number_where_set(0x08, bits, mark.viewer),
            pc: number_where_set(0x40, bits, mark.pc),
            date: date_where_set(bits, mark.last),
            bits,
            name_len: length_of(name),
            name,
        })?;
        done_in(0x11, self.reply())
    }

    /// Takes a database away, and answers whether there was one.
    #[tactic(auto, using(crate::proofs::RequestFits::delete_fits, crate::proofs::AnswerLaws::answer_said, crate::proofs::AnswerLaws::answer_failed))]
    pub fn delete(&mut self, name: &DbName) -> Result<bool, SessionFault>
        requires { self.old.abandoned ≡ false }
        ensures asked { AsksOne L.talk L.since L.fault L.downs (deleting name.now) self.old self.new }
        ensures answer { result ≡ answer_by (L.fault self.new.link)
            (or_false (said_in 0x1A no_more (reply_at 0x1A self.new.reply))) }
        ensures follows { Follows L.Link (deletes name.now) self.old.link self.new.link result }
    {
        let name = name.as_bytes();
        self.ask(&Request::DeleteDb { card: 0, name })?;
        replies::or_false(done_in(0x1A, self.reply()))
    }
}

// A number where its bit is set, and else 0.
fn number_where_set(bit: u8, bits: u8, number: u32) -> u32
    ensures { result ≡ chosen bit bits number 0 }
{
    if bits & bit != 0 { number } else { 0 }
}

// The date on the wire where its bit is set, and else zeros.
fn date_where_set(bits: u8, date: PalmDate) -> [u8; 8]
    ensures { result ≡ chosen 0x20 bits (wire_date date) (replicate 8 0) }
{
    if bits & 0x20 != 0 {
        date.to_wire()
    } else {
        [0; 8]
    }
}

// The name where its bit is set, unless it is empty.
fn name_where_set(bits: u8, name: &[u8]) -> Option<&[u8]>
    ensures { option_map (λ name. name.now) result ≡ marked_name bits name.now }
{
    if bits & 0x10 != 0 && !name.is_empty() {
        Some(name)
    } else {
        None
    }
}

// The length that goes with a name counts its zero; without a name it is 0.
fn length_of(name: Option<&[u8]>) -> u8
    requires { IfSome name (λ name. length name.now ≤ 40) }
    ensures { result ≡ name_length (option_map (λ name. name.now) name.entry) }
{
    match name {
        Some(name) => name.len() as u8 + 1,
        None => 0,
    }
}
