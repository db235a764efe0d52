// What a session that keeps its order is answered.
ghost use Rattle.std.specs.Prelude.{◌≡◌, ◌<◌, ◌^◌, ℕ, List};
ghost use Rattle.pdb_values.specs.declared.head.DbHead.{DbHead};
ghost use Rattle.pdb_values.specs.declared.user.UserInfo.{UserInfo};
ghost use Rattle.dlp_replies.specs.ReplyValues as reply;
ghost use Rattle.dlp_replies.specs.ReplyValues.{ReplyValue};
ghost use Rattle.palm_device.specs.Devices.{Device};
ghost use Rattle.dlp_commands.specs.Talks.{Talk};
ghost use Rattle.desktop_session.specs.Acts.{Act, acted};
ghost use Rattle.desktop_session.specs.Answers.{answer_by, no_more, or_false, or_none};
ghost use Rattle.desktop_session.specs.Lists.{IsNotMissing};
ghost use Rattle.desktop_session.specs.Orders.{AreAnswered, AreInOrder, CanMake, HasToBeFound, IsAnswered, IsNoRefusal, TellsDevice, TellsRecords, with_mark};
ghost use Rattle.desktop_session.specs.Orders.{IsMark, IsPossible};
ghost use Rattle.desktop_session.specs.Orders.{IsUnrefused};
ghost use Rattle.desktop_session.specs.Requests.{listing, making, marking};
ghost use Rattle.desktop_session.specs.Sessions.{SessionValue};
ghost use Rattle.desktop_session.specs.Tellings.{told};
ghost use Rattle.desktop_session.specs.Calls.{AsksInOrder, IdsStop, ListStop, call_answer, reply_said};
ghost use Rattle.desktop_session.specs.Bases.{with_made};

use crate::fault::SessionFault;
use dlp_commands::Link;

/// What may be asked of a device is no error, or is error 5 where the call has an answer of its own
/// for it; and so are acts in their order, each at its turn.
pub fn possible_requests_are_answered()
    ensures one { (one : Act) (device : Device) → IsPossible one device
        → IsAnswered one.asks.form (told one device) }
    ensures each { (acts : List Act) (device : Device) → AreInOrder acts device
        → AreAnswered acts device }
{}

/// Over a link that tells its device a call whose act is in its order answers neither `Refused` nor
/// `BadReply`: whatever it takes from the reply, and also where error 5 has an answer of its own.
pub fn kept_order_is_never_refused<L: Link, A>()
    ensures said { (one : Act) (old new : SessionValue L) (take : ReplyValue → A)
        → AsksInOrder L.talk L.since L.fault L.downs one old new → HasToBeFound one
        → IsUnrefused (call_answer L.fault one take new) }
    ensures found { (one : Act) (old new : SessionValue L) (take : ReplyValue → A)
        → AsksInOrder L.talk L.since L.fault L.downs one old new
        → IsUnrefused (answer_by (L.fault new.link) (or_none (reply_said one take new))) }
    ensures removed { (one : Act) (old new : SessionValue L)
        → AsksInOrder L.talk L.since L.fault L.downs one old new
        → IsUnrefused (answer_by (L.fault new.link) (or_false (reply_said one no_more new))) }
{}

/// The same of lists: of the databases at any time, and of the ids of an open database of records.
pub fn kept_lists_are_never_refused<L: Link>()
    ensures databases { (old new : SessionValue L) (said : Talk) (cause : SessionFault)
        → TellsDevice L.talk said old.link → ListStop L.talk L.fault 65536 listing old new cause
        → IsNotMissing cause → IsNoRefusal cause }
    ensures ids { (old new : SessionValue L) (handle count : ℕ) (cause : SessionFault)
        → TellsRecords L.talk handle old.link → count < 2 ^ 16
        → IdsStop L.talk L.fault handle count old new cause → IsNoRefusal cause }
{}

/// A database that can be made is a new empty one by its head's name, type, creator, version and
/// attributes, open under handle 1.
pub fn databases_are_made()
    ensures told { (device : Device) (head : DbHead) → CanMake device 0 head.name
        → told (making head) device ≡ reply.CreateDb 1 }
    ensures device { (device : Device) (head : DbHead) → CanMake device 0 head.name
        → (acted (making head) device).1 ≡ with_made head device }
{}

/// A user can be marked at any device: what the bits say becomes the mark's, and all else stays.
pub fn users_are_marked()
    ensures possible { (device : Device) (mark : UserInfo) (bits : ℕ) → IsMark mark
        → IsPossible (marking mark bits) device }
    ensures told { (device : Device) (mark : UserInfo) (bits : ℕ) → IsMark mark
        → told (marking mark bits) device ≡ reply.WriteUserInfo }
    ensures device { (device : Device) (mark : UserInfo) (bits : ℕ) → IsMark mark
        → (acted (marking mark bits) device).1 ≡ with_mark mark bits device }
{}
