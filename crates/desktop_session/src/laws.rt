// What holds of what a session says.
ghost use Rattle.std.specs.Prelude.{◌≡◌, ◌++◌, ◌+◌, ◌^◌, ◌<◌, ◌≤◌, ◌⊎◌, ℕ, List, Ok, Some, None, false, length, map, max};
ghost use Rattle.pdb_values.specs.declared.head.DbHead.{DbHead};
ghost use Rattle.pdb_values.specs.declared.record.Record.{Record};
ghost use Rattle.pdb_values.specs.declared.resource.Resource.{Resource};
ghost use Rattle.dlp_replies.specs.ReplyReading.{reply_at};
ghost use Rattle.dlp_replies.specs.ReplyValues as reply;
ghost use Rattle.dlp_replies.specs.ReplyValues.{ReplyValue};
ghost use Rattle.palm_device.specs.Devices.{Device};
ghost use Rattle.palm_device.specs.Handles.{Base, no_handles};
ghost use Rattle.palm_device.specs.Records.{next_changed, place_of_id};
ghost use Rattle.palm_device.specs.Soundness.{ids_of};
ghost use Rattle.dlp_commands.specs.DeviceRuns.{Ran};
ghost use Rattle.dlp_commands.specs.DatabaseFunctions.{listed};
ghost use Rattle.dlp_commands.specs.Talks.{Talk};
ghost use Rattle.desktop_session.specs.Acts.{Act, acted};
ghost use Rattle.desktop_session.specs.Answers.{no_more, or_false, or_none};
ghost use Rattle.desktop_session.specs.Lists.{MoreFollow, NoneFollow, has_more, heads_listed, ids_read, list_reply};
ghost use Rattle.desktop_session.specs.Opens.{IsOpenAs, LeavesOpen};
ghost use Rattle.desktop_session.specs.Requests.{closing, making, opening_in, reading_at, reading_next, reading_of, reading_resource};
ghost use Rattle.desktop_session.specs.Says.{said};
ghost use Rattle.desktop_session.specs.Sessions.{SessionValue};
ghost use Rattle.desktop_session.specs.Starts.{next_start};
ghost use Rattle.desktop_session.specs.Stops.{AsksOne};
ghost use Rattle.desktop_session.specs.Tellings.{AreSayable, IsTellable, IsSayable, device_after, exchanges, number_of, told};
ghost use Rattle.desktop_session.specs.Calls.{OthersStopByLastReply, StopsByErrorReply, StopsByLastReply, reply_said};
ghost use Rattle.desktop_session.specs.Bases.{HasRecord, HasResource, SaysRecord, SaysResource, OpenRecords};

use crate::fault::SessionFault;
use dlp_commands::Link;

/// Over a device whose values keep their bounds the reply to an act is read as what the table says:
/// `BadReply` never comes, and
/// `Refused` only where the table refuses the act.
pub fn replies_tell()
    ensures { (one : Act) (device : Device) → IsTellable device → IsSayable one device
        → reply_at (number_of one) (acted one device).0 ≡ Ok (told one device) }
{}

/// Acts take the device through one step each, in order, and add their exchanges; the bounds stay.
pub fn acts_are_steps()
    ensures ran { (acts : List Act) (device : Device) → AreSayable acts device
        → Ran device (exchanges acts device) (device_after acts device) }
    ensures device { (acts : List Act) (talk : Talk) → (said acts talk).device
        ≡ device_after acts talk.device }
    ensures added { (acts : List Act) (talk : Talk) → (said acts talk).exchanges
        ≡ talk.exchanges ++ exchanges acts talk.device }
    ensures proper { (acts : List Act) (device : Device) → IsTellable device → AreSayable acts device
        → IsTellable (device_after acts device) }
{}

/// Over any link a call that stops for a refusal, or for a reply that can't be read, stops for what the
/// last reply of the link's talk says, read as one to the function of its request, and tells that
/// function: whatever the call takes from the reply, and also where error 5 has an answer of its own.
/// A call that has one never stops for it; where there were none, that reply may refuse with any error.
pub fn refusals_are_the_last_reply<L: Link, A>()
    ensures said { (one : Act) (old new : SessionValue L) (take : ReplyValue → A)
        → AsksOne L.talk L.since L.fault L.downs one old new
        → OthersStopByLastReply one L.talk L.fault new (reply_said one take new) }
    ensures refused { (one : Act) (old new : SessionValue L) (take : ReplyValue → A)
        → AsksOne L.talk L.since L.fault L.downs one old new
        → StopsByErrorReply L.talk L.fault new (reply_said one take new) }
    ensures found { (one : Act) (old new : SessionValue L) (take : ReplyValue → A)
        → AsksOne L.talk L.since L.fault L.downs one old new
        → StopsByLastReply L.talk L.fault new (or_none (reply_said one take new)) }
    ensures removed { (one : Act) (old new : SessionValue L)
        → AsksOne L.talk L.since L.fault L.downs one old new
        → StopsByLastReply L.talk L.fault new (or_false (reply_said one no_more new)) }
{}

/// A database that is opened where nothing is open gets handle 1.
pub fn first_handle_is_one()
    ensures { (device : Device) (mode : ℕ) (name : List ℕ) (handle : ℕ) → device.handles
        ≡ no_handles
        → told (opening_in mode name) device ≡ reply.OpenDb handle → handle ≡ 1 }
{}

/// Over a device whose values keep their bounds a list of its databases takes as many requests as there are, and one where there
/// is none; and it is the list of their heads, without their seeds. Over any device the list goes on one index behind each start, so
/// that the requests are for the indices from 0 on, one after the other.
pub fn lists_are_whole()
    ensures heads { (device : Device) (count : ℕ) → IsTellable device
        → length device.databases ≤ count → count ≤ 65536
        → heads_listed device count ≡ map (λ database. listed database.head) device.databases }
    ensures count { (device : Device) (count : ℕ) → IsTellable device → 0 < count → count ≤ 65536
        → MoreFollow device count → NoneFollow device count
        → count ≡ max 1 (length device.databases) }
    ensures next { (device : Device) (start next : ℕ) → start < 2 ^ 16
        → next_start start (list_reply device start) ≡ Some next → next ≡ start + 1 }
    ensures end { (device : Device) (start : ℕ) → start < 2 ^ 16
        → next_start start (list_reply device start) ≡ None
        → (start ≡ 65535) ⊎ (has_more (list_reply device start) ≡ false) }
{}

/// An open database's handle stands for it, in its mode, from the opening to the closing, whatever is
/// asked in between.
pub fn open_ones_stay_open()
    ensures opened { (device : Device) (mode handle : ℕ) (name : List ℕ)
        → told (opening_in mode name) device ≡ reply.OpenDb handle
        → IsOpenAs handle name mode (acted (opening_in mode name) device).1 }
    ensures made { (device : Device) (head : DbHead) (handle : ℕ)
        → told (making head) device ≡ reply.CreateDb handle
        → IsOpenAs handle head.name 0xC0 (acted (making head) device).1 }
    ensures stays { (one : Act) (device : Device) (handle mode : ℕ) (name : List ℕ)
        → LeavesOpen one.asks.form → IsOpenAs handle name mode device
        → IsOpenAs handle name mode (acted one device).1 }
    ensures closes { (device : Device) (handle mode : ℕ) (name : List ℕ)
        → IsOpenAs handle name mode device → told (closing handle) device ≡ reply.CloseDb }
{}

/// Over a device whose values keep their bounds what is lent says what its record or its resource
/// says, with all its bytes, and the ids are those of the database's records, in their order.
pub fn lent_ones_are_the_devices()
    ensures at { (device : Device) (handle place : ℕ) (item : Record) → place < 2 ^ 16
        → HasRecord device handle (λ base. Some place) item
        → SaysRecord (reading_at handle place) device item }
    ensures by_id { (device : Device) (handle id : ℕ) (item : Record) → id < 2 ^ 32
        → HasRecord device handle (λ base. place_of_id id base.database.records) item
        → SaysRecord (reading_of handle id) device item }
    ensures next { (device : Device) (handle : ℕ) (item : Record)
        → HasRecord device handle (λ base. next_changed base.opened.next base.database.records) item
        → SaysRecord (reading_next handle) device item }
    ensures resource { (device : Device) (handle place : ℕ) (resource : Resource)
        → place < 2 ^ 16 → HasResource device handle place resource
        → SaysResource (reading_resource handle place) device resource }
    ensures ids { (device : Device) (handle count : ℕ) (base : Base)
        → OpenRecords device handle base → count < 2 ^ 16
        → let ids = ids_of base.database.records in
        length ids ≤ count → ids_read device handle count ≡ ids }
{}
