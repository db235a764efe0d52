//! What a session asks of a handheld of another make, request by request: it has a twin over our own device. Each
//! function here does nothing: its contract is the law.
ghost use Rattle.std.specs.Prelude.{ℕ, List};
ghost use Rattle.pdb_values.specs.Contents.{ContentValue};
ghost use Rattle.pdb_values.specs.declared.head.DbHead.{DbHead};
ghost use Rattle.pdb_values.specs.declared.record.Record.{Record};
ghost use Rattle.pdb_values.specs.declared.user.Marks.{Marks};
ghost use Rattle.pdb_values.specs.declared.user.UserInfo.{UserInfo};
ghost use Rattle.conduit_rules.specs.declared.planned.Plan.{Plan};
ghost use Rattle.desktop_session.specs.Asking.{cleans, closes, copies_app, copies_sort, ends, makes, marks, opens, puts_one, removes, resets, writes_app, writes_sort};
ghost use Rattle.desktop_session.specs.Greeted.{greets};
ghost use Rattle.desktop_session.specs.Inquiries.{Inquiry};
ghost use Rattle.desktop_session.specs.Lendings.{counts, lends_at, lends_next, lends_of};
ghost use Rattle.desktop_session.specs.declared.seat.UserWish.{UserWish};
ghost use Rattle.mirrors.specs.ReadInquiries.{reads_fast, reads_ids, reads_slowly};
ghost use Rattle.mirrors.specs.WriteInquiries.{purges, sends_news};
ghost use Rattle.session_parts.specs.Inquiries.{under};
ghost use Rattle.foreign_laws.specs.Twins.{EndsAlike, HasTwin, OpensAlike};

/// The greeting, a mark of the user and the end go alike.
pub fn a_user_is_greeted_and_marked_alike()
    ensures greets { (marks : List Marks) (wish : UserWish) → EndsAlike (greets marks wish) }
    ensures marks { (mark : UserInfo) (bits : ℕ) → EndsAlike (marks mark bits) }
    ensures ends { EndsAlike ends }
{}

/// A database is opened or made under a handle of its own, where ours tells handle 1.
pub fn a_handle_has_a_twin()
    ensures opens { (mode : ℕ) (name : List ℕ) → OpensAlike (opens mode name) }
    ensures makes { (head : DbHead) → OpensAlike (makes head) }
    ensures closes { (handle : ℕ) → HasTwin (closes handle) (closes 1) }
{}

/// What is asked under the handle that an opening tells ends alike, where it has a twin under each handle.
pub fn what_is_under_a_handle_ends_alike<A>()
    ensures { (opening : Inquiry ℕ) (inner : ℕ → Inquiry A) → OpensAlike opening
        → ((handle : ℕ) → HasTwin (inner handle) (inner 1)) → EndsAlike (under opening inner) }
{}

/// The number of entries is that of the twin.
pub fn a_count_has_a_twin()
    ensures { (handle : ℕ) → HasTwin (counts handle) (counts 1) }
{}

/// A record that is lent is that of the twin: one that comes cut stops the session.
pub fn a_record_has_a_twin()
    ensures by_index { (handle index : ℕ) → HasTwin (lends_at handle index) (lends_at 1 index) }
    ensures by_id { (handle id : ℕ) → HasTwin (lends_of handle id) (lends_of 1 id) }
    ensures changed { (handle : ℕ) → HasTwin (lends_next handle) (lends_next 1) }
{}

/// The ids of all records are those of the twin, however many a reply has.
pub fn ids_have_a_twin()
    ensures { (handle : ℕ) → HasTwin (reads_ids handle) (reads_ids 1) }
{}

/// Both blocks are those of the twin.
pub fn a_block_has_a_twin()
    ensures app { (handle : ℕ) → HasTwin (copies_app handle) (copies_app 1) }
    ensures sort { (handle : ℕ) → HasTwin (copies_sort handle) (copies_sort 1) }
{}

/// What is written of a database is written of the twin, and a new record gets the same id.
pub fn a_write_has_a_twin()
    ensures puts { (handle id : ℕ) (content : ContentValue)
        → HasTwin (puts_one handle id content) (puts_one 1 id content) }
    ensures removes { (handle id : ℕ) → HasTwin (removes handle id) (removes 1 id) }
    ensures cleans { (handle : ℕ) → HasTwin (cleans handle) (cleans 1) }
    ensures resets { (handle : ℕ) → HasTwin (resets handle) (resets 1) }
    ensures app { (handle : ℕ) (bytes : List ℕ)
        → HasTwin (writes_app handle bytes) (writes_app 1 bytes) }
    ensures sort { (handle : ℕ) (bytes : List ℕ)
        → HasTwin (writes_sort handle bytes) (writes_sort 1 bytes) }
{}

/// A whole reading sees what it sees of the twin.
pub fn a_whole_reading_has_a_twin()
    ensures { (handle : ℕ) → HasTwin (reads_slowly handle) (reads_slowly 1) }
{}

/// So does a reading of what changed since these base rows.
pub fn a_fast_reading_has_a_twin()
    ensures { (base : List Record) (handle : ℕ) → HasTwin (reads_fast base handle) (reads_fast base 1) }
{}

/// The news of a plan go to the twin as well.
pub fn news_have_a_twin()
    ensures { (handle : ℕ) (plan : Plan) → HasTwin (sends_news handle plan) (sends_news 1 plan) }
{}

/// What goes is lost of the twin as well.
pub fn a_purge_has_a_twin()
    ensures { (handle : ℕ) (ids : List ℕ) → HasTwin (purges handle ids) (purges 1 ids) }
{}
