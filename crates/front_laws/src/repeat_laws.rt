//! What holds of a database between sessions that stopped and the next one. Each function here does
//! nothing: its contract is the law.
ghost use Rattle.std.specs.Prelude.{◌≡◌, ◌++◌, ℕ, List, Bool, false};
ghost use Rattle.conduit_rules.specs.declared.action.Action.{Action};
ghost use Rattle.conduit_rules.specs.declared.action.Action.TheVariants.{Sync, Handheld, Desktop, Both};
ghost use Rattle.conduit_rules.specs.declared.view.Seen.{Seen};
ghost use Rattle.front_laws.specs.Losses.{loses_rows};
ghost use Rattle.front_laws.specs.Repeats.{EndsLike, Finding, GotIds, IsRead, IsSession, Place, ended};
ghost use Rattle.front_laws.specs.Repeats.{StopsAmongNews, left_among_news, left_behind_commit};
ghost use Rattle.front_laws.specs.Renaming.{AreSessions, GotNewIds, SameEnds};
ghost use Rattle.front_laws.specs.Repeats.{left_at_end, AreStops, left_by, all_ids};

/// A session of both sides that stops among its replacements and adds is taken up by the next one: that
/// ends at the merge of what the first one found, under the ids that were given in both.
pub fn news_are_taken_up()
    ensures { (x : Finding) (given later : List ℕ) (n : ℕ)
        → StopsAmongNews Sync x given n
        → let y = left_among_news Sync x given n in
        GotIds Sync y later
        → ended Sync y later ≡ ended Sync x (given ++ later) }
{}

/// A session of both sides without their base that stops among its replacements and adds is taken up too.
pub fn what_is_live_is_taken_up()
    ensures { (x : Finding) (given later : List ℕ) (n : ℕ)
        → StopsAmongNews Both x given n
        → let y = left_among_news Both x given n in
        GotIds Both y later
        → ended Both y later ≡ ended Both x (given ++ later) }
{}

/// A session that goes by the handheld and stops before the desktop's commit has given it nothing, and the
/// next one ends as it would have ended.
pub fn a_handheld_is_read_again()
    ensures { (x : Finding) (given later : List ℕ) (n : ℕ) → IsRead x
        → let y = left_among_news Handheld x given n in
        ended Handheld y later ≡ ended Handheld x later }
{}

/// A session that goes by the desktop and stops among its replacements and adds is begun anew by the next
/// one, under the ids that are given then: what was added before is purged.
pub fn a_desktop_is_sent_again()
    ensures { (x : Finding) (given later : List ℕ) (n : ℕ) → IsSession Desktop x given
        → let y = left_among_news Desktop x given n in
        GotIds Desktop y later → EndsLike Desktop y later x later }
{}

/// A session that stops behind the desktop's commit, anywhere among its purges, its clean up and its reset,
/// is ended by the next one as it would have ended.
pub fn purges_are_taken_up()
    ensures { (a : Action) (x : Finding) (given later : List ℕ) (n : ℕ) → IsSession a x given
        → EndsLike a (left_behind_commit a x given n) later x given }
{}

/// A session that costs the desktop no live row of a database costs it none where it is run again, wherever
/// it stopped; and behind the desktop's commit it costs it none, whatever the one that stopped did.
pub fn a_stop_costs_no_row()
    ensures news { (x : Finding) (given : List ℕ) (n : ℕ) → StopsAmongNews Sync x given n
        → loses_rows x ≡ false
        → loses_rows (left_among_news Sync x given n) ≡ false }
    ensures commit { (x : Finding) (given : List ℕ) (n : ℕ) → IsRead x → GotIds Sync x given
        → loses_rows (left_behind_commit Sync x given n) ≡ false }
    ensures end { (x : Finding) (given : List ℕ) (view : List Seen) (gone_counts : Bool) → IsRead x
        → GotIds Sync x given
        → let y = left_at_end Sync x given view gone_counts in
        IsRead y → loses_rows y ≡ false }
{}

/// What is merged on both sides stays as it is, whichever sides the sessions go by, and whichever way the
/// next one reads.
pub fn an_ended_session_is_not_undone()
    ensures { (a : Action) (x : Finding) (given later : List ℕ) (view : List Seen)
        (gone : Bool)
        → IsSession a x given
        → let y = left_at_end a x given view gone in
        IsRead y → EndsLike a y later x given }
{}

/// After any number of sessions that stopped, wherever each did, the one that ends is as if the first had
/// ended, under the ids that were given in all of them; where they go by the desktop, under those from the
/// commit on.
pub fn stopped_sessions_end_as_one()
    ensures { (a : Action) (x : Finding) (places : List Place) (later : List ℕ) → IsRead x
        → AreStops a x places
        → let y = left_by a x places in
        GotIds a y later
        → EndsLike a y later x (all_ids a places later) }
{}

/// Which ids the new records got doesn't matter, as long as nothing had them.
pub fn new_ids_are_of_no_account()
    ensures { (a : Action) (x : Finding) (given other : List ℕ) → IsRead x
        → GotNewIds a x given → GotNewIds a x other
        → SameEnds x (ended a x given) (ended a x other) }
{}

/// After any number of sessions that stopped, the one that ends leaves what one whole session would have
/// left, whichever ids that one would have given to its new records.
pub fn nothing_is_doubled_or_lost()
    ensures { (a : Action) (x : Finding) (places : List Place) (later new : List ℕ)
        → AreSessions a x places later → GotNewIds a x new
        → SameEnds x (ended a (left_by a x places) later) (ended a x new) }
{}
