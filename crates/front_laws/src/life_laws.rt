//! What holds of a database in one session, and over its whole life: any sessions, and edits between
//! them. Each function here does nothing: its contract is the law.
ghost use Rattle.std.specs.Prelude.{◌≡◌, ℕ, List, [], true, false};
ghost use Rattle.pdb_values.specs.Contents.{ContentValue};
ghost use Rattle.conduit_rules.specs.declared.action.Action.{Action};
ghost use Rattle.conduit_rules.specs.declared.action.Action.TheVariants.{Sync};
ghost use Rattle.front_laws.specs.Lives.{Event, IsFound, IsInPlace, IsLife, IsUnarchived};
ghost use Rattle.front_laws.specs.Lives.{WasLetGoOnDesktop, WasLetGoOnHandheld, after_events};
ghost use Rattle.front_laws.specs.Lives.{is_live_in, is_there, was_there};
ghost use Rattle.front_laws.specs.Repeats.{Ending, Finding, GotAllIds, GotIds, IsRead, ended};

/// A session of both sides loses nothing: a content that was live on a side, and is neither live nor
/// archived at its end, was that of a record that the other side had changed or deleted.
pub fn a_session_loses_nothing()
    ensures desktop { (x : Finding) (given : List ℕ) (c : ContentValue)
        → IsFound x → GotAllIds Sync x given
        → is_live_in c x.rows ≡ true → is_there c (ended Sync x given) ≡ false
        → (i : ℕ) × WasLetGoOnHandheld c x i }
    ensures handheld { (x : Finding) (given : List ℕ) (c : ContentValue)
        → IsFound x → GotAllIds Sync x given
        → is_live_in c x.records ≡ true → is_there c (ended Sync x given) ≡ false
        → (i : ℕ) × WasLetGoOnDesktop c x i }
{}

/// A life loses nothing: over any list of edits, and of sessions that ended or stopped anywhere, a content
/// that was live on a side at first, or came by an edit, and that nothing let go, is live on a side or
/// archived in the end. Such a life begins where both sides never met, and anew behind each session that
/// ended, for what is live there.
pub fn a_life_loses_nothing()
    ensures life { (e : Ending) (events : List Event) (c : ContentValue) → IsLife c events e
        → was_there c events e ≡ true → is_there c (after_events events e) ≡ true }
    ensures first { (e : Ending) (c : ContentValue) → e.base ≡ [] → IsUnarchived c e
        → IsInPlace c e }
    ensures again { (a : Action) (x : Finding) (given : List ℕ) (c : ContentValue)
        → IsRead x → GotIds a x given → is_live_in c (ended a x given).records ≡ true
        → IsInPlace c (ended a x given) }
{}
