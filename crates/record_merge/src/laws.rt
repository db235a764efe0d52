//! What holds of every merge of one database. Each function here does nothing: its contract is the
//! law.
ghost use Rattle.std.specs.Prelude.{◌≡◌, ◌+◌, ◌++◌, ℕ, List, [], Bool, None, length};
ghost use Rattle.pdb_values.specs.Contents.{ContentValue};
ghost use Rattle.pdb_values.specs.declared.record.Record.{Record};
ghost use Rattle.conduit_rules.specs.ById.{id_bound};
ghost use Rattle.conduit_rules.specs.Choices.{Choice, Sides, choice_for, sides_of, without_base};
ghost use Rattle.conduit_rules.specs.States.{SideState};
ghost use Rattle.conduit_rules.specs.Views.{view_held, slow_view, fast_view, IsHonest};
ghost use Rattle.conduit_rules.specs.declared.action.Action.{Action};
ghost use Rattle.conduit_rules.specs.declared.action.Action.TheVariants.{Handheld, Desktop, Both};
ghost use Rattle.conduit_rules.specs.declared.view.Seen.{Seen};
ghost use Rattle.record_merge.specs.Merging.{row_at, merged_rows, merged_base};
ghost use Rattle.record_merge.specs.Merging.{merged_archive, is_archived, AreNew};
ghost use Rattle.record_merge.specs.Stops.{rest_of};
ghost use Rattle.record_merge.specs.Writes.{after, numbered, adding, giving, whole, GotFreeIds};
ghost use Rattle.record_merge.specs.Whole.{AreRecords, EachIsKeptOrAdded, HoldSame, IsSlowMerge, IsStopped, IsTakenUp, IsTakenUpBaseless, MakesMerge, SeesAll, ShowsAll, StaysMerged};
ghost use Rattle.record_merge.specs.Whole.{count_on_desktop, count_on_handheld, greater_count};

/// The writes of a session make the merged records, whichever way the database was read.
pub fn the_writes_make_the_merge()
    ensures slow { (ch : Choice) (given : List ℕ) (records : List Record) → AreRecords records
        → MakesMerge ch (view_held (slow_view records)) given records }
    ensures fast { (ch : Choice) (given : List ℕ) (base records : List Record) → AreRecords records
        → MakesMerge ch (view_held (fast_view base records)) given records }
{}

/// A handheld whose view showed its records has the desktop's rows under every id once the writes are
/// made, and is honest against the new base.
pub fn both_sides_are_equal()
    ensures equal { (ch : Choice) (shown : ℕ → SideState) (given : List ℕ) (records : List Record)
        → SeesAll ch shown given records
        → HoldSame (after (whole ch shown given) records) (merged_rows ch given) }
    ensures honest { (ch : Choice) (shown : ℕ → SideState) (given : List ℕ) (records : List Record)
        → SeesAll ch shown given records
        → IsHonest (merged_base ch shown given) (after (whole ch shown given) records) }
{}

/// Whatever is counted of the merged rows is that of the kept rows and that of the adds.
pub fn each_row_is_kept_or_added()
    ensures { (ch : Choice) (shown : ℕ → SideState) (given : List ℕ) (records : List Record)
        → ShowsAll shown records → GotFreeIds ch shown given records
        → EachIsKeptOrAdded ch given }
{}

/// A session of both sides that stops among its replacements and adds leaves the next one the rest of
/// them, and so does one of both sides without their base. One that goes by the handheld gives it nothing, and
/// one that goes by the desktop is begun anew by the next one.
pub fn a_stopped_session_is_taken_up()
    ensures both { (v : List Seen) (rows base records : List Record) (counts : Bool)
        (given : List ℕ)
        → IsStopped (sides_of v rows base counts) given records
        → IsTakenUp v rows base counts given records }
    ensures baseless { (v : List Seen) (rows base records : List Record) (counts : Bool)
        (given : List ℕ)
        → IsStopped (without_base (sides_of v rows base counts)) given records
        → IsTakenUpBaseless v rows base counts given records }
    ensures handheld { (s : Sides) (given : List ℕ)
        → giving (choice_for Handheld s) s.handheld given ≡ [] }
    ensures desktop { (v w : List Seen) (rows base : List Record) (gone_counts : Bool)
        → choice_for Desktop (sides_of w rows base gone_counts)
        ≡ choice_for Desktop (sides_of v rows base gone_counts) }
{}

/// What a stopped session added stands in the merge of the next one under the ids that it got, and what is
/// added then under those that are given then.
pub fn rows_stand_under_the_ids_of_both_sessions()
    ensures { (ch : Choice) (given later : List ℕ) (i : ℕ)
        → AreNew ch.keep (numbered given ch.adds) id_bound
        → row_at (rest_of (adding (numbered given ch.adds)) ch) later i
        ≡ row_at ch (given ++ later) i }
{}

/// A database that was merged is merged to the same again, whichever sides both sessions go by: its
/// rows are kept, and nothing is archived or added.
pub fn a_merged_database_stays()
    ensures { (a : Action) (rows base records : List Record) (counts : Bool) (given : List ℕ)
        (ch : Choice)
        → IsSlowMerge a rows base counts given records ch → StaysMerged ch given records }
{}

/// A database that goes by both sides without their base has each content live on both sides as often as the
/// side had it live that had it more often, and no other.
pub fn what_is_live_on_a_side_stays()
    ensures { (rows base records : List Record) (counts : Bool) (given : List ℕ) (ch : Choice)
        (c : ContentValue)
        → IsSlowMerge Both rows base counts given records ch → length given ≡ length ch.adds
        → (count_on_handheld ch given records c ≡ greater_count records rows c)
        × (count_on_desktop ch given c ≡ greater_count records rows c) }
{}

/// An archive has the entries that were there and the new ones, and no others.
pub fn an_archive_has_each_entry()
    ensures { (ch : Choice) (old : List (ℕ × ContentValue)) (e : ℕ × ContentValue)
        → is_archived e (merged_archive ch old) ≡ is_archived e (old ++ ch.archive) }
{}
