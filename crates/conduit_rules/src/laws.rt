//! What holds of every choice. Each function here does nothing: its contract is the law.
ghost use Rattle.std.specs.Prelude.{◌≡◌, ◌+◌, ℕ, List, [], Bool, true, false, Some, max};
ghost use Rattle.pdb_values.specs.Contents.{ContentValue};
ghost use Rattle.pdb_values.specs.declared.record.Record.{Record};
ghost use Rattle.conduit_rules.specs.Choices.{Sides, choice, choice_for, contents_of, live_held, sides_of, without_base};
ghost use Rattle.conduit_rules.specs.Choices.{by_handheld, by_desktop};
ghost use Rattle.conduit_rules.specs.Contents.{same_content, count_of};
ghost use Rattle.conduit_rules.specs.Fates.{cell, gone_cell, unbased, named, stands};
ghost use Rattle.conduit_rules.specs.News.{unpaired};
ghost use Rattle.conduit_rules.specs.Plans.{kept_rows, replaced_rows, purged_ids};
ghost use Rattle.conduit_rules.specs.States.{SideState, content_of};
ghost use Rattle.conduit_rules.specs.Views.{slow_view, fast_view, IsHonest};
ghost use Rattle.conduit_rules.specs.declared.view.Seen.{Seen};
ghost use Rattle.conduit_rules.specs.declared.action.Action.TheVariants.{Sync as ActionSync};
ghost use Rattle.conduit_rules.specs.declared.action.Action.TheVariants.{Handheld as ActionHandheld};
ghost use Rattle.conduit_rules.specs.declared.action.Action.TheVariants.{Desktop as ActionDesktop};
ghost use Rattle.conduit_rules.specs.declared.action.Action.TheVariants.{Both as ActionBoth};

/// A database that goes by its handheld keeps its live records and archives its archived ones: nothing
/// is added or written over, and nothing is deleted one by one.
pub fn the_handheld_is_kept()
    ensures choice { (s : Sides) → choice_for ActionHandheld s ≡ by_handheld s }
    ensures unwritten { (s : Sides)
        → (replaced_rows (choice_for ActionHandheld s).keep s.handheld ≡ [])
        × (purged_ids (choice_for ActionHandheld s).keep s.handheld ≡ []) }
{}

/// A database that goes by its desktop gets the desktop's rows.
pub fn the_desktop_is_kept()
    ensures { (s : Sides) → choice_for ActionDesktop s ≡ by_desktop s }
{}

/// A database that goes by both sides as if they had never met is synchronised as one whose base has no row:
/// each content is live as often as it was on the side that had it more often, and no other is.
pub fn both_sides_are_kept()
    ensures choice { (s : Sides) → choice_for ActionBoth s ≡ choice (without_base s) }
    ensures base { (v : List Seen) (rows base : List Record) (gone_counts : Bool)
        → without_base (sides_of v rows base gone_counts) ≡ sides_of v rows [] gone_counts }
    ensures counted { (s : Sides) (c : ContentValue) → let ch = choice_for ActionBoth s in
        count_of c (contents_of (kept_rows ch.keep)) + count_of c ch.adds
        ≡ max (count_of c (live_held s)) (count_of c s.all_live) }
{}

/// A database that goes by both sides is synchronised by the table: what a side changed, and what the
/// handheld made, is kept, archived or new.
pub fn no_change_is_lost()
    ensures sync { (s : Sides) → choice_for ActionSync s ≡ choice s }
    ensures handheld { (b c : ContentValue) (h d : SideState)
        → content_of h ≡ Some c → same_content c b ≡ false → stands c (named (cell b h d)) ≡ true }
    ensures desktop { (b c : ContentValue) (h d : SideState)
        → content_of d ≡ Some c → same_content c b ≡ false → stands c (named (cell b h d)) ≡ true }
    ensures gone { (b c : ContentValue) (h : SideState)
        → content_of h ≡ Some c → same_content c b ≡ false → stands c (named (gone_cell b h))
        ≡ true }
    ensures new { (c : ContentValue) (h : SideState)
        → content_of h ≡ Some c → stands c (named (unbased h)) ≡ true }
{}

/// Of each new content as many stay as the side has that has more of it.
pub fn the_greater_count_is_kept()
    ensures { (c : ContentValue) (mates news : List ContentValue)
        → count_of c mates + count_of c (unpaired (λ x. count_of x mates) news)
        ≡ max (count_of c mates) (count_of c news) }
{}

/// A fast reading of an honest handheld shows what a slow one shows, so that the plans are the same.
pub fn a_fast_reading_is_as_good()
    ensures { (base records rows : List Record) (gone_counts : Bool) → IsHonest base records
        → sides_of (fast_view base records) rows base gone_counts
        ≡ sides_of (slow_view records) rows base gone_counts }
{}
