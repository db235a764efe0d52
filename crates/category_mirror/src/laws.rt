// What holds of categories that were brought together. Each function here does nothing: its contract is the law.
ghost use Rattle.conduit_rules.specs.declared.table.Side.{Side};
ghost use Rattle.std.specs.Prelude.{◌≡◌, ◌≢◌, ℕ, IsSome, List, [], None, Option, Some, false, map, true};
ghost use Rattle.pdb_values.specs.Databases.{DatabaseValue};
ghost use Rattle.pdb_values.specs.declared.user.Marks.{Marks};
ghost use Rattle.mirrors.specs.Agreements.{agreed};
ghost use Rattle.palm_device.specs.Devices.{Device};
ghost use Rattle.desktop_session.specs.Acts.{text};
ghost use Rattle.desktop_session.specs.Orders.{AreInOrder};
ghost use Rattle.desktop_session.specs.Tellings.{device_after};
ghost use Rattle.session_parts.specs.Fronts.{Front};
ghost use Rattle.session_parts.specs.Rests.{IsAtRest};
ghost use Rattle.category_tables.specs.Tables.{TableValue};
ghost use Rattle.category_tables.specs.Swaps.{AreSwapped};
ghost use Rattle.category_mirror.specs.Blocks.{MergeValue, begins_with, merged_block, written_block};
ghost use Rattle.category_mirror.specs.Filings.{AreOfCategories, UndoesSwap, filed_again, filed_block, filed_rows};
ghost use Rattle.category_mirror.specs.Refiled.{is_refiled, refiled_rows};
ghost use Rattle.category_mirror.specs.Edits.{AreRowsOf, RowsGoApart, is_edited, row_state};
ghost use Rattle.category_mirror.specs.Sides.{filed_rows as rows_filed};
ghost use Rattle.category_mirror.specs.Sides.{Filing, StandsBehind, block_writes, device_among, filed_base, filed_device, filed_slots, filing_acts, filing_changes, filing_of};
ghost use Rattle.category_mirror.specs.FilingEnds.{IsFileable};
ghost use Rattle.desk_store.specs.Shelves.{SlotValue};

/// Where a session stopped once the handheld had its merged block, and the next one ends, both sides have what the first would have left:
/// before the desktop's commit, and behind it.
pub fn a_stopped_session_is_made_up_for()
    ensures block_before { (handheld : Option (List ℕ)) (rows : DatabaseValue)
        → filed_block (filed_block handheld rows) rows ≡ filed_block handheld rows }
    ensures rows_before { (handheld : Option (List ℕ)) (rows : DatabaseValue)
        → filed_rows (filed_block handheld rows) rows ≡ filed_rows handheld rows }
    ensures block_behind { (handheld : Option (List ℕ)) (rows : DatabaseValue)
        → AreOfCategories rows.records
        → filed_block (filed_block handheld rows) (filed_rows handheld rows)
        ≡ filed_block handheld rows }
    ensures rows_behind { (handheld : Option (List ℕ)) (rows : DatabaseValue)
        → AreOfCategories rows.records
        → filed_rows (filed_block handheld rows) (filed_rows handheld rows)
        ≡ filed_rows handheld rows }
{}

/// A session behind one that ended, where nothing changed on either side, writes no block, and no row changes on the desktop.
pub fn a_second_session_changes_nothing()
    ensures block { (handheld : Option (List ℕ)) (rows : DatabaseValue)
        → AreOfCategories rows.records
        → written_block (filed_block handheld rows) (filed_again handheld rows) ≡ None }
    ensures rows { (handheld : Option (List ℕ)) (rows : DatabaseValue) (merge : MergeValue)
        → AreOfCategories rows.records
        → filed_again handheld rows ≡ Some merge
        → is_refiled merge (filed_rows handheld rows) ≡ false }
{}

/// Records whose desktop exchanged two of the handheld's numbers, in its table and in each of them, get their own numbers again.
pub fn a_swap_is_undone()
    ensures { (handheld desktop : TableValue) (i j : ℕ) → AreSwapped i j handheld desktop
        → UndoesSwap handheld desktop i j }
{}

/// What the run behind it finds of the desktop: no row counts as edited that didn't, and what a row was against its base row it still is,
/// where two contents of one text that are in different categories go to different ones.
pub fn no_record_counts_as_edited()
    ensures unedited { (filing : Filing) (name : List ℕ) (rows base : DatabaseValue) (id : ℕ) (side : Side)
        → AreRowsOf filing name rows base → is_edited side ≡ false
        → row_state rows.records base.records id ≡ Some side
        → row_state (rows_filed filing rows).records (filed_base filing base).records id ≡ Some side }
    ensures states { (filing : Filing) (name : List ℕ) (rows base : DatabaseValue) (id : ℕ)
        → AreRowsOf filing name rows base → RowsGoApart filing name rows.records base.records id
        → row_state (rows_filed filing rows).records (filed_base filing base).records id
        ≡ row_state rows.records base.records id }
{}

/// Behind a session that changed the desktop both sides do not agree, so that the next one reads everything.
pub fn what_moved_is_read_whole()
    ensures { (filing : Filing) (marks : Marks) → filing_changes filing ≢ [] → marks.pc ≢ 0
        → agreed (filed_device filing).user marks ≡ false }
{}

/// A block that begins with the merged table stays as it is where that is put at its head, and rows with a block that do not change stay as
/// they are.
pub fn what_does_not_change_stays()
    ensures block { (table : TableValue) (block : List ℕ) → begins_with table block ≡ true
        → merged_block table block ≡ block }
    ensures rows { (merge : MergeValue) (rows : DatabaseValue) → IsSome rows.app
        → is_refiled merge rows ≡ false → refiled_rows merge rows ≡ rows }
{}

/// On a handheld on which nothing is open each request of a session may be asked at its turn, and behind them all each of its databases has
/// its merged table, the handheld knows no desktop where the desktop's rows change, and all else is as it was.
pub fn filings_arrive()
    ensures order { (filing : Filing) → IsAtRest filing.device
        → AreInOrder (filing_acts filing) filing.device }
    ensures device { (filing : Filing) → IsAtRest filing.device
        → device_after (filing_acts filing) filing.device ≡ filed_device filing }
{}

/// Wherever a session stops, the first databases of it have their merged tables on a handheld on which nothing was open, as many as blocks
/// were written, and the others are as they were; so is its user, or all blocks are written and the handheld is marked.
pub fn blocks_are_written_in_turn()
    ensures { (filing : Filing) (after : Device) (writes : ℕ) (given : List ℕ)
        → IsAtRest filing.device
        → Front filing.device (map text (filing_acts filing)) writes given after
        → StandsBehind filing writes after }
{}

/// Where a session stopped before the desktop's commit, whichever of the handheld's databases had their merged tables by then, and whether
/// it was marked or not, and the next one ends, both sides have what the first would have left.
pub fn sessions_that_stopped_are_made_up_for()
    ensures handheld { (device : Device) (slots : List SlotValue) (done : List (List ℕ))
        → filed_device (filing_of (device_among (filing_of device slots) done) slots)
        ≡ filed_device (filing_of device slots) }
    ensures desktop { (device : Device) (slots : List SlotValue) (done : List (List ℕ))
        → filed_slots (filing_of (device_among (filing_of device slots) done) slots)
        ≡ filed_slots (filing_of device slots) }
    ensures marked_handheld { (device : Device) (slots : List SlotValue) → IsAtRest device
        → let first = filing_of device slots in
        filed_device (filing_of (filed_device first) slots) ≡ filed_device first }
    ensures marked_desktop { (device : Device) (slots : List SlotValue) → IsAtRest device
        → let first = filing_of device slots in
        filed_slots (filing_of (filed_device first) slots) ≡ filed_slots first }
{}

/// A session behind one that ended, or that stopped behind the desktop's commit, writes no block, commits nothing, and leaves both sides as
/// they are.
pub fn a_session_behind_another_changes_nothing()
    ensures handheld { (device : Device) (slots : List SlotValue) → IsFileable device slots
        → let first = filing_of device slots in
        filed_device (filing_of (filed_device first) (filed_slots first)) ≡ filed_device first }
    ensures desktop { (device : Device) (slots : List SlotValue) → IsFileable device slots
        → let first = filing_of device slots in
        filed_slots (filing_of (filed_device first) (filed_slots first)) ≡ filed_slots first }
    ensures commit { (device : Device) (slots : List SlotValue) → IsFileable device slots
        → let first = filing_of device slots in
        filing_changes (filing_of (filed_device first) (filed_slots first)) ≡ [] }
    ensures writes { (device : Device) (slots : List SlotValue) → IsFileable device slots
        → let first = filing_of device slots in
        block_writes (filing_of (filed_device first) (filed_slots first)) ≡ 0 }
{}
