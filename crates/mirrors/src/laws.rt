// What holds of what is planned by a fast reading.
ghost use Rattle.std.specs.Prelude.{◌≡◌, ℕ, Bool, List};
ghost use Rattle.pdb_values.specs.declared.record.Record.{Record};
ghost use Rattle.palm_device.specs.Devices.{Device};
ghost use Rattle.palm_device.specs.Handles.{Base};
ghost use Rattle.conduit_rules.specs.Choices.{sides_of};
ghost use Rattle.mirrors.specs.SamePlans.{HaveSamePlans};
ghost use Rattle.conduit_rules.specs.Views.{IsHonest, fast_view, slow_view};
ghost use Rattle.desktop_session.specs.Tellings.{AreSayable};
ghost use Rattle.desktop_session.specs.Bases.{OpenRecords};
ghost use Rattle.mirrors.specs.FastReads.{IsAtFirst, fast_asks, fast_reads, fast_shown};

/// Where each record that a fast reading passes over is as its base row, a plan, with all its six
/// lists, is one by the fast reading exactly where it is one by the slow one.
pub fn fast_readings_are_planned_as_slow_ones()
    ensures { (base records rows : List Record) (counts : Bool) → IsHonest base records
        → HaveSamePlans (sides_of (fast_view base records) rows base counts)
        (sides_of (slow_view records) rows base counts) }
{}

/// Over a device whose values keep their bounds a fast reading of a database of records, of which no
/// changed record was asked for yet, shows the fast view of the database's records. Of these it asks
/// for each changed one, once more than there are, and for each other one without a base row. Each
/// request fits into a message, so the device takes one step for each, in order.
pub fn fast_readings_show_the_records()
    ensures view { (device : Device) (handle : ℕ) (base : Base) (rows : List Record)
        → OpenRecords device handle base → IsAtFirst base
        → fast_shown rows handle device ≡ fast_view rows base.database.records }
    ensures asks { (device : Device) (handle : ℕ) (base : Base) (rows : List Record)
        → OpenRecords device handle base → IsAtFirst base
        → fast_reads rows handle device ≡ fast_asks rows handle base.database.records }
    ensures fits { (device : Device) (handle : ℕ) (base : Base) (rows : List Record)
        → OpenRecords device handle base → IsAtFirst base
        → AreSayable (fast_reads rows handle device) device }
{}
