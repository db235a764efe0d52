// What holds of what a mirror reads and sends.
ghost use Rattle.std.specs.Prelude.{◌≡◌, ◌^◌, ◌<◌, ◌≤◌, ℕ, List, length};
ghost use Rattle.std.specs.List.{AllByRecursion};
ghost use Rattle.pdb_values.specs.Contents.{ContentValue};
ghost use Rattle.pdb_values.specs.declared.record.Record.{Record};
ghost use Rattle.palm_device.specs.Devices.{Device};
ghost use Rattle.palm_device.specs.Handles.{Base};
ghost use Rattle.conduit_rules.specs.Views.{slow_view};
ghost use Rattle.desktop_session.specs.Tellings.{AreSayable};
ghost use Rattle.desktop_session.specs.Bases.{OpenRecords};
ghost use Rattle.desktop_session.specs.Orders.{TakesRecords};
ghost use Rattle.mirrors.specs.News.{CanPut, CarriesOutPurges, CarriesOutPuts, IsOpenWith};
ghost use Rattle.mirrors.specs.News.{purge_writes, puts};
ghost use Rattle.mirrors.specs.Reads.{entries_told, slow_reads, slow_shown};

/// Over a device whose values keep their bounds a whole reading of an open database of records asks for
/// as many records as there are, and shows them as they are.
pub fn whole_readings_show_the_records()
    ensures count { (device : Device) (handle : ℕ) (base : Base) → OpenRecords device handle base
        → entries_told device handle ≡ length base.database.records }
    ensures view { (device : Device) (handle : ℕ) (base : Base) → OpenRecords device handle base
        → slow_shown device handle ≡ slow_view base.database.records }
{}

/// What a mirror asks for fits into messages, and new records get ids that are free at their turn; so a
/// device takes one step for each request, in order.
pub fn what_is_asked_can_be_said()
    ensures reads { (device : Device) (handle count : ℕ) → handle < 2 ^ 8 → count ≤ 2 ^ 16
        → AreSayable (slow_reads handle count) device }
    ensures puts { (device : Device) (handle : ℕ) (entries : List (ℕ × ContentValue))
        (given : List ℕ) → handle < 2 ^ 8 → CanPut handle entries given device
        → AreSayable (puts handle given entries) device }
    ensures purges { (device : Device) (handle : ℕ) (ids : List ℕ) → handle < 2 ^ 8
        → AllByRecursion (λ (id : ℕ). id ≤ 16777215) ids
        → AreSayable (purge_writes handle ids) device }
{}

/// What becomes of the open database's records: each put and each purge is carried out, in order. A
/// database that may be written and holds records has room for all puts.
pub fn what_is_sent_is_carried_out()
    ensures puts { (device : Device) (handle : ℕ) (base : Base) (records : List Record)
        → IsOpenWith handle base records device → TakesRecords base
        → CarriesOutPuts handle base records device }
    ensures purges { (device : Device) (handle : ℕ) (base : Base) (records : List Record)
        → IsOpenWith handle base records device → TakesRecords base
        → CarriesOutPurges handle base records device }
{}
