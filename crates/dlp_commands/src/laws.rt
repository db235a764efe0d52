// What holds of every step and run of a device.
ghost use Rattle.std.specs.Prelude.{◌≡◌, ◌++◌, ◌<◌, ◌^◌, ℕ, List, Ok, Err, Some, false, get_or};
ghost use Rattle.dlp_requests.specs.declared.fault.RequestFault.{RequestFault};
ghost use Rattle.dlp_requests.specs.RequestReading.{request_at};
ghost use Rattle.dlp_requests.specs.RequestTexts.{request_text};
ghost use Rattle.dlp_requests.specs.RequestValues.{RequestValue};
ghost use Rattle.dlp_requests.specs.Forms as form;
ghost use Rattle.palm_device.specs.Bounds.{IsBounded};
ghost use Rattle.palm_device.specs.Devices.{Device};
ghost use Rattle.palm_device.specs.Handles.{no_handles};
ghost use Rattle.palm_device.specs.Soundness.{IsDevice};
ghost use Rattle.dlp_commands.specs.Changes.{KeepsNamed, KeepsStore, changes, given_in, is_change};
ghost use Rattle.dlp_commands.specs.DeviceRuns.{Exchange, Ran};
ghost use Rattle.dlp_commands.specs.DeviceSteps.{DeviceStep, IsReplyTo, first_byte, function_number, refusal, served, tried};
ghost use Rattle.dlp_commands.specs.Errors.{fault_code};
ghost use Rattle.dlp_commands.specs.Talks.{Talk, WasAnswered, given, ids_given};
ghost use Rattle.dlp_commands.specs.Targets.{is_name, target_of};

/// A step is determined by the device, the request and the id that a new record was given.
pub fn step_is_determined()
    ensures { (old one other : Device) (bytes reply answer : List ℕ)
        (first : DeviceStep old bytes reply one) (last : DeviceStep old bytes answer other)
        → first.free ≡ last.free → (reply ≡ answer) × (one ≡ other) }
{}

/// Runs append, and a run is cut at any place.
pub fn runs_append()
    ensures joined { (old between new : Device) (front back : List Exchange)
        → Ran old front between → Ran between back new → Ran old (front ++ back) new }
    ensures cut { (old new : Device) (front back : List Exchange)
        → Ran old (front ++ back) new → (between : Device) × Ran old front between
        × Ran between back new }
{}

/// A request that is refused, and bytes that are no request, change nothing, and the error is replied.
pub fn refused_changes_nothing()
    ensures refused { (old : Device) (free code : ℕ) (text : List ℕ) (value : RequestValue)
        → request_at text ≡ Ok value → tried free old value ≡ Err code
        → served old free text ≡ refusal old (function_number value) code }
    ensures no_request { (old : Device) (free : ℕ) (bytes : List ℕ) (fault : RequestFault)
        → request_at bytes ≡ Err fault
        → served old free bytes ≡ refusal old (first_byte bytes) (fault_code fault) }
{}

/// A request that reads changes no database and not the user; handles and record indexes at most.
pub fn reading_keeps_databases()
    ensures { (old new : Device) (bytes reply : List ℕ) (value : RequestValue)
        → request_at bytes ≡ Ok value → is_change (function_number value) ≡ false
        → DeviceStep old bytes reply new → KeepsStore old new }
{}

/// The first byte of a request, read or written, says whether it may change databases or the user; and whatever the bytes, where
/// their first byte says no, databases and user stay.
pub fn first_byte_tells_changes()
    ensures read { (bytes : List ℕ) (value : RequestValue)
        → request_at bytes ≡ Ok value → changes bytes ≡ is_change (function_number value) }
    ensures written { (value : RequestValue) → changes (request_text value)
        ≡ is_change (function_number value) }
    ensures stays { (old new : Device) (bytes reply : List ℕ) → changes bytes ≡ false
        → DeviceStep old bytes reply new → KeepsStore old new }
{}

/// A step changes no database but the one of the request's handle, where that is open for writing, the one that CreateDB makes
/// and the one that DeleteDB removes.
pub fn only_the_target_changes()
    ensures { (old new : Device) (bytes reply name : List ℕ) → DeviceStep old bytes reply new
        → is_name name (target_of old (request_at bytes)) ≡ false → KeepsNamed name old new }
{}

/// Names stay in byte order and differ, and there are at most 200; ids within a database stay different, and none is 0; there are
/// eight handles.
pub fn soundness_stays()
    ensures { (old new : Device) (bytes reply : List ℕ)
        → IsDevice old → DeviceStep old bytes reply new → IsDevice new }
{}

/// What a device keeps within the bounds of its types stays within them, whatever bytes come.
pub fn bounds_stay()
    ensures { (old new : Device) (bytes reply : List ℕ) → ((i : ℕ) → get_or bytes i 0 < 2 ^ 8)
        → IsDevice old → IsBounded old → DeviceStep old bytes reply new → IsBounded new }
{}

/// The reply of such a device is the text of a reply, and is read as this reply to the function of the bytes.
pub fn replies_are_read()
    ensures { (old new : Device) (bytes reply : List ℕ)
        → IsDevice old → IsBounded old → DeviceStep old bytes reply new
        → IsReplyTo bytes reply }
{}

/// The ids that exchanges gave to new records append, and an answered request adds its own.
pub fn given_ids_append()
    ensures joined { (front back : List Exchange)
        → ids_given (front ++ back) ≡ ids_given front ++ ids_given back }
    ensures answered { (old new : Talk) (request reply : List ℕ)
        → WasAnswered old request reply (Some new)
        → given new ≡ given old ++ given_in request reply }
{}

/// After EndOfSync nothing is open.
pub fn end_of_sync_closes_all()
    ensures { (old new : Device) (bytes reply : List ℕ) (status : ℕ)
        → request_at bytes ≡ Ok (record { form = form.EndOfSync; fields = (status, tt) })
        → DeviceStep old bytes reply new → new.handles ≡ no_handles }
{}
