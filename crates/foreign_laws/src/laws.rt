//! What a handheld of another make is, and how it lists. Each function here does nothing: its contract is the law.
ghost use Rattle.std.specs.Prelude.{◌≡◌, ℕ, List, Ok};
ghost use Rattle.pdb_values.specs.declared.head.DbHead.{DbHead};
ghost use Rattle.dlp_requests.specs.RequestTexts.{IsRequest, request_text};
ghost use Rattle.dlp_requests.specs.RequestValues.{RequestValue};
ghost use Rattle.palm_device.specs.Devices.{Device};
ghost use Rattle.dlp_commands.specs.DeviceSteps.{DeviceStep};
ghost use Rattle.dlp_commands.specs.Tries.{Try};
ghost use Rattle.desktop_session.specs.Greeted.{lists_all};
ghost use Rattle.desktop_session.specs.Inquiries.{After, Ends, Inquiry};
ghost use Rattle.desktop_session.specs.Tellings.{IsTellable};
ghost use Rattle.foreign_laws.specs.Alike.{GiveTheSame};
ghost use Rattle.foreign_laws.specs.Endings.{EndsOver, TakesEach};
ghost use Rattle.foreign_laws.specs.Foreign.{Foreign, ForeignStep, HasEachHead, IsAskedAlone, IsForeign, as_foreign, own_heads};
ghost use Rattle.foreign_laws.specs.Links.{ChangesBy};
ghost use Rattle.foreign_laws.specs.Twins.{TwinsJoin};

/// Our own device is such a handheld, too: each of its steps by a request of a session that has nothing else open is
/// one of those steps.
pub fn our_own_device_is_one()
    ensures { (old new : Device) (request : RequestValue) (answer : List ℕ) → IsTellable old
        → IsRequest request → IsAskedAlone old request.form request.fields
        → DeviceStep old (request_text request) answer new
        → ForeignStep (as_foreign old) (request_text request) answer (as_foreign new) }
{}

/// Whatever it refuses, and wherever a session stops: what it keeps changes by steps of our own device alone, in order,
/// one or none by each request.
pub fn it_changes_by_our_steps_alone()
    ensures { (old new : Foreign) (tries : List Try) → TakesEach ForeignStep old tries new
        → ChangesBy old.device tries new.device }
{}

/// Tries that follow an inquiry to its end, and that it took, are an end of the inquiry over it.
pub fn tries_are_an_end<A>()
    ensures { (asked : Inquiry A) (tries : List Try) (old new : Foreign) (x : A)
        → After asked tries (Ends (Ok x)) → TakesEach ForeignStep old tries new
        → EndsOver ForeignStep asked old x new }
{}

/// Parts that have twins, one behind the other, have one as a whole.
pub fn parts_have_a_twin<A, B>()
    ensures { (part own : Inquiry A) (next later : A → Inquiry B) → TwinsJoin part own next later }
{}

/// A list of the databases has each of them once, whatever their indices are, and in however many replies it comes.
pub fn a_list_has_each_database_once()
    ensures { (old new : Foreign) (heads : List DbHead) → IsForeign old
        → EndsOver ForeignStep lists_all old heads new → HasEachHead old heads new }
{}

/// That of our own device has them in the order of their names.
pub fn our_own_list_has_them_in_order()
    ensures { (device : Device) → IsTellable device
        → EndsOver DeviceStep lists_all device (own_heads device.databases) device }
{}

/// In whatever order they are listed, a session does the same for the same databases.
pub fn the_order_of_a_list_is_no_matter()
    ensures { (old new : Foreign) (heads : List DbHead) → IsForeign old
        → HasEachHead old heads new → GiveTheSame heads (own_heads old.device.databases) }
{}
