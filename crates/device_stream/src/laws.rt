//! What holds of every talk. Each function here does nothing: its contract is the law.
ghost use Rattle.std.specs.Prelude.{◌≡◌, List, true};
ghost use Rattle.dlp_commands.specs.DeviceRuns.{DeviceRun};
ghost use Rattle.padp_end.specs.Outgoings.{OutgoingFragment};
ghost use Rattle.palm_device.specs.Devices.{Device};
ghost use Rattle.slp_frames.specs.PacketText.{PacketValue};
ghost use Rattle.device_stream.specs.Alikeness.{Alike, GoesOnFrom, SaysAlike, TakesAlike, TalksAlike};
ghost use Rattle.device_stream.specs.Hands.{Hand, waited_by, woken};
ghost use Rattle.device_stream.specs.Laws.{DidOnce, DoesNothingAgain};
ghost use Rattle.device_stream.specs.Parts.{SameTalkParts, are_talk_parts, hand_of};
ghost use Rattle.device_stream.specs.Talks.{Takes, Talks};
ghost use Rattle.device_stream.specs.declared.parts.TalkParts.{TalkParts};

/// A packet performs one request at most, by one step of the device.
pub fn a_step_performs_once()
    ensures { (old new : Hand) (packet : PacketValue) (said : List OutgoingFragment)
        → Takes old packet said new → DidOnce old new }
{}

/// Whatever packets come: what a talk performed is a run of its device, with the replies of that run.
pub fn a_talk_is_a_run()
    ensures { (device : Device) (packets : List PacketValue) (said : List OutgoingFragment)
        (hand : Hand) → Talks (woken device) packets said hand
        → DeviceRun device hand.performed hand.replies hand.device }
{}

/// Data that was just taken and comes once more is acknowledged, and does nothing else.
pub fn a_repeat_does_nothing()
    ensures { (old new : Hand) (packet : PacketValue) (said : List OutgoingFragment)
        → Takes old packet said new → DoesNothingAgain packet said new }
{}

/// Hands that are alike say the same to a packet, to packets and to silence, and are alike afterwards.
pub fn alike_hands_talk_alike()
    ensures takes { (x y new : Hand) (packet : PacketValue) (said : List OutgoingFragment)
        → Alike x y → Takes x packet said new → TakesAlike y packet said new }
    ensures talks { (x y new : Hand) (packets : List PacketValue) (said : List OutgoingFragment)
        → Alike x y → Talks x packets said new → TalksAlike y packets said new }
    ensures waits { (x y : Hand) → Alike x y → SaysAlike (waited_by x) (waited_by y) }
{}

/// Each hand is alike itself, and hands are alike both ways and through a third.
pub fn alikeness_is_an_equivalence()
    ensures itself { (x : Hand) → Alike x x }
    ensures back { (x y : Hand) → Alike x y → Alike y x }
    ensures through { (x y z : Hand) → Alike x y → Alike y z → Alike x z }
{}

/// A talk that is taken apart between two packets, and made again, is one talk.
pub fn a_talk_made_again_goes_on()
    ensures { (first apart made : Hand) (packets : List PacketValue)
        (said : List OutgoingFragment) → Talks first packets said apart → Alike apart made
        → GoesOnFrom first packets said made }
{}

/// A talk has one form of parts.
pub fn parts_of_a_talk_are_one()
    ensures { (device other : Device) (x y : TalkParts) → are_talk_parts x ≡ true
        → are_talk_parts y ≡ true → Alike (hand_of device x) (hand_of other y) → SameTalkParts x y }
{}
