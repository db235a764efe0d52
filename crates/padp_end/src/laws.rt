//! What holds of every end. Each function here does nothing: its contract is the law.
ghost use Rattle.std.specs.Prelude.{◌≡◌, ◌≤◌, ℕ, List, [], Some, length, true};
ghost use Rattle.slp_frames.specs.PacketText.{PacketValue};
ghost use Rattle.padp_link.specs.FragmentText.{FragmentValue};
ghost use Rattle.padp_link.specs.Receivers.{whole_of};
ghost use Rattle.padp_end.specs.Ends.{EndValue, end_takes};
ghost use Rattle.padp_end.specs.Laws.{IsRepeatOf};
ghost use Rattle.padp_end.specs.Parts.{SameEndParts, are_end_parts, end_of};
ghost use Rattle.padp_end.specs.declared.heard.Heard.TheVariants.{Message};
ghost use Rattle.padp_end.specs.declared.parts.EndParts.{EndParts};

/// Data that was acknowledged and comes once more is acknowledged once more, and changes nothing.
pub fn a_repeat_is_acknowledged_and_no_more()
    ensures { (end : EndValue) (packet : PacketValue) → IsRepeatOf end packet }
{}

/// At most one packet is said to a packet.
pub fn a_packet_is_answered_by_one_at_most()
    ensures { (end : EndValue) (packet : PacketValue) → length (end_takes end packet).said ≤ 1 }
{}

/// A message that is heard is whole.
pub fn a_message_is_whole()
    ensures { (end : EndValue) (packet : PacketValue) → (end_takes end packet).heard ≡ Message →
        (message : List ℕ) × (whole_of (end_takes end packet).end.receiver.pieces ≡ Some message) }
{}

/// An end has one form of parts.
pub fn parts_of_an_end_are_one()
    ensures { (x y : EndParts) → are_end_parts x ≡ true → are_end_parts y ≡ true
        → end_of y ≡ end_of x → SameEndParts x y }
{}
