//! The piece of a sender that waits.
ghost use Rattle.std.specs.Prelude.{◌≡◌, IfSome, true};
ghost use Rattle.padp_link.specs.FragmentText.{has_flag};
ghost use Rattle.padp_link.specs.FragmentValues.{fragment_value};
ghost use Rattle.padp_link.specs.Senders.{waiting, waiting_key};
ghost use Rattle.padp_end.specs.Ends.{is_acked, is_key, with_answer, is_ready as may_be_taken};

use padp_link::{FIRST, Fragment, Key, LAST, Sender};

/// Whether a data fragment may be taken now.
pub(crate) fn is_ready(sender: &Sender, fragment: &Fragment<'_>) -> bool
    ensures { result ≡ may_be_taken (waiting sender.now) (fragment_value fragment.now) }
{
    match sender.current() {
        Some(piece) => piece.key.flags & LAST != 0 && fragment.flags & FIRST != 0,
        None => true,
    }
}

/// The key that an acknowledgement with this one counts for: that of the piece that waits, where it is all of its message
/// and of the same transaction.
pub(crate) fn counts_for(sender: &Sender, key: Key) -> Key
    ensures { is_key (waiting_key sender.now) result ≡ is_acked (waiting_key sender.now) key }
{
    match sender.current() {
        Some(piece) if piece.key.flags == FIRST + LAST && piece.key.id == key.id => piece.key,
        _ => key,
    }
}

/// A last piece that waits was answered.
#[tactic(auto, using(crate::proofs::WaitingLaws::waits_on_last))]
pub(crate) fn stop_waiting(sender: &mut Sender)
    requires { IfSome (waiting sender.old) (λ piece. has_flag 0x40 piece.key.flags ≡ true) }
    ensures { sender.new ≡ with_answer sender.old }
{
    if sender.current().is_some() {
        sender.on_answer();
    }
}
