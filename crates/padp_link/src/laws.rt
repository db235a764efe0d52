//! What holds of all fragments and of all pieces. Each function here does nothing: its contract is the
//! law.
ghost use Rattle.std.specs.Prelude.{◌≡◌, ◌+◌, ◌<◌, ◌≤◌, List, ℕ, Some, [], length};
ghost use Rattle.padp_link.specs.FragmentText.{FragmentValue, FragmentText, IsFragment};
ghost use Rattle.padp_link.specs.Neighbours.{Outgoing, Neighbours, HaveDifferentIds, HaveDifferentKeys, all_pieces, session_from};
ghost use Rattle.std.specs.List.{AllByRecursion};
ghost use Rattle.padp_link.specs.Pieces.{fragment_of, fragments, piece_of};
ghost use Rattle.padp_link.specs.Receivers.{ReceiverValue, GetsMessage, WhereAwaited};
ghost use Rattle.padp_link.specs.Senders.{SenderValue, waiting};
ghost use Rattle.padp_link.specs.declared.fragment.PadpKind.TheVariants.{Ack, Data};
ghost use Rattle.padp_link.specs.declared.piece.Piece.{Piece};
ghost use Rattle.padp_link.specs.declared.receiver.Taken.{Taken};

/// No bytes are the text of two fragments.
pub fn text_determines_fragment()
    ensures { (x y : FragmentValue) (bytes : List ℕ) → FragmentText x bytes → FragmentText y bytes
        → x ≡ y }
{}

/// Where neighbouring messages have different ids, neighbouring pieces have different keys: within a
/// message and from one message to the next, however often ids come round.
pub fn neighbours_have_different_keys()
    ensures { (messages : List Outgoing) → Neighbours HaveDifferentIds messages
        → Neighbours HaveDifferentKeys (all_pieces messages) }
{}

/// So have the pieces of all that an end sends in a session: its greeting has the id 255, and what it
/// sends behind that has 1 to 253, coming round.
pub fn keys_differ_in_a_session()
    ensures { (lengths : List ℕ) → Neighbours HaveDifferentKeys
        (all_pieces (session_from 0 lengths)) }
{}

/// Each piece of a message makes a fragment of the protocol.
pub fn pieces_are_fragments()
    ensures { (id : ℕ) (message : List ℕ) → AllByRecursion IsFragment (fragments id message) }
{}

/// A receiver that waits for a message takes its pieces, one after the other, and then has the message.
pub fn pieces_give_the_message()
    ensures { (id : ℕ) (message : List ℕ) (receiver end : ReceiverValue) (answers : List Taken)
        → WhereAwaited receiver id message (GetsMessage receiver id message answers end) }
{}

/// The piece of a message that waits ends inside the message, and its fragment is one of the protocol.
pub fn waiting_piece_is_a_fragment()
    ensures inside { (sender : SenderValue) (message : List ℕ) (piece : Piece)
        → length message ≡ sender.length → waiting sender ≡ Some piece
        → piece.place + piece.length ≤ sender.length }
    ensures fragment { (sender : SenderValue) (message : List ℕ) (piece : Piece)
        → length message ≡ sender.length → waiting sender ≡ Some piece
        → IsFragment (fragment_of message piece) }
{}

/// The acknowledgement of a data fragment bears its flags and its size, and is a fragment of the protocol.
pub fn acknowledgement_is_a_fragment()
    ensures { (fragment : FragmentValue) → fragment.kind ≡ Data → fragment.flags < 256
        → IsFragment fragment →
        IsFragment (record {
          kind = Ack;
          flags = fragment.flags;
          size = fragment.size;
          bytes = [];
        }) }
{}

/// By their numbers: a piece and the next one of its message have different keys, and so have any two pieces of messages of
/// different ids.
pub fn pieces_by_number_have_different_keys()
    ensures next { (id length number : ℕ)
        → HaveDifferentKeys (piece_of id length number) (piece_of id length (number + 1)) }
    ensures others { (id other length later number place : ℕ) → ¬ (id ≡ other)
        → HaveDifferentKeys (piece_of id length number) (piece_of other later place) }
{}
