//! What holds of two ends over a cable. Each function here does nothing: its contract is the law.
ghost use Rattle.std.specs.Prelude.{◌++◌, ◌∷◌, ℕ, List};
ghost use Rattle.padp_end.specs.Ends.{end_expects};
ghost use Rattle.padp_link.specs.FragmentText.{FragmentValue};
ghost use Rattle.padp_link.specs.declared.piece.Key.{Key};
ghost use Rattle.port_laws.specs.Cables.{Cable, IsOver, Side, Parcel};
ghost use Rattle.port_laws.specs.Moments.{KnowsAck, KnowsRepeat, MayBeginOne, SaysAgain, TakesOne};

/// Both ends are alike.
pub fn ends_are_alike()
    ensures { (x y : Side) (there back : List Parcel) → Cable x y there back → Cable y x back there }
{}

/// A packet is lost, and all holds as before.
pub fn a_packet_may_be_lost()
    ensures { (x y : Side) (before : List Parcel) (lost : Parcel) (after back : List Parcel)
        → Cable x y (before ++ lost ∷ after) back → Cable x y (before ++ after) back }
{}

/// An end takes the oldest packet that comes, and all holds of it then. A message that it hears is the
/// other end's, whole, whose newest piece it hadn't taken before; and of a message that counts as
/// delivered the other end took all.
pub fn a_packet_is_taken_rightly()
    ensures { (x y : Side) (first : Parcel) (there back : List Parcel)
        → Cable x y (first ∷ there) back → TakesOne x y first there back }
{}

/// A piece that waits may go again at any time.
pub fn a_piece_may_go_again()
    ensures { (x y : Side) (there back : List Parcel) → Cable x y there back
        → SaysAgain x y there back }
{}

/// An end may begin a message where both messages before it were taken whole and none of its pieces
/// waits, under another transaction than the one before.
pub fn a_message_may_begin()
    ensures { (x y : Side) (there back : List Parcel) (id : ℕ) (message : List ℕ)
        → Cable x y there back → MayBeginOne x y id message there back }
{}

/// An end may await another message where it took the one before it whole.
pub fn a_message_may_be_awaited()
    ensures { (x y : Side) (there back : List Parcel) (id : ℕ) → Cable x y there back → IsOver x y
        → Cable x (record { end = end_expects y.end id; count = y.count }) there back }
{}

/// Data that comes is the last piece that the end took exactly where the end took as many as its sender
/// had begun when it said it: no piece is taken twice, and none is taken for another, however often
/// transactions come round.
pub fn a_repeat_is_known()
    ensures { (x y : Side) (first : Parcel) (there back : List Parcel) (id : ℕ)
        (fragment : FragmentValue) → Cable x y (first ∷ there) back
        → KnowsRepeat y first id fragment }
{}

/// An acknowledgement that counts for the piece that waits was said by an end that had taken that piece. One of a piece that
/// is all of its message counts by its transaction alone.
pub fn an_acknowledgement_is_for_its_piece()
    ensures { (x y : Side) (first : Parcel) (there back : List Parcel) (key : Key)
        → Cable x y (first ∷ there) back → KnowsAck y first key }
{}
