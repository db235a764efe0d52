//! What holds of every handheld in memory. Each function here does nothing: its contract is the law.
ghost use Rattle.std.specs.Prelude.{◌<◌, ◌^◌, ◌++◌, ℕ, List, length};
ghost use Rattle.device_stream.specs.Hands.{Hand};
ghost use Rattle.device_state.specs.Laws.{HearInTurn, HeardAsOne, IsOneHandheld};
ghost use Rattle.device_state.specs.States.{IsState};

/// Bytes, fewer than 2^64, are one handheld.
pub fn a_state_is_one_handheld()
    ensures { (state : List ℕ) (x y : Hand) (held left : List ℕ) → length state < 2 ^ 64
        → IsState state x held → IsState state y left → IsOneHandheld x y held left }
{}

/// Bytes may come in any pieces: what is said to them in two calls is said to them in one.
pub fn pieces_are_heard_as_one()
    ensures { (state bytes said more later last held : List ℕ) (x : Hand)
        → IsState state x held → HearInTurn state bytes said more later last
        → HeardAsOne x (held ++ (bytes ++ more)) (said ++ later) last }
{}
