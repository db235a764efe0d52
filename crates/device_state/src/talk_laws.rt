//! What holds of every text of a talk. The function here does nothing: its contract is the law.
ghost use Rattle.std.specs.Prelude.{◌≡◌, ℕ, List};
ghost use Rattle.device_stream.specs.Parts.{SameTalkParts};
ghost use Rattle.device_state.specs.Texts.{BeginOneText};
ghost use Rattle.device_stream.specs.declared.parts.TalkParts.{TalkParts};

/// Bytes that begin with the text of a talk, fewer than 2^64, determine what it holds and what stands
/// behind it.
pub fn a_text_determines_its_talk()
    ensures { (x y : TalkParts) (rest behind : List ℕ) → BeginOneText x y rest behind
        → SameTalkParts x y × (rest ≡ behind) }
{}
