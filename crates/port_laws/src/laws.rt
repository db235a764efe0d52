//! What holds of a desktop's end over a handheld and a cable. Each function here does nothing: its
//! contract is the law.
ghost use Rattle.std.specs.Prelude.{◌≡◌, ◌≤◌, ◌++◌, ◌∷◌, [], ℕ, List, length, true};
ghost use Rattle.device_stream.specs.Hands.{Hand};
ghost use Rattle.padp_end.specs.Ends.{EndValue, end_expects, end_waits, first_end};
ghost use Rattle.padp_end.specs.Outgoings.{abort};
ghost use Rattle.padp_end.specs.declared.heard.Heard.TheVariants.{Delivered, Message};
ghost use Rattle.port_laws.specs.Palms.{Gives, MovesOn, Palm, is_first};
ghost use Rattle.port_laws.specs.Talking.{Asking, DeskTook, EachHearing, Greeting, MayAsk, IsReplyOf, Resting, Stage, Stands, StandsBegun, StandsBehind, Waking, Woken, with_said};
ghost use Rattle.slp_frames.specs.Histories.{Continues};
ghost use Rattle.slp_frames.specs.PacketScan.{scan};
ghost use Rattle.slp_frames.specs.PacketText.{PacketValue};

/// Where nothing is under way and a handheld says its wake, a desktop's end that awaits it stands at the
/// beginning of a session.
pub fn a_session_opens()
    ensures { (palm : Palm) → is_first palm ≡ true
        → Stands (Waking palm.hand) (end_expects first_end 255) [] palm }
{}

/// Whatever happens by itself behind the port, all stands as before.
pub fn a_palm_stands()
    ensures { (stage : Stage) (end : EndValue) (held : List ℕ) (old new : Palm)
        → Stands stage end held old → MovesOn old new → Stands stage end held new }
{}

/// So it does where bytes come to a reader that holds no packet.
pub fn bytes_may_come()
    ensures { (at : Stage) (end : EndValue) (held now bytes : List ℕ) (old new : Palm)
        → Stands at end held old → scan held ≡ [] → Gives bytes old new
        → Continues (held ++ bytes) [] now → Stands at end now new }
{}

/// And where the piece that waits is said once more.
pub fn silence_may_come()
    ensures { (stage : Stage) (end : EndValue) (held : List ℕ) (palm : Palm)
        → Stands stage end held palm
        → Stands stage (end_waits end).1 held (with_said palm (end_waits end).0) }
{}

/// And where the connection is ended.
pub fn an_abort_may_be_said()
    ensures { (stage : Stage) (end : EndValue) (held : List ℕ) (palm : Palm) (id : ℕ)
        → Stands stage end held palm → Stands stage end held (with_said palm (abort id ∷ [])) }
{}

/// And where a packet comes to the desktop's end: it hears nothing but what is right.
pub fn packets_may_come()
    ensures { (stage : Stage) (end : EndValue) (held now : List ℕ) (palm : Palm)
        (packet : PacketValue) → Stands stage end held palm → Continues held (packet ∷ []) now
        → DeskTook stage end now palm packet }
{}

/// A first message is the handheld's wake.
pub fn a_first_message_is_the_wake()
    ensures { (was : Hand) → EachHearing (Waking was) Message (StandsBehind (Woken was)) }
{}

/// An init that was delivered was taken by the handheld, which performed no request.
pub fn an_init_is_no_request()
    ensures { (was : Hand) → EachHearing (Greeting was) Delivered (StandsBehind (Resting was)) }
{}

/// A message that is heard behind a request is the reply of the device to exactly this request, which it
/// performed once.
pub fn a_reply_is_to_its_request()
    ensures { (was : Hand) (request : List ℕ)
        → EachHearing (Asking was request) Message (IsReplyOf was request) }
{}

/// Between two requests another message may be awaited.
pub fn a_reply_may_be_awaited()
    ensures { (was : Hand) (end : EndValue) (held : List ℕ) (palm : Palm) (id : ℕ)
        → Stands (Resting was) end held palm
        → Stands (Resting was) (end_expects end id) held palm }
{}

/// There a request may begin, under another transaction than the message before it.
pub fn a_request_may_begin()
    ensures { (was : Hand) (end : EndValue) (held : List ℕ) (palm : Palm) (id : ℕ)
        (request : List ℕ) → Stands (Resting was) end held palm
        → MayAsk was end held palm id request }
{}

/// Behind the wake the init may begin.
pub fn an_init_may_begin()
    ensures { (was : Hand) (end : EndValue) (held : List ℕ) (palm : Palm) (id : ℕ)
        (init : List ℕ) → Stands (Woken was) end held palm → length init ≤ 65535
        → StandsBegun (Greeting was) end held palm id init }
{}
