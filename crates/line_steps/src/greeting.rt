//! The two ends greet each other.
ghost use Rattle.std.specs.Prelude.{◌≡◌, ◌∷◌, [], ℕ, List, IfErr, IfOk, OnOk, Some};
ghost use Rattle.cmp_hello.specs.declared.hello.Hello.{Hello};
ghost use Rattle.cmp_hello.specs.HelloText.{HelloText, hello_bytes};
ghost use Rattle.padp_link.specs.Receivers.{whole_of};
ghost use Rattle.line_steps.specs.Rooms.{WantsRoom};
ghost use Rattle.line_steps.specs.Telling.{no_talk};
ghost use Rattle.line_steps.specs.TalkHalting.{LineEnds};
ghost use Rattle.line_steps.specs.Rests.{MayAsk, MayGreet};
ghost use Rattle.line_steps.specs.TalkTelling.{LineCounts, LineRecords, LineTells, greeted, wake};

use crate::carrying::settle;
use crate::line::Line;
use crate::over::send_over;
use crate::sending::Halt;
use cmp_hello::{Hello, HelloKind, read_hello, write_hello};
use line_script::Script;
use padp_link::Receiver;

/// The transaction of the greetings.
const GREETING: u8 = 255;

/// The highest rate of the handheld, in bits per second.
const RATE: u32 = 9_600;

/// The handheld wakes the desktop, which answers. The session begins once the desktop knows that its answer came. The rate
/// is the one that the desktop heard.
pub fn greet(line: &mut Line, script: &Script) -> Result<u32, Halt>
    requires { MayGreet line.old }
    ensures asks { OnOk result (MayAsk line.new 0) }
    ensures rate { IfOk result (λ rate. rate ≡ wake.rate) }

    ensures recorded { LineRecords script.now line.old → LineRecords script.now line.new }
    ensures counted { LineCounts line.old → LineCounts line.new }
    ensures tells { OnOk result (LineTells no_talk line.old → LineTells greeted line.new) }
    ensures ends { IfErr result (λ halt.
        LineTells no_talk line.old → LineEnds halt greeted line.new) }
    ensures room { WantsRoom result line.old.wire.frames line.new.wire.frames }
{
    let wake = greeting(HelloKind::Wake, RATE);
    send_over(
        &mut line.wire,
        &mut line.handheld,
        &mut line.desktop,
        script,
        GREETING,
        &wake,
    )?;
    let rate = rate_of(&line.desktop.receiver);
    let init = greeting(HelloKind::Init, rate);
    send_over(
        &mut line.wire,
        &mut line.desktop,
        &mut line.handheld,
        script,
        GREETING,
        &init,
    )?;
    settle(
        &mut line.wire,
        &mut line.desktop,
        &mut line.handheld,
        script,
    )?;
    Ok(rate)
}

/// The bytes of a greeting with this rate, of version 1.1.
fn greeting(kind: HelloKind, rate: u32) -> [u8; 10]
    ensures text { HelloText (record { kind = kind; flags = 0; minor = 1; rate = rate }) result }
    ensures bytes { result ≡ hello_bytes
        (record { kind = kind; flags = 0; minor = 1; rate = rate }) (0 ∷ 0 ∷ []) }
{
    write_hello(&Hello {
        kind,
        flags: 0,
        minor: 1,
        rate,
    })
}

/// The rate in the greeting that a receiver took whole.
fn rate_of(receiver: &Receiver) -> u32
    ensures { (hello : Hello) (bytes : List ℕ) → whole_of receiver.now.pieces ≡ Some bytes →
        HelloText hello bytes → result ≡ hello.rate }
{
    match receiver.whole() {
        Some(bytes) => match read_hello(bytes) {
            Ok(hello) => hello.rate,
            Err(_) => RATE,
        },
        None => RATE,
    }
}
