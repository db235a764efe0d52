// The words of a fate.
ghost use Rattle.std.specs.Prelude.{◌≡◌, false, IfOk, IfErr, IfSome, IfNone};
ghost use Rattle.std.specs.List.{AllByRecursion};
ghost use Rattle.trace_text.specs.Fates.{FateValue, fate_value, fate_words};
ghost use Rattle.trace_check.specs.Words.{is_feed};
ghost use Rattle.trace_check.specs.declared.fault.TraceFault.TheVariants.{NoMemory};
ghost use Rattle.trace_check.specs.Readings.{MayBefall, IsFateOf};

use crate::fault::TraceFault;
use line_script::{ScriptFault, read_script};
use std::alloc::{AllocError, Global};
use trace_text::Fate;

// The fate that words are, which hold no line feed: `ok`, or as a script of one line has it.
pub(crate) fn fate_in(alloc: Global, words: &[u8]) -> Result<Option<Fate>, TraceFault>
    requires { AllByRecursion (λ byte. is_feed byte ≡ false) words.now }
    ensures some { IfOk result (λ found. IfSome found (λ fate.
        IsFateOf words.now (fate_value fate))) }
    ensures none { IfOk result (λ found. IfNone found ((fate : FateValue) →
        ¬ (IsFateOf words.now fate))) }
    ensures refused { IfErr result (λ fault. fault ≡ NoMemory) }
{
    if words == b"ok".as_slice() {
        return Ok(Some(Fate::Ok));
    }
    let mut line = Vec::new(alloc);
    line.extend_from_slice(b"1 ")?;
    line.extend_from_slice(words)?;
    match read_script(alloc, &line) {
        Ok(script) => Ok(Some(copy_of(script.fate(1))?)),
        Err(ScriptFault::NoMemory) => Err(TraceFault::NoMemory),
        Err(ScriptFault::TooLong) => Ok(None),
        Err(ScriptFault::BadLine(_)) => Ok(None),
    }
}

// The fate once more.
fn copy_of(fate: &Fate) -> Result<Fate, AllocError>
    ensures { IfOk result (λ copy. fate_value copy ≡ fate_value fate.now) }
{
    Ok(match fate {
        Fate::Ok => Fate::Ok,
        Fate::Lost => Fate::Lost,
        Fate::Late => Fate::Late,
        Fate::Cut(count) => Fate::Cut(*count),
        Fate::Hit(place, bytes) => Fate::Hit(*place, bytes.clone()?),
        Fate::Noise(bytes) => Fate::Noise(bytes.clone()?),
        Fate::Unplug => Fate::Unplug,
        Fate::Abort => Fate::Abort,
    })
}
