//! What a line does with a frame.
ghost use Rattle.std.specs.Prelude.{◌≡◌, ◌≤◌, [], length};
ghost use Rattle.trace_text.specs.Kinds.{kind_bytes};

use arrayvec::ArrayVec;

/// What a line does with a frame. All but `Ok` and `Noise` are faults, or end the run.
#[derive(Drop)]
pub enum Fate {
    /// It arrives.
    Ok,
    /// Nothing arrives.
    Lost,
    /// It arrives once the line was silent; what its end sends behind it waits too.
    Late,
    /// So many of its bytes arrive, modulo its length.
    Cut(u16),
    /// It arrives with bytes xored over its own from this place on, modulo its length.
    Hit(u16, ArrayVec<u8, 8>),
    /// Bytes arrive by themselves, and then the frame.
    Noise(ArrayVec<u8, 1040>),
    /// The cable is pulled: nothing arrives, and the run ends.
    Unplug,
    /// Nothing arrives, and the run ends; an abort packet stands in its place.
    Abort,
}

/// What a line does with a frame, without the bytes that a hit or noise has.
#[derive(Clone, Copy)]
pub enum FateKind {
    Ok,
    Lost,
    Late,
    Cut(u16),
    Hit(u16),
    Noise,
    Unplug,
    Abort,
}

/// A fate whose bytes lie elsewhere: those that a hit xors over the frame's, or the noise. Other fates have none.
#[derive(Clone, Copy)]
pub struct FateLent<'a> {
    pub kind: FateKind,
    pub bytes: &'a [u8],
    ghost short: { length bytes.now ≤ 1040 },
    ghost fits: { bytes.now ≡ kind_bytes kind bytes.now },
}

impl Fate {
    ghost use Rattle.std.specs.Prelude.{◌≡◌};
    ghost use Rattle.trace_text.specs.Fates.{fate_value};
    ghost use Rattle.trace_text.specs.Lent.{lent_fate};

    /// The fate, with its bytes where they lie.
    pub fn lent(&self) -> FateLent<'_>
        ensures { lent_fate result ≡ fate_value self.now }
    {
        match self {
            Fate::Ok => bare(FateKind::Ok),
            Fate::Lost => bare(FateKind::Lost),
            Fate::Late => bare(FateKind::Late),
            Fate::Cut(count) => bare(FateKind::Cut(*count)),
            Fate::Hit(place, bytes) => FateLent {
                kind: FateKind::Hit(*place),
                bytes: bytes.as_slice(),
            },
            Fate::Noise(bytes) => FateLent {
                kind: FateKind::Noise,
                bytes: bytes.as_slice(),
            },
            Fate::Unplug => bare(FateKind::Unplug),
            Fate::Abort => bare(FateKind::Abort),
        }
    }
}

// A fate that has no bytes.
fn bare(kind: FateKind) -> FateLent<'static>
    ensures kind { result.kind ≡ kind }
    ensures bytes { result.bytes.now ≡ [] }
{
    FateLent { kind, bytes: &[] }
}
