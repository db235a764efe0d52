//! What a talk holds beside its folder, as plain parts that can be kept elsewhere.
ghost use Rattle.std.specs.Prelude.{◌≡◌, ◌↔◌, false, IfOk, IsErrOf};
ghost use Rattle.padp_end.specs.Parts.{end_of};
ghost use Rattle.device_stream.specs.Parts.{are_talk_parts};

use crate::talk_end::TalkEnd;
use padp_end::{End, EndParts, PartsFault};
use palm_device::Handles;
use std::alloc::Global;

/// How many transactions the requests of a talk have: they come round.
pub(crate) const TRANSACTIONS: u8 = 253;

/// What a talk holds beside its folder. Of what was performed it has the number alone, as far as it tells transactions.
#[derive(Drop)]
pub struct TalkParts {
    /// What is sent and taken.
    pub end: EndParts,
    /// The handles of open databases.
    pub handles: Handles,
    /// How many requests were performed, less all whole rounds of 253.
    pub number: u8,
    /// Whether the init came.
    pub greeted: bool,
    /// How the talk is over, once it is.
    pub over: Option<TalkEnd>,
}

impl TalkParts {
    /// What is sent and taken by the talk of these parts. `Form` is answered exactly where there is no such talk: where the
    /// end is none, or the number of requests is a round of transactions or more.
    pub fn make_end(&self, alloc: Global) -> Result<End, PartsFault>
        ensures made { IfOk result (λ end. end ≡ end_of self.now.end) }
        ensures form { IsErrOf result PartsFault.Form ↔ (are_talk_parts self.now ≡ false) }
    {
        if self.number >= TRANSACTIONS {
            return Err(PartsFault::Form);
        }
        End::of_parts(alloc, &self.end)
    }
}
