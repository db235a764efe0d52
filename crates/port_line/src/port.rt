//! Where the bytes of a cable go and come from.
ghost use Rattle.std.specs.Prelude.{◌≡◌, ◌<◌, ◌≤◌, ◌++◌, ◌∷◌, [], List, ℕ, Option, take, length, OnOk, OnErr, IfOk, IsErrOf};
ghost use Rattle.std.specs.Option.{option_map};
ghost use Rattle.hs_folders.specs.Appends.{AppendsPrefix};
ghost use Rattle.hs_folders.specs.Causes.{HasCause};
ghost use Rattle.port_laws.specs.Palms.{Gives, HearsOf, IsFirstTold, IsTold, MovesOn, Palm};
ghost use Rattle.slp_frames.specs.PacketScan.{scan};

use crate::port_fault::PortFault;

/// Gives the bytes that come over a cable, and takes those that go.
///
/// What it gave and took is told or not, and each clause on it holds where it is told. `Failed` comes
/// only where the count of faults rose in this call; `NoMemory` raises no count.
pub trait Port {
    /// What each read gave so far, the first one first, where it is told: the bytes that came, or none
    /// where a tick brought nothing.
    ghost given: { Self → Option (List (List ℕ)) };

    /// The bytes that it took so far, where they are told.
    ghost taken: { Self → Option (List ℕ) };

    /// The handheld and the cable behind it, where they are told.
    ghost palm: { Self → Option Palm };

    /// The paths that it was opened at, the first one first, where they are told.
    ghost paths: { Self → Option (List (List ℕ)) };

    /// How often it has failed, as a number of 64 bits that never falls.
    ghost faults: { Self → ℕ };

    /// Gives and takes the bytes of this path from now on.
    fn open(&mut self, path: &str) -> Result<(), PortFault>
        ensures opened { OnOk result (
            paths self.new ≡ option_map (λ paths. paths ++ path.now ∷ []) (paths self.old)) }
        ensures refused { OnErr result (paths self.new ≡ paths self.old) }
        ensures given { given self.new ≡ given self.old }
        ensures taken { taken self.new ≡ taken self.old }

        // Nothing happens to the handheld. It says its wake, and nothing is under way.
        ensures palm { palm self.new ≡ palm self.old }
        ensures first { OnOk result (IsFirstTold (palm self.old)) }

        ensures cause { HasCause (faults self.old) (faults self.new)
            (IsErrOf result PortFault.Failed) };

    /// Takes all of the bytes, or after a refusal the first so many of them.
    fn write_all(&mut self, bytes: &[u8]) -> Result<(), PortFault>
        ensures written { OnOk result (
            taken self.new ≡ option_map (λ taken. taken ++ bytes.now) (taken self.old)) }
        ensures prefix { OnErr result (AppendsPrefix (taken self.old) (taken self.new) bytes.now) }
        ensures given { given self.new ≡ given self.old }
        ensures paths { paths self.new ≡ paths self.old }

        // The packets in the bytes are on their way, some of them lost maybe, and anything happens.
        ensures palm { IsTold (HearsOf (scan bytes.now)) (palm self.old) (palm self.new) }

        ensures cause { HasCause (faults self.old) (faults self.new)
            (IsErrOf result PortFault.Failed) };

    /// Puts what came into the front of the room, and answers how many bytes. The answer is 0 where
    /// nothing came for a tick.
    fn read(&mut self, room: &mut [u8]) -> Result<usize, PortFault>
        requires { 0 < length room.old }
        ensures bound { IfOk result (λ count. count ≤ length room.new) }
        ensures gave { IfOk result (λ count. given self.new ≡ option_map (λ given.
            given ++ take count room.new ∷ []) (given self.old)) }
        ensures stays { OnErr result (given self.new ≡ given self.old) }

        // Anything happens, and then bytes of what the handheld said come.
        ensures palm { IfOk result (λ count. IsTold (Gives (take count room.new)) (palm self.old)
            (palm self.new)) }
        ensures unread { OnErr result (IsTold MovesOn (palm self.old) (palm self.new)) }

        ensures taken { taken self.new ≡ taken self.old }
        ensures paths { paths self.new ≡ paths self.old }
        ensures cause { HasCause (faults self.old) (faults self.new)
            (IsErrOf result PortFault.Failed) };
}
