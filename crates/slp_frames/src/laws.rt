//! What holds of all packets and all streams. Each function here does nothing: its contract is the
//! law.
ghost use Rattle.std.specs.Prelude.{◌≡◌, ◌++◌, List, ℕ, [], ◌∷◌, ◌<◌, length, map};
ghost use Rattle.slp_frames.specs.PacketText.{PacketValue, packet_text, HasText};
ghost use Rattle.slp_frames.specs.Places.{IsDead, PlacedPacket, IsScan};
ghost use Rattle.slp_frames.specs.PacketScan.{scan};

/// The text of a packet determines it, whatever follows.
pub fn text_determines_packet()
    ensures { (p q : PacketValue) (x y : List ℕ) → HasText p → HasText q
        → packet_text p ++ x ≡ packet_text q ++ y → (p ≡ q) × (x ≡ y) }
{}

/// The text of a packet holds that packet alone.
pub fn text_is_scanned()
    ensures { (p : PacketValue) → HasText p → scan (packet_text p) ≡ p ∷ [] }
{}

/// Further bytes never make a dead place live.
pub fn dead_stays_dead()
    ensures { (bytes more : List ℕ) → IsDead bytes → IsDead (bytes ++ more) }
{}

/// The packets of the first bytes of a stream are the first ones of the stream.
pub fn scan_begins_longer_scan()
    ensures { (bytes more : List ℕ) → (later : List PacketValue)
        × (scan (bytes ++ more) ≡ scan bytes ++ later) }
{}

/// The packets of the scan are those that stand next to each other by places.
pub fn scan_is_by_places()
    ensures there { (bytes : List ℕ) → (found : List PlacedPacket) × IsScan bytes found
        × (map (λ f. f.packet) found ≡ scan bytes) }
    ensures only { (bytes : List ℕ) (found others : List PlacedPacket) → IsScan bytes found
        → IsScan bytes others → found ≡ others }
{}

/// A text that is cut off before its end holds no packet.
pub fn a_cut_text_holds_no_packet()
    ensures { (p : PacketValue) (bytes more : List ℕ) → HasText p → bytes ++ more ≡ packet_text p
        → length bytes < length (packet_text p) → scan bytes ≡ [] }
{}
