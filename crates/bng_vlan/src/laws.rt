// What holds of all calls, whoever makes them.
ghost use Rattle.std.specs.Prelude.{◌≡◌, ◌≤◌, ◌-◌, ◌++◌, ◌∷◌, [], ℕ, true, false, List, Some, None, length, slice_get};
ghost use Rattle.bng_base.specs.Stretch.{PlantStretch};
ghost use Rattle.bng_base.specs.declared.address.Peer.{Peer};
ghost use Rattle.bng_vlan.specs.declared.map.VlanEntry.{VlanEntry};
ghost use Rattle.bng_vlan.specs.declared.tag.Tags.{Tags};
ghost use Rattle.bng_vlan.specs.Frames.{Came, frames_of, is_of};
ghost use Rattle.bng_vlan.specs.Map.{Trunks, IsMap, AreVlans, tags_in};
ghost use Rattle.bng_vlan.specs.Once.{AreParted, AreOnce};
ghost use Rattle.bng_vlan.specs.Tags.{tagged, tags_of, has_type, without};
ghost use Rattle.bng_vlan.specs.Untagged.{Untagged, gifts, given_to};
ghost use Rattle.bng_vlan.specs.Waiting.{Waiting, frames_at};

/// The frames given, waiting and stray are together those that trunks took, each once: each that came is one entry's or a stray,
/// and their numbers add up, while the count of strays does not stand at its end. Where nothing waited at first, what an entry was
/// given is a front of the frames of its trunk that are its own, without their tags and in order; the rest waits.
pub fn each_frame_is_given_once()
    ensures parted { (m : Trunks) (came : List Came) → IsMap m → AreParted m came }
    ensures once { (m : Trunks) (v w : Waiting) (below above : PlantStretch) → IsMap m → length v.frames ≡ length m.entries → length w.frames ≡ length m.entries → Untagged m v below above w → AreOnce m v below above w }
    ensures front { (m : Trunks) (v w : Waiting) (below above : PlantStretch) → ((i : ℕ) → frames_at i v.frames ≡ []) → (h : Untagged m v below above w) → (i : ℕ) (e : VlanEntry) → slice_get m.entries i ≡ Some e → gifts m e (frames_of m e h.came) ≡ given_to e above.taken ++ gifts m e (frames_at i w.frames) }
{}

/// Reading what is written gives the tags and the frame, and on a trunk the entry alone: of a frame that has its addresses, and,
/// where one tag is written, no C-TAG of its own behind them.
pub fn what_is_written_is_read()
    ensures tags { (t : Tags) (octets : List ℕ) → AreVlans t → 12 ≤ length octets → (t.inner ≡ None → has_type 12 33024 octets ≡ false) → tags_of (tagged t octets) ≡ Some t }
    ensures frame { (t : Tags) (octets : List ℕ) → 12 ≤ length octets → without t.inner (tagged t octets) ≡ octets }
    ensures entry { (m : Trunks) (i : ℕ) (e : VlanEntry) (peer : Peer) (octets : List ℕ) (c : Came) → IsMap m → slice_get m.entries i ≡ Some e → slice_get m.peers (e.trunk - 1) ≡ Some peer → 12 ≤ length octets → (e.inner ≡ None → has_type 12 33024 octets ≡ false) → c ≡ record { trunk = e.trunk; from = peer; cut = false; octets = tagged (tags_in e) octets } → frames_of m e (c ∷ []) ≡ octets ∷ [] }
    ensures none_else { (m : Trunks) (c : Came) (i j : ℕ) (d e : VlanEntry) → IsMap m → slice_get m.entries i ≡ Some d → slice_get m.entries j ≡ Some e → is_of m c d ≡ true → is_of m c e ≡ true → i ≡ j }
{}
