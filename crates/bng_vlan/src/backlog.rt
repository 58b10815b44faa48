//! The frames of trunks that wait for their entries.
ghost use Rattle.std.specs.Prelude.{◌≡◌, ◌≤◌, ◌<◌, ◌-◌, ◌∷◌, [], ◌==◌, ◌&&◌, length, IfOk, IfSome, true, false, slice_get, slice_set};
ghost use Rattle.bng_base.specs.declared.outside.Role.TheVariants.{Access};
ghost use Rattle.bng_vlan.specs.Map.{IsMap, entry_of, is_trunk};
ghost use Rattle.bng_vlan.specs.Frames.{Came, is_peer, has_tags, is_of};
ghost use Rattle.bng_vlan.specs.Waiting.{AreFew, Holds, Keeps, Gives, counted, frames_at};
ghost use Rattle.bng_vlan.specs.Tags.{tags_of};

use crate::map::{VlanEntry, VlanMap};
use crate::queue::FrameQueue;
use crate::tag::{Tags, tags_of};
use crate::tagging::width_of;
use bng_base::{Frame, Peer, Role};
use std::alloc::{AllocError, Global};

/// The frames of trunks that wait for their entries, and how many frames were strays.
#[derive(Drop)]
pub struct Backlog {
    peers: Vec<Peer>,
    entries: Vec<VlanEntry>,
    queues: Vec<FrameQueue>,
    strays: u64,
    pub ghost sound: { IsMap (record { peers = peers.items; entries = entries.items }) },
    pub ghost one_each: { length queues.items ≡ length entries.items },
    pub ghost few: { AreFew entries.items queues.items },
}

fn queues(alloc: Global, number: usize) -> Result<Vec<FrameQueue>, AllocError>
    ensures size { IfOk result (λ v. length v.items ≡ number) }
    ensures empty { IfOk result (λ v. (i : _) → frames_at i v.items ≡ []) }
{
    let mut queues = Vec::new(alloc);
    for _ in 0..number {
        queues.push(FrameQueue::new(alloc)?)?;
    }
    Ok(queues)
}

/// One more, unless the count stands at the end of its type.
fn one_more(strays: u64) -> u64
    ensures { result ≡ counted strays 1 }
{
    strays.saturating_add(1)
}

/// Whether an entry is one of this trunk with these tags.
fn is_for(e: &VlanEntry, trunk: u8, tags: &Option<Tags>) -> bool
    ensures { result ≡ ((e.now.trunk == trunk) && has_tags e.now tags.now) }
{
    if e.trunk != trunk {
        return false;
    }
    match tags {
        None => false,
        Some(tags) => *tags == e.tags(),
    }
}

impl Backlog {
    ghost use Rattle.bng_vlan.specs.Views.{map_of, waiting_of, trunks_in};

    /// An empty one for a map.
    pub(crate) fn open(alloc: Global, map: &VlanMap) -> Result<Backlog, AllocError>
        requires { IsMap (trunks_in map.now) }
        ensures map { IfOk result (λ b. map_of b ≡ trunks_in map.now) }
        ensures empty { IfOk result (λ b. (i : _) → frames_at i (waiting_of b).frames ≡ []) }
        ensures strays { IfOk result (λ b. (waiting_of b).strays ≡ 0) }
    {
        let mut peers = Vec::new(alloc);
        peers.extend_from_slice(&map.trunks)?;
        let mut entries = Vec::new(alloc);
        entries.extend_from_slice(&map.entries)?;
        let queues = queues(alloc, entries.len())?;
        Ok(Backlog {
            peers,
            entries,
            queues,
            strays: 0,
        })
    }

    /// How many frames were strays. The count stands still at the end of its type.
    pub(crate) fn strays(&self) -> u64
        ensures { result ≡ (waiting_of self.now).strays }
    {
        self.strays
    }

    /// Whether an access port is a trunk.
    pub(crate) fn is_trunk(&self, port: u8) -> bool
        ensures { result ≡ is_trunk (map_of self.now) (Access port) }
    {
        port >= 240 && (port as usize) < 240 + self.peers.len()
    }

    /// The place of the entry of an access port.
    pub(crate) fn place_of(&self, port: u8) -> Option<usize>
        ensures none { result ≡ None → entry_of (map_of self.now) (Access port) ≡ None }
        ensures found { IfSome result (λ i. (entry_of (map_of self.now) (Access port) ≡ slice_get (map_of self.now).entries i) × (i < length (map_of self.now).entries)) }
    {
        for (place, e) in self.entries.iter().enumerate() {
            if e.access == port {
                return Some(place);
            }
        }
        None
    }

    /// The entry at a place.
    pub(crate) fn entry_at(&self, place: usize) -> VlanEntry
        requires { place < length (map_of self.now).entries }
        ensures { slice_get (map_of self.now).entries place ≡ Some result }
    {
        self.entries[place]
    }

    /// The peer of a trunk.
    pub(crate) fn peer_of(&self, trunk: u8) -> Peer
        requires from { 1 ≤ trunk }
        requires to { trunk ≤ length (map_of self.now).peers }
        ensures { slice_get (map_of self.now).peers (trunk - 1) ≡ Some result }
    {
        self.peers[trunk as usize - 1]
    }

    fn is_peer(&self, trunk: u8, from: Peer) -> bool
        requires { 1 ≤ trunk }
        ensures { result ≡ is_peer (slice_get (map_of self.now).peers (trunk - 1)) from }
    {
        match self.peers.get(trunk as usize - 1) {
            None => false,
            Some(peer) => *peer == from,
        }
    }

    /// How many frames wait for the entry at a place.
    pub(crate) fn number(&self, place: usize) -> usize
        requires { place < length (map_of self.now).entries }
        ensures { result ≡ length (frames_at place (waiting_of self.now).frames) }
    {
        self.queues[place].len()
    }

    /// Whether a frame of a trunk is held.
    pub(crate) fn holds(&self, trunk: u8) -> bool
        ensures held { result ≡ true → Holds (map_of self.now).entries (waiting_of self.now).frames trunk }
        ensures free { result ≡ false → ¬ Holds (map_of self.now).entries (waiting_of self.now).frames trunk }
    {
        for (place, e) in self.entries.iter().enumerate() {
            if e.trunk == trunk && self.number(place) > 16 {
                return true;
            }
        }
        false
    }

    /// The place of the entry whose a frame of a trunk is, unless it is a stray.
    fn owner(&self, trunk: u8, from: Peer, cut: bool, octets: &[u8]) -> Option<usize>
        requires { 1 ≤ trunk }
        ensures none { result ≡ None → (i : _) (e : _) → slice_get (map_of self.now).entries i ≡ Some e → is_of (map_of self.now) (record { trunk = trunk; from = from; cut = cut; octets = octets.now }) e ≡ false }
        ensures found { IfSome result (λ i. (e : _) × (slice_get (map_of self.now).entries i ≡ Some e) × (is_of (map_of self.now) (record { trunk = trunk; from = from; cut = cut; octets = octets.now }) e ≡ true)) }
    {
        if cut || !self.is_peer(trunk, from) {
            return None;
        }
        let tags = tags_of(octets);
        for (place, e) in self.entries.iter().enumerate() {
            if is_for(e, trunk, &tags) {
                return Some(place);
            }
        }
        None
    }

    /// Puts a frame that a trunk took behind those that wait for its entry, or counts it as a stray.
    pub(crate) fn put(&mut self, trunk: u8, from: Peer, cut: bool, frame: &Frame)
        requires from { 1 ≤ trunk }
        requires headroom { frame.now.headroom ≡ 64 }
        requires room { ¬ Holds (map_of self.old).entries (waiting_of self.old).frames trunk }
        ensures map { map_of self.new ≡ map_of self.old }
        ensures keeps { Keeps (map_of self.old) (waiting_of self.old) (record { trunk = trunk; from = from; cut = cut; octets = frame.now.payload } ∷ []) (waiting_of self.new) }
    {
        let octets = frame.payload();
        match self.owner(trunk, from, cut, octets) {
            None => self.strays = one_more(self.strays),
            Some(place) => {
                let width = width_of(self.entries[place].inner);
                self.queues[place].put(octets, width);
            }
        }
    }

    /// Gives the oldest frame that waits for the entry at a place.
    pub(crate) fn give(&mut self, place: usize, into: &mut Frame)
        requires place { place < length (map_of self.old).entries }
        requires some { 0 < length (frames_at place (waiting_of self.old).frames) }
        ensures map { map_of self.new ≡ map_of self.old }
        ensures gives { Gives place (waiting_of self.old) into.new.payload (waiting_of self.new) }
        ensures headroom { into.new.headroom ≡ 64 }
    {
        self.queues[place].give(into);
    }
}
