ghost use Rattle.std.specs.Prelude.{◌≡◌, ◌≤◌, ◌+◌, min, length};

use crate::rules::Owner;
use bng_base::Octets;

/// A request that is out: its octets, the moment of its last send in milliseconds, and how often it was sent, which
/// stands still at 255.
#[derive(Drop)]
pub struct Pending {
    pub owner: Owner,
    pub octets: Octets,
    pub sent_at: u64,
    pub sends: u8,
    pub ghost least: { 20 ≤ length octets },
    pub ghost most: { length octets ≤ 4096 },
}

impl Pending {
    /// A request that is sent for the first time now.
    pub fn new(owner: Owner, octets: Octets, now: u64) -> Pending
        requires least { 20 ≤ length octets }
        requires most { length octets ≤ 4096 }
        ensures owner { result.owner ≡ owner }
        ensures octets { result.octets ≡ octets }
        ensures moment { result.sent_at ≡ now }
        ensures once { result.sends ≡ 1 }
    {
        Pending {
            owner,
            octets,
            sent_at: now,
            sends: 1,
        }
    }

    /// The request as it is sent again now.
    pub fn again(self, now: u64) -> Pending
        ensures owner { result.owner ≡ self.owner }
        ensures octets { result.octets ≡ self.octets }
        ensures moment { result.sent_at ≡ now }
        ensures sends { result.sends ≡ min 255 (self.sends + 1) }
    {
        let Pending {
            owner,
            octets,
            sent_at: _,
            sends,
        } = self;
        let sends = if sends == 255 { 255 } else { sends + 1 };
        Pending {
            owner,
            octets,
            sent_at: now,
            sends,
        }
    }
}
