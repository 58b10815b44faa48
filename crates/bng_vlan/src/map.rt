use crate::tag::Tags;
use bng_base::Peer;

/// An access port whose frames are those of a trunk, from 1 on, that carry these tags: VLAN identifiers of 1 to 4,094, the inner one
/// where there are two. Ports count from 1 to 64.
#[derive(Clone, Copy, PartialEq, Eq, Debug)]
pub struct VlanEntry {
    pub access: u8,
    pub trunk: u8,
    pub outer: u16,
    pub inner: Option<u16>,
}

/// The peers of the trunks, from trunk 1 on, at most 16, and the entries, at most 64.
#[derive(Drop)]
pub struct VlanMap {
    pub trunks: Vec<Peer>,
    pub entries: Vec<VlanEntry>,
}

/// Why there is no plant over trunks.
#[derive(Clone, Copy, PartialEq, Eq, Debug)]
pub enum VlanError {
    OutOfMemory,
}

impl VlanEntry {
    ghost use Rattle.std.specs.Prelude.{◌≡◌};
    ghost use Rattle.bng_vlan.specs.Map.{tags_in};

    /// Its tags.
    pub fn tags(&self) -> Tags
        ensures { result ≡ tags_in self.now }
    {
        Tags {
            outer: self.outer,
            inner: self.inner,
        }
    }
}
