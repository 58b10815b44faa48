//! VLAN tags of Ethernet frames (IEEE 802.1Q clause 9).
ghost use Rattle.std.specs.Prelude.{◌≡◌, ◌+◌, ◌≤◌, ◌<◌, length, take, drop, ◌++◌};
ghost use Rattle.bng_vlan.specs.Tags.{word_at, has_type, vlan_at, has_pair, has_one, tags_of};

/// The EtherType of a tag, as most have it (C-TAG).
const C_TAG: u16 = 0x8100;
/// The EtherType of the outer of two tags, as providers write it (S-TAG).
const S_TAG: u16 = 0x88a8;
/// How many octets the two addresses of a frame have.
pub(crate) const ADDRESSES: usize = 12;

/// The VLAN identifiers of a frame, of 1 to 4,094 each: the outer one, and the inner one where there are two tags.
#[derive(Clone, Copy, PartialEq, Eq, Debug)]
pub struct Tags {
    pub outer: u16,
    pub inner: Option<u16>,
}

/// The two octets at a place.
fn word_at(octets: &[u8], at: usize) -> u16
    requires { at + 2 ≤ length octets.now }
    ensures { result ≡ word_at at octets.now }
{
    256 * (octets[at] as u16) + octets[at + 1] as u16
}

fn has_type(octets: &[u8], at: usize, kind: u16) -> bool
    requires { at ≤ 16 }
    ensures { result ≡ has_type at kind octets.now }
{
    if octets.len() < at + 2 {
        return false;
    }
    word_at(octets, at) == kind
}

fn vlan_at(octets: &[u8], at: usize) -> u16
    requires { at + 2 ≤ length octets.now }
    ensures { result ≡ vlan_at at octets.now }
{
    word_at(octets, at) % 4096
}

fn has_pair(octets: &[u8]) -> bool
    ensures { result ≡ has_pair octets.now }
{
    if has_type(octets, ADDRESSES, C_TAG) || has_type(octets, ADDRESSES, S_TAG) {
        return has_type(octets, 16, C_TAG);
    }
    false
}

fn has_one(octets: &[u8]) -> bool
    ensures { result ≡ has_one octets.now }
{
    has_type(octets, ADDRESSES, C_TAG) && octets.len() >= 16
}

/// The tags behind the two addresses of a frame. A frame has two where a C-TAG follows the first, and none where the last of its
/// tags is cut off.
pub(crate) fn tags_of(octets: &[u8]) -> Option<Tags>
    ensures { result ≡ tags_of octets.now }
{
    if has_pair(octets) {
        if octets.len() < 20 {
            return None;
        }
        return Some(Tags {
            outer: vlan_at(octets, 14),
            inner: Some(vlan_at(octets, 18)),
        });
    }
    if has_one(octets) {
        return Some(Tags {
            outer: vlan_at(octets, 14),
            inner: None,
        });
    }
    None
}
