//! Datagrams of a script, and how they are kept and given.
ghost use Rattle.std.specs.Prelude.{◌≡◌, ◌≤◌, ◌<◌, ◌+◌, ◌++◌, length, take, nat_lt, IsTrue};

use bng_base::{Frame, LONGEST, Octets, Peer, ROOM, Role};

/// A datagram that a script gives: to the next receive of its role, once the arrival before it was given and `waits`
/// waits came after that. `cut` says that it was longer than 4,096 octets, and `octets` has its front then.
#[derive(Drop)]
pub struct Arrival {
    pub role: Role,
    pub from: Peer,
    pub waits: u32,
    pub cut: bool,
    pub octets: Octets,
    pub ghost fits: { length octets ≤ 4096 },
}

impl Arrival {
    /// A datagram that waits for nothing but its turn.
    pub fn new(role: Role, from: Peer, bytes: &[u8]) -> Arrival
        ensures role { result.role ≡ role }
        ensures from { result.from ≡ from }
        ensures waits { result.waits ≡ 0 }
        ensures cut { result.cut ≡ nat_lt LONGEST (length bytes.now) }
        ensures octets { result.octets ≡ take LONGEST bytes.now }
    {
        Arrival {
            role,
            from,
            waits: 0,
            cut: bytes.len() > LONGEST,
            octets: Octets::copied(front(bytes)),
        }
    }

    /// The same, after so many waits.
    pub fn after(self, waits: u32) -> Arrival
        ensures { result ≡ record self { waits = waits } }
    {
        let Arrival {
            role,
            from,
            waits: _,
            cut,
            octets,
        } = self;
        Arrival {
            role,
            from,
            waits,
            cut,
            octets,
        }
    }
}

/// As many octets as a receive takes.
fn front(bytes: &[u8]) -> &[u8]
    ensures octets { result.now ≡ take LONGEST bytes.now }
    ensures fits { length result.now ≤ LONGEST }
{
    if bytes.len() <= LONGEST {
        return bytes;
    }
    let (front, _) = bytes.split_at(LONGEST);
    front
}

/// These octets as they are kept.
pub fn kept(bytes: &[u8]) -> Octets
    requires { length bytes.now ≤ ROOM }
    ensures { result ≡ bytes.now }
{
    let mut frame = Frame::new();
    if bytes.len() <= LONGEST {
        frame.set(bytes);
        return Octets::of(frame);
    }
    let (front, rest) = bytes.split_at(bytes.len() - LONGEST);
    frame.set(rest);
    frame.put_front(front);
    Octets::of(frame)
}
