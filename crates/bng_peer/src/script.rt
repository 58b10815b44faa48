//! The numbers of the script, and where each peer stands.
ghost use Rattle.std.specs.Prelude.{◌≡◌, ◌≤◌, ◌<◌, ◌+◌, ◌-◌, ◌^◌, ◌∷◌, min, IfSome};
ghost use Rattle.std.specs.Fmt.{decimal};
ghost use Rattle.bng_peer.specs.Script as stated;

use arrayvec::ArrayVec;
use bng_base::{Ip4, Mac, Peer};
use itoa::Buffer;

/// The loopback address.
const LOOPBACK: Ip4 = Ip4(0x7f00_0001);

/// The other end of the access port.
pub(crate) const ACCESS: Peer = Peer {
    ip: LOOPBACK,
    port: 9011,
};

/// The other end of the core.
pub(crate) const CORE: Peer = Peer {
    ip: LOOPBACK,
    port: 9001,
};

/// Where the RADIUS server answers Access-Requests.
pub(crate) const AUTH: Peer = Peer {
    ip: LOOPBACK,
    port: 1812,
};

/// Where it answers Accounting-Requests.
pub(crate) const ACCT: Peer = Peer {
    ip: LOOPBACK,
    port: 1813,
};

/// Where the operator sits.
pub(crate) const OPERATOR: Peer = Peer {
    ip: LOOPBACK,
    port: 9099,
};

/// The two access concentrators.
pub(crate) const LACS: [Peer; 2] = [
    Peer {
        ip: Ip4(0x7f00_0002),
        port: 1701,
    },
    Peer {
        ip: Ip4(0x7f00_0003),
        port: 1701,
    },
];

/// The secret that the access concentrators share with the gateway.
pub(crate) const LAC_SECRET: &[u8] = b"t";

/// The secret that the RADIUS server shares with it.
pub(crate) const RADIUS_SECRET: &[u8] = b"xyzzy5461";

/// The seconds between the interim records of a term.
pub(crate) const INTERIM: u32 = 600;

/// The host beyond the core.
pub(crate) const HOST: Ip4 = Ip4(0xc000_0201);

/// After how many milliseconds what was not answered is sent again.
const PATIENCE: u64 = 3000;

/// When what is sent at this moment and is not answered is sent again.
pub(crate) fn patient_until(now: u64) -> u64
    ensures { result ≡ min (now + 3000) (2 ^ 64 - 1) }
{
    now.saturating_add(PATIENCE)
}

/// Whether a subscriber comes over L2TP. The others come over PPPoE.
pub(crate) fn is_called(number: u16) -> bool
    ensures { result ≡ stated.is_called number }
{
    number % 4 == 3
}

/// The access concentrator of a subscriber's call.
pub(crate) fn lac_of(number: u16) -> u16
    ensures exact { result ≡ stated.lac_of number }
    ensures few { result < 2 }
{
    number / 4 % 2
}

/// Whether a subscriber authenticates by PAP. The others do by CHAP.
pub(crate) fn is_pap(number: u16) -> bool
    ensures { result ≡ stated.is_pap number }
{
    number % 2 == 1
}

/// How many packets a subscriber sends.
pub(crate) fn packets_up(number: u16) -> u8
    ensures { result ≡ stated.packets_up number }
{
    1 + (number % 8) as u8
}

/// How many octets each of these packets has.
pub(crate) fn octets_up(number: u16) -> u16
    ensures exact { result ≡ stated.octets_up number }
    ensures some { 100 ≤ result }
    ensures few { result ≤ 300 }
{
    100 + number % 10
}

/// How many packets the core sends to a subscriber.
pub(crate) fn packets_down(number: u16) -> u8
    ensures { result ≡ stated.packets_down number }
{
    (number % 5) as u8
}

/// How many octets each of these packets has.
pub(crate) fn octets_down(number: u16) -> u16
    ensures exact { result ≡ stated.octets_down number }
    ensures some { 200 ≤ result }
    ensures few { result ≤ 300 }
{
    200 + number % 10
}

/// Whether a subscriber ends its link once all rest. Of the others the gateway ends the sessions.
pub(crate) fn ends(number: u16) -> bool
    ensures { result ≡ stated.ends number }
{
    number % 2 == 1
}

/// The Ethernet address of a subscriber.
pub(crate) fn mac_of(number: u16) -> Mac
    ensures { result.0 ≡ stated.mac_of number }
{
    let [high, low] = number.to_be_bytes();
    Mac([2, 0, 0, 0, high, low])
}

/// The subscriber with an Ethernet address.
pub(crate) fn subscriber_at(mac: Mac) -> Option<u16>
    ensures { IfSome result (λ number. stated.mac_of number ≡ mac.0) }
{
    match mac.0 {
        [2, 0, 0, 0, high, low] => Some(u16::from_be_bytes([high, low])),
        _ => None,
    }
}

/// Puts an octet behind those that are there, where there is room.
pub(crate) fn put<const N: usize>(text: &mut ArrayVec<u8, N>, octet: u8) {
    if !text.is_full() {
        text.push(octet);
    }
}

/// A letter and a number in decimal digits: `u` and `p` begin the names and the passwords of subscribers.
pub(crate) fn name(letter: u8, number: u16) -> ArrayVec<u8, 6>
    ensures { result.items ≡ letter ∷ decimal number }
{
    let mut text = ArrayVec::new();
    text.push(letter);
    let _ = text.try_extend_from_slice(Buffer::new().format(number).as_bytes());
    text
}

/// The subscriber with a name.
pub(crate) fn subscriber_named(text: &[u8]) -> Option<u16> {
    let [b'u', digits @ ..] = text else {
        return None;
    };
    let mut number: u16 = 0;
    for digit in digits {
        let octet = *digit;
        if !octet.is_ascii_digit() {
            return None;
        }
        let tens = number.checked_mul(10)?;
        number = tens.checked_add(u16::from(octet % 16))?;
    }
    Some(number)
}
