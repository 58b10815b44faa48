ghost use Rattle.std.specs.Prelude.{◌≡◌};
ghost use Rattle.bng_ppp.specs.LcpState.{limit_of};

use arrayvec::ArrayVec;
use bng_base::{AuthKind, Ip4};

/// What a link is run by. They are equal at each step of one link.
#[derive(Drop)]
pub struct LinkRules {
    /// The gateway's name, of at most 64 octets. No step of LCP looks at it.
    pub name: ArrayVec<u8, 64>,
    /// The gateway's address on the link. No step of LCP looks at it.
    pub address: Ip4,
    /// The servers of names that a peer is told. No step of LCP looks at them.
    pub dns: [Option<Ip4>; 2],
    /// The ways to authenticate that are allowed, the one that is asked for first in front. There is at least one.
    pub auth: ArrayVec<AuthKind, 2>,
    /// So many seconds after an Echo-Request the next one goes out. None goes out where this is 0.
    pub echo: u16,
}

/// What carries the frames of a link.
#[derive(Clone, Copy)]
pub enum LinkKind {
    /// PPP over Ethernet, whose frames have at most 1,492 octets of information (RFC 2516 section 7).
    Pppoe,
    /// A call of an L2TP tunnel (RFC 2661), with the 1,500 octets of RFC 1661 section 6.1.
    L2tp,
}

const PPPOE_LIMIT: u16 = 1492;

const L2TP_LIMIT: u16 = 1500;

/// The largest Maximum-Receive-Unit that is asked for and taken, in octets.
pub(crate) fn limit(kind: LinkKind) -> u16
    ensures { result ≡ limit_of kind }
{
    match kind {
        LinkKind::Pppoe => PPPOE_LIMIT,
        LinkKind::L2tp => L2TP_LIMIT,
    }
}

/// What a link is told.
#[derive(Clone, Copy)]
pub enum LcpInput<'a> {
    /// The link may be opened and its lower layer is ready: Open and then Up.
    Start,
    /// The octets of a PPP frame came, from its protocol on.
    Frame(&'a [u8]),
    /// Time has passed.
    Timer,
    /// The link is to be closed.
    Close,
    /// The lower layer is gone: Down.
    Lost,
}
