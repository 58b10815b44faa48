//! What a whole link is told.
use arrayvec::ArrayVec;
use bng_base::Ip4;

/// What a whole link is told.
#[derive(Drop)]
pub enum Input<'a> {
    /// The link may be opened and its lower layer is ready: Open and then Up.
    Start,
    /// The octets of a PPP frame came, from its protocol on.
    Frame(&'a [u8]),
    /// Time has passed.
    Timer,
    /// The answer to the question that the link asked: whether the peer is accepted; the address that it is to have then,
    /// none where no address is given to it yet, and then IPCP does not begin; and the text of the reply.
    Verdict {
        yes: bool,
        lease: Option<Ip4>,
        text: ArrayVec<u8, 253>,
    },
    /// The link is to be closed.
    Close,
    /// The lower layer is gone: Down.
    Lost,
}
