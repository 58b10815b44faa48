//! What a step of a whole link gives.
ghost use Rattle.std.specs.Prelude.{◌≡◌, ◌≤◌, length};
ghost use Rattle.bng_ppp.specs.LinkRelation.{says_nothing, ended_by};
ghost use Rattle.bng_ppp.specs.LinkStep.{link_said, IsFresh};
ghost use Rattle.bng_ppp.specs.LinkState.{LinkState};

use crate::lcp_outcome::LcpOutcome;
use bng_auth::Credentials;
use bng_base::Frame;

/// What a step of a whole link gives. What it sends is read by [`Steps::outs`].
#[derive(Drop)]
pub struct Steps {
    /// The frames that are sent, and what the layer said that went on last: that it came to Opened, and that it finished.
    pub(crate) layer: LcpOutcome,
    /// A question that authentication opened: is this the peer?
    pub asked: Option<Credentials>,
    /// IPCP came to Opened.
    pub opened: bool,
    /// IPCP finished.
    pub(crate) ended: bool,
    /// LCP left Opened.
    pub(crate) left: bool,
    /// The cause with which this step ended a live term: 1 User Request or 2 Lost Carrier (RFC 2866 section 5.10). None where
    /// Close or Lost was told, whose cause the caller knows.
    pub term_ended: Option<u8>,
    /// LCP finished: the lower layer is needed no longer, or is gone.
    pub finished: bool,
}

impl Steps {
    /// A place for what steps give, in which nothing stands yet. One serves for all the steps of a caller.
    pub fn new() -> Steps
        ensures { link_said result ≡ says_nothing }
    {
        Steps {
            layer: LcpOutcome::new(),
            asked: None,
            opened: false,
            ended: false,
            left: false,
            term_ended: None,
            finished: false,
        }
    }

    /// PPP frames, from their protocol on, in the order of sending.
    pub fn outs(&self) -> &[Frame]
        ensures frames { result.now ≡ self.now.layer.outs.items }
        ensures few { length result.now ≤ 4 }
    {
        self.layer.outs.as_slice()
    }

    /// Nothing stands in it any longer.
    pub(crate) fn clear(&mut self)
        ensures { (s : LinkState) → IsFresh s self.new }
    {
        self.layer.clear();
        self.asked = None;
        self.opened = false;
        self.ended = false;
        self.left = false;
        self.term_ended = None;
        self.finished = false;
    }
}

/// The cause with which a step ended a live term: this one where LCP left Opened, else User Request where IPCP finished.
pub(crate) fn cause_of(live: bool, left: bool, ended: bool, cause: u8) -> Option<u8>
    ensures { result ≡ ended_by live left ended cause }
{
    if !live {
        None
    } else if left {
        Some(cause)
    } else if ended {
        Some(1)
    } else {
        None
    }
}
