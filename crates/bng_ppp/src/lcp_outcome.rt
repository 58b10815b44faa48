//! What a step of a link gives.
ghost use Rattle.std.specs.Prelude.{◌≤◌, length};
ghost use Rattle.std.specs.List.{All};
ghost use Rattle.bng_base.specs.Packet.{Packet};

use arrayvec::ArrayVec;
use bng_base::Frame;

/// What a step of a link gives.
#[derive(Drop)]
pub struct LcpOutcome {
    /// PPP frames, from their protocol on, in the order of sending. Each is short enough that it reads back whole.
    pub outs: ArrayVec<Frame, 4>,
    /// LCP came to Opened.
    pub opened: bool,
    /// LCP finished: the lower layer is needed no longer, or is gone.
    pub finished: bool,
    pub ghost fit: { All (λ (f : Packet). length f.payload ≤ 4160) outs.items },
}

impl LcpOutcome {
    ghost use Rattle.std.specs.Prelude.{◌≡◌};
    ghost use Rattle.bng_ppp.specs.Said.{said, quiet as says_nothing};

    /// A place for what steps give, in which nothing stands yet. One serves for all the steps of a caller.
    pub fn new() -> LcpOutcome
        ensures { said result ≡ says_nothing }
    {
        LcpOutcome {
            outs: ArrayVec::new(),
            opened: false,
            finished: false,
        }
    }

    /// Nothing stands in it any longer.
    pub(crate) fn clear(&mut self)
        ensures { said self.new ≡ says_nothing }
    {
        self.outs.clear();
        self.opened = false;
        self.finished = false;
    }
}
