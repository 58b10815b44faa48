//! What a tunnel or a call answers: what goes out, and what came to be.
ghost use Rattle.std.specs.Prelude.{◌≡◌, [], true};
ghost use Rattle.bng_l2tp_wire.specs.View.{payloads, said, sends as says_to_send};

use arrayvec::ArrayVec;
use bng_base::{Frame, TunnelStep};

/// The frames of a step.
pub type Outs = ArrayVec<Frame, 10>;

/// A step that sends these frames, and tells nothing else.
pub fn sends(outs: Outs) -> TunnelStep
    ensures { said result ≡ says_to_send (payloads outs.items) }
{
    TunnelStep {
        outs,
        established: false,
        cleared: false,
        call: false,
        opened: false,
        ended: false,
        left_out: false,
    }
}

/// A step that does nothing.
#[inline(never)]
pub fn nothing() -> TunnelStep
    ensures { said result ≡ says_to_send [] }
{
    sends(ArrayVec::new())
}

/// The same step, in which the tunnel was cleared.
pub fn cleared(mut step: TunnelStep) -> TunnelStep
    ensures { said result ≡ record (said step) { cleared = true } }
{
    step.cleared = true;
    step
}

/// The same step, in which the call came to be established.
pub fn opened(mut step: TunnelStep) -> TunnelStep
    ensures { said result ≡ record (said step) { opened = true } }
{
    step.opened = true;
    step
}

/// The same step, in which the call ended, or none was made.
pub fn ended(mut step: TunnelStep) -> TunnelStep
    ensures { said result ≡ record (said step) { ended = true } }
{
    step.ended = true;
    step
}
