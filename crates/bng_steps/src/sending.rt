ghost use Rattle.std.specs.Prelude.{◌≡◌, ◌+◌, ◌<◌, ◌++◌, ◌∷◌, [], length};
ghost use Rattle.bng_steps.specs.Deed.{out};

use bng_base::{At, Batch, Charge, Frame, OutRecord, Peer, Role};

/// Appends a datagram that an entry has to send.
pub fn push_out(
    outs: &mut Batch<OutRecord>,
    at: At,
    role: Role,
    to: Peer,
    frame: &Frame,
    charge: Option<Charge>,
)
    requires room { length outs.old.items < outs.old.room }
    ensures items { outs.new.items ≡ outs.old.items ++ out at role to frame.now.payload charge ∷ [] }
    ensures capacity { outs.new.room ≡ outs.old.room }
{
    outs.push_out(at, role, to, frame, charge);
}
