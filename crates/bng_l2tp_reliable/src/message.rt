//! The octets of a control message.
ghost use Rattle.std.specs.Prelude.{◌≡◌, ◌≤◌, length};

use arrayvec::ArrayVec;

/// The most octets of a control message that a channel takes.
pub const MESSAGE_MOST: usize = 512;

/// A control message's octets.
pub type Message = ArrayVec<u8, MESSAGE_MOST>;

/// A message of these octets.
pub(crate) fn message_of(octets: &[u8]) -> Message
    requires { length octets.now ≤ MESSAGE_MOST }
    ensures { result ≡ record { items = octets.now } }
{
    let Ok(message) = ArrayVec::try_from(octets) else {
        unreachable!();
    };
    message
}

/// The same message once more.
pub(crate) fn copied(message: &Message) -> Message
    ensures { result ≡ message.now }
{
    message_of(message.as_slice())
}
