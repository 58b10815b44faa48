//! What a channel answers.
ghost use Rattle.std.specs.Prelude.{◌≡◌};
ghost use Rattle.bng_l2tp_reliable.specs.Timers.{or_else as first_of};

/// What became of a message that was handed to a channel.
#[derive(Clone, Copy, PartialEq, Eq, Debug)]
pub enum Queued {
    /// It waits until the window lets it out.
    Ok,
    /// As many messages wait as there is room for. It was left out.
    WindowQueueFull,
}

/// What a message is by its Ns (RFC 2661 section 5.8).
#[derive(Clone, Copy, PartialEq, Eq, Debug)]
pub enum Heard {
    /// It is the next message, and is to be acted upon.
    Deliver,
    /// It was received before, and is to be acknowledged again.
    Repeat,
    /// A message before it is missing.
    Ahead,
    /// It is a ZLB, which only acknowledges.
    Acked,
}

/// What a channel's timers ask for.
#[derive(Clone, Copy, PartialEq, Eq, Debug)]
pub enum Due {
    /// Nothing.
    Nothing,
    /// The messages in flight are to go out again (RFC 2661 section 5.8).
    Resend,
    /// A HELLO is to be sent (RFC 2661 section 5.5).
    Hello,
    /// The peer does not answer; the tunnel is to be cleared (RFC 2661 section 5.8).
    GiveUp,
}

/// The first of the two that asks for something.
pub(crate) fn or_else(first: Due, second: Due) -> Due
    ensures { result ≡ first_of first second }
{
    match first {
        Due::Nothing => second,
        Due::Resend | Due::Hello | Due::GiveUp => first,
    }
}
