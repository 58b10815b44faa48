//! The law of the channel over two ends and a network.
ghost use Rattle.std.specs.Prelude.{◌≡◌, ◌+◌, ◌%◌, ◌<◌, ◌≤◌, ℕ, List, length, false};
ghost use Rattle.bng_l2tp_reliable.specs.Calls.{heard_of};
ghost use Rattle.bng_l2tp_reliable.specs.World.{Event, AtLeft, AtRight, run, start, exchange, acknowledged_of, ArriveRecently, IsReliable};

use crate::answers::Heard;

/// Whatever a network loses, repeats or reorders between two ends with any windows: what was delivered is the beginning of
/// what was sent, so each message once and in order, and what counts as acknowledged was delivered. The premise is that a
/// packet arrives before more than 32,767 messages have gone out in either direction since it was sent (RFC 2661 section
/// 5.8).
///
/// The steps of the two ends are those that the contracts of [`crate::Channel`] name.
pub fn delivers_in_order()
    ensures to_right { (events : List Event) (window window' moment moment' : ℕ)
        → let begin = start window window' moment moment' in
        ArriveRecently begin events → IsReliable (run begin events).left (run begin events).right }
    ensures to_left { (events : List Event) (window window' moment moment' : ℕ)
        → let begin = start window window' moment moment' in
        ArriveRecently begin events → IsReliable (run begin events).right (run begin events).left }
{}

/// After every such run: where the oldest message in flight goes out again and arrives, and a ZLB comes back, more
/// messages count as acknowledged than before.
pub fn goes_on()
    ensures to_right { (events : List Event) (window window' moment moment' arrived arrived' : ℕ)
        → let begin = start window window' moment moment' in
        let w = run begin events in
        let after = run w (exchange AtLeft AtRight w.left w.right arrived arrived') in
        ArriveRecently begin events → 0 < length w.left.channel.sends
        → length (acknowledged_of w.left) < length (acknowledged_of after.left) }
    ensures to_left { (events : List Event) (window window' moment moment' arrived arrived' : ℕ)
        → let begin = start window window' moment moment' in
        let w = run begin events in
        let after = run w (exchange AtRight AtLeft w.right w.left arrived arrived') in
        ArriveRecently begin events → 0 < length w.right.channel.sends
        → length (acknowledged_of w.right) < length (acknowledged_of after.right) }
{}

/// Numbers modulo 65,536 tell which of two messages comes first, where they are no more than 32,768 messages apart: the
/// next one, a repeated one, or one ahead of a missing one.
pub fn numbers_tell_the_order()
    ensures next { (n : ℕ) → heard_of (n % 65536) (n % 65536) false ≡ Heard.Deliver }
    ensures repeated { (n count : ℕ) → n < count → count ≤ n + 32768
        → heard_of (count % 65536) (n % 65536) false ≡ Heard.Repeat }
    ensures ahead { (n count : ℕ) → count < n → n < count + 32768
        → heard_of (count % 65536) (n % 65536) false ≡ Heard.Ahead }
{}
