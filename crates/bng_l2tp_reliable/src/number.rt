//! The sequence numbers of control messages, modulo 65,536 (RFC 2661 section 5.8).
ghost use Rattle.std.specs.Prelude.{◌≡◌};
ghost use Rattle.bng_l2tp_reliable.specs.Calls.{heard_of, nr_after as nr_after_it};
ghost use Rattle.bng_l2tp_reliable.specs.Numbers.{steps_on as on, steps_to as to, steps_back as back};

use crate::answers::Heard;

/// How far behind the last message received a number still counts as received before (RFC 2661 section 5.8).
const BEHIND_MOST: u16 = 32_767;

/// The number that comes so many steps after a number.
pub(crate) fn steps_on(number: u16, steps: u16) -> u16
    ensures { result ≡ on number steps }
{
    number.wrapping_add(steps)
}

/// The number that comes so many steps before a number.
pub(crate) fn steps_back(number: u16, steps: u16) -> u16
    ensures { result ≡ back number steps }
{
    number.wrapping_sub(steps)
}

/// How many steps lead from one number on to another, 0 to 65,535.
pub(crate) fn steps_to(from: u16, number: u16) -> u16
    ensures { result ≡ to from number }
{
    number.wrapping_sub(from)
}

/// What a message is by its Ns where `nr` is the number that is expected next.
pub(crate) fn heard(nr: u16, ns: u16, zlb: bool) -> Heard
    ensures { result ≡ heard_of nr ns zlb }
{
    if zlb {
        Heard::Acked
    } else if ns == nr {
        Heard::Deliver
    } else if steps_to(ns, steps_back(nr, 1)) <= BEHIND_MOST {
        Heard::Repeat
    } else {
        Heard::Ahead
    }
}

/// The number that is expected next after a message with this Ns, or a ZLB, came.
pub(crate) fn nr_after(nr: u16, ns: u16, zlb: bool) -> u16
    ensures { result ≡ nr_after_it nr ns zlb }
{
    if !zlb && ns == nr {
        steps_on(nr, 1)
    } else {
        nr
    }
}
