ghost use Rattle.std.specs.Prelude.{◌≡◌, ◌≤◌, length};
ghost use Rattle.std.specs.Option.{option_map};
ghost use Rattle.std.specs.List.{AllByRecursion};
ghost use Rattle.bng_radius_wire.specs.Attributes.{Fits, fields};
ghost use Rattle.bng_radius_wire.specs.Grammar.{whole};
ghost use Rattle.bng_verdict.specs.Verdicts.{said, verdict_in, IsVerdict};

use crate::attributes::{is_served, reply_text};
use arrayvec::ArrayVec;
use bng_radius_wire::codes::{ACCESS_ACCEPT, ACCESS_CHALLENGE, ACCESS_REJECT};
use bng_radius_wire::{Radius, read};

/// What was found of a peer: whether it is accepted, and the text of the reply that tells it so.
#[derive(Drop)]
pub struct AccessVerdict {
    pub yes: bool,
    pub text: ArrayVec<u8, 253>,
}

// A list of these octets.
fn text_of(octets: &[u8]) -> ArrayVec<u8, 253>
    requires { length octets.now ≤ 253 }
    ensures { result.items ≡ octets.now }
{
    let Ok(list) = ArrayVec::try_from(octets) else {
        unreachable!();
    };
    list
}

// What a packet says. An Access-Challenge is taken as an Access-Reject.
#[tactic(auto, using(crate::proofs::Texts::text_fits))]
fn verdict_in(packet: &Radius<'_>) -> Option<AccessVerdict>
    requires { AllByRecursion Fits (fields packet.now.attributes.items) }
    ensures { option_map said result ≡ verdict_in (whole packet.now) }
{
    let attributes = packet.attributes.as_slice();
    let yes = match packet.code {
        ACCESS_ACCEPT => is_served(attributes),
        ACCESS_REJECT | ACCESS_CHALLENGE => false,
        _ => return None,
    };
    Some(AccessVerdict {
        yes,
        text: text_of(reply_text(attributes)),
    })
}

/// What the octets of a reply to an Access-Request say; no octets stand for a server that was silent to the last, which is
/// a no with the text `timeout`. An Access-Accept is a yes unless its first Service-Type with a value of four octets is
/// another than Framed (RFC 2865 section 5.6); an Access-Reject and an Access-Challenge are a no. The text is the first
/// Reply-Message, else empty. None where octets are there that begin with no packet of at most 64 attributes, or
/// with a packet of another code.
pub fn verdict_of(reply: &[u8]) -> Option<AccessVerdict>
    ensures { IsVerdict reply.now (option_map said result) }
{
    if reply.is_empty() {
        return Some(AccessVerdict {
            yes: false,
            text: text_of(b"timeout"),
        });
    }
    match read(reply) {
        Ok(packet) => verdict_in(&packet),
        Err(_) => None,
    }
}
