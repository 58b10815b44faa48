ghost use Rattle.std.specs.Prelude.{◌≡◌, ◌≤◌, length, None, slice_range, slice_set};
ghost use Rattle.bng_radius_wire.specs.Grammar.{Packet};
ghost use Rattle.bng_rad_client.specs.Replies.{takes, IsReplyOf, Answers, WhenIgnored, WhenMatched};

use crate::requests::Requests;
use crate::rules::{Lane, Owner};
use bng_base::Peer;
use bng_radius_wire::{Checked, check_reply, codes, read};

/// Why a datagram is passed over: it does not come from the lane's server; it is no packet, has more than 64 attributes, or
/// has a code that the lane does not take; no request has its identifier; or a digest is wrong.
#[derive(Clone, Copy, PartialEq, Eq)]
pub enum IgnoredReply {
    Stranger,
    Malformed,
    NotPending,
    WrongDigest,
}

/// What a datagram is: the reply to a request of this owner, or nothing.
#[derive(Clone, Copy, PartialEq, Eq)]
pub enum Replied {
    Matched(Owner),
    Ignored(IgnoredReply),
}

// Whether a code answers requests of the lane.
fn takes(lane: Lane, code: u8) -> bool
    ensures { result ≡ takes lane code }
{
    match lane {
        Lane::Auth => {
            code == codes::ACCESS_ACCEPT
                || code == codes::ACCESS_REJECT
                || code == codes::ACCESS_CHALLENGE
        }
        Lane::Acct => code == codes::ACCOUNTING_RESPONSE,
    }
}

// The Request Authenticator of a request.
fn authenticator_of(octets: &[u8]) -> [u8; 16]
    requires { 20 ≤ length octets.now }
    ensures { result ≡ slice_range octets.now 4 20 }
{
    let mut authenticator = [0; 16];
    authenticator.copy_from_slice(&octets[4..20]);
    authenticator
}

/// What a datagram is to a lane's requests. Where it is the reply to one, that request is out no longer.
pub(crate) fn reply(
    requests: &mut Requests,
    lane: Lane,
    server: Peer,
    secret: &[u8],
    from: Peer,
    bytes: &[u8],
) -> Replied
    requires { length secret.now ≤ 64 }
    ensures answer { Answers server from lane requests.old.places secret.now bytes.now result }
    ensures last { requests.new.last ≡ requests.old.last }
    ensures ignored { WhenIgnored result (requests.new.places ≡ requests.old.places) }
    ensures matched { WhenMatched result ((p : Packet) × IsReplyOf lane p bytes.now × (requests.new.places ≡ slice_set requests.old.places p.id None)) }
{
    if from != server {
        return Replied::Ignored(IgnoredReply::Stranger);
    }
    let id = match read(bytes) {
        Ok(packet) if takes(lane, packet.code) => packet.id,
        _ => return Replied::Ignored(IgnoredReply::Malformed),
    };
    let authenticator = match requests.get(id) {
        Some(request) => authenticator_of(request.octets.as_slice()),
        None => return Replied::Ignored(IgnoredReply::NotPending),
    };
    match check_reply(bytes, &authenticator, secret) {
        Checked::WrongDigest => Replied::Ignored(IgnoredReply::WrongDigest),
        Checked::Right => match requests.take(id) {
            Some(request) => Replied::Matched(request.owner),
            None => Replied::Ignored(IgnoredReply::NotPending),
        },
    }
}
