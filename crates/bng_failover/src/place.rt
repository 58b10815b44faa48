// What is done at one server of a lane, by its place.
ghost use Rattle.std.specs.Prelude.{◌≡◌, ◌≤◌, ◌<◌, IfSome, IfNone, IsSome, length, slice_get};
ghost use Rattle.bng_radius_wire.specs.Grammar.{Packet, IsRadius};
ghost use Rattle.bng_radius_wire.specs.Digests.{CanBeSigned};
ghost use Rattle.bng_rad_client.specs.Replies.{WhenIgnored};
ghost use Rattle.bng_failover.specs.Servers.{request_at, in_hand, AreSound};
ghost use Rattle.bng_failover.specs.Asking.{IsAskedAt};
ghost use Rattle.bng_failover.specs.Due.{IsRepeatedAt};
ghost use Rattle.bng_failover.specs.Places.{IsWithdrawnAt, IsHandedOver, HearsAt, HasRoomAt};

use crate::server::Server;
use crate::{asking, replies};
use bng_base::{Frame, Peer};
use bng_rad_client::{Lane, Owner, Pending, Replied};

/// Asks the server at this place.
pub(crate) fn ask(
    servers: &mut Vec<Server>,
    at: usize,
    secret: &[u8],
    owner: Owner,
    request: &[u8],
    now: u64,
    into: &mut Frame,
) -> Peer
    requires there { at < length servers.old.items }
    requires grammar { (p : Packet) × IsRadius p request.now × CanBeSigned p }
    requires key { length secret.now ≤ 64 }
    requires room { HasRoomAt servers.old.items at }
    ensures { IsAskedAt servers.old.items servers.new.items at owner request.now secret.now now result into.new }
{
    let server = &mut servers[at];
    asking::ask(&mut server.requests, secret, owner, request, now, into);
    server.peer
}

/// Takes the request out that the server at this place holds under an identifier.
pub(crate) fn withdraw(servers: &mut Vec<Server>, at: usize, id: u8) -> Option<Pending>
    requires { at < length servers.old.items }
    ensures { IsWithdrawnAt servers.old.items servers.new.items at id result }
{
    let server = &mut servers[at];
    server.requests.take(id)
}

/// What a datagram of the server at this place is to the requests that are in hand at it.
pub(crate) fn hear(
    servers: &mut Vec<Server>,
    at: usize,
    lane: Lane,
    secret: &[u8],
    bytes: &[u8],
) -> Replied
    requires there { at < length servers.old.items }
    requires key { length secret.now ≤ 64 }
    ensures { HearsAt lane servers.old.items servers.new.items at secret.now bytes.now result }
{
    let server = &mut servers[at];
    replies::reply(&mut server.requests, lane, server.peer, secret, bytes)
}

/// Sends the request again that the server at this place holds under an identifier.
pub(crate) fn repeat(
    servers: &mut Vec<Server>,
    at: usize,
    id: u8,
    now: u64,
    into: &mut Frame,
) -> Peer
    requires there { at < length servers.old.items }
    requires held { IsSome (request_at servers.old.items at id) }
    ensures { IsRepeatedAt servers.old.items servers.new.items at id now result into.new }
{
    let server = &mut servers[at];
    match server.requests.take(id) {
        Some(request) => {
            into.set(request.octets.as_slice());
            server.requests.put(id, request.again(now));
        }
        None => unreachable!(),
    }
    server.peer
}

/// Takes the request from the server that holds it under an identifier, and asks another one.
pub(crate) fn hand_over(
    servers: &mut Vec<Server>,
    from: usize,
    id: u8,
    to: usize,
    secret: &[u8],
    now: u64,
    into: &mut Frame,
) -> Peer
    requires sound { AreSound servers.old.items }
    requires from_there { from < length servers.old.items }
    requires to_there { to < length servers.old.items }
    requires key { length secret.now ≤ 64 }
    requires held { IsSome (request_at servers.old.items from id) }
    ensures { IsHandedOver servers.old.items servers.new.items from id to secret.now now result into.new }
{
    match withdraw(servers, from, id) {
        Some(request) => ask(
            servers,
            to,
            secret,
            request.owner,
            request.octets.as_slice(),
            now,
            into,
        ),
        None => unreachable!(),
    }
}
