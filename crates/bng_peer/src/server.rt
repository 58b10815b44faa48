//! The RADIUS server: it accepts every Access-Request, and acknowledges every record (RFC 2865, RFC 2866).
ghost use Rattle.std.specs.Prelude.{◌≡◌, ◌≤◌, length};
ghost use Rattle.std.specs.List.{AllByRecursion};
ghost use Rattle.bng_radius_wire.specs.Attributes.{Fits, fields};
ghost use Rattle.bng_radius_wire.specs.Digests.{CanBeSigned};
ghost use Rattle.bng_radius_wire.specs.Grammar.{whole, attributes_text};
ghost use Rattle.bng_peer.specs.Server.{access_accept, accounting_response, IsReply};

use crate::queue::Queue;
use crate::script::{INTERIM, RADIUS_SECRET, subscriber_named};
use arrayvec::ArrayVec;
use bng_base::{Frame, Written};
use bng_radius_wire::codes::{
    ACCESS_ACCEPT, ACCESS_REQUEST, ACCOUNTING_REQUEST, ACCOUNTING_RESPONSE,
};
use bng_radius_wire::kinds::{ACCT_INTERIM_INTERVAL, ACCT_STATUS_TYPE, SERVICE_TYPE, USER_NAME};
use bng_radius_wire::{Attribute, Radius, read, sign_reply, write};
use std::alloc::{AllocError, Global};

/// How many Identifiers there are.
const IDENTIFIERS: u32 = 256;

/// Service-Type Framed (RFC 2865 section 5.6).
const FRAMED: u32 = 2;

/// Acct-Status-Type Stop and Interim-Update (RFC 2866 section 5.1).
const STOP: u32 = 2;

const INTERIM_UPDATE: u32 = 3;

/// What a record tells.
#[derive(Clone, Copy, Default)]
pub(crate) enum Status {
    #[default]
    Other,
    Interim,
    Stop,
}

/// A request that is to be answered.
#[derive(Clone, Copy)]
struct OpenRequest {
    authenticator: [u8; 16],
    status: Status,
    subscriber: Option<u16>,
}

/// The record that a reply acknowledges.
#[derive(Clone, Copy)]
pub(crate) struct Acknowledged {
    pub(crate) status: Status,
    pub(crate) subscriber: Option<u16>,
}

/// One of the server's two ends: its requests by their Identifiers, of which each that is open is another.
#[derive(Drop)]
pub(crate) struct PeerServer {
    asked: Vec<OpenRequest>,
    ready: Queue,
}

fn status_of(value: &[u8]) -> Status {
    match value {
        [a, b, c, d] => match u32::from_be_bytes([*a, *b, *c, *d]) {
            STOP => Status::Stop,
            INTERIM_UPDATE => Status::Interim,
            _ => Status::Other,
        },
        _ => Status::Other,
    }
}

// What is kept of a request.
fn asked_by(request: &Radius<'_>) -> OpenRequest {
    let mut asked = OpenRequest {
        authenticator: request.authenticator,
        status: Status::Other,
        subscriber: None,
    };
    for attribute in request.attributes.as_slice() {
        match attribute.kind {
            USER_NAME => asked.subscriber = subscriber_named(attribute.value),
            ACCT_STATUS_TYPE => asked.status = status_of(attribute.value),
            _ => {}
        }
    }
    asked
}

// A reply to the request with this Authenticator, signed.
fn signed(reply: &Radius<'_>, authenticator: &[u8; 16]) -> Frame
    requires short { length (attributes_text (fields reply.now.attributes.items)) ≤ 4000 }
    requires sixteen { length reply.now.authenticator ≡ 16 }
    requires fit { AllByRecursion Fits (fields reply.now.attributes.items) }
    requires signable { CanBeSigned (whole reply.now) }
    ensures { IsReply (whole reply.now) authenticator.now result.payload }
{
    let mut frame = Frame::new();
    match write(reply, &mut frame) {
        Written::Done => {}
        Written::Full => unreachable!(),
    }
    sign_reply(&mut frame, authenticator, RADIUS_SECRET);
    frame
}

/// The Access-Accept to the request with this Identifier and Authenticator.
pub(crate) fn accept(id: u8, authenticator: &[u8; 16]) -> Frame
    ensures { IsReply (access_accept id) authenticator.now result.payload }
{
    let service = FRAMED.to_be_bytes();
    let interval = INTERIM.to_be_bytes();
    let mut attributes = ArrayVec::new();
    attributes.push(Attribute {
        kind: SERVICE_TYPE,
        value: &service,
    });
    attributes.push(Attribute {
        kind: ACCT_INTERIM_INTERVAL,
        value: &interval,
    });
    let reply = Radius {
        code: ACCESS_ACCEPT,
        id,
        authenticator: [0; 16],
        attributes,
    };
    signed(&reply, authenticator)
}

/// The Accounting-Response to the request with this Identifier and Authenticator.
pub(crate) fn acknowledge(id: u8, authenticator: &[u8; 16]) -> Frame
    ensures { IsReply (accounting_response id) authenticator.now result.payload }
{
    let reply = Radius {
        code: ACCOUNTING_RESPONSE,
        id,
        authenticator: [0; 16],
        attributes: ArrayVec::new(),
    };
    signed(&reply, authenticator)
}

impl PeerServer {
    /// An end that has no request.
    pub(crate) fn new(alloc: Global) -> Result<PeerServer, AllocError> {
        let mut asked = Vec::new(alloc);
        for _ in 0..IDENTIFIERS {
            asked.push(OpenRequest {
                authenticator: [0; 16],
                status: Status::Other,
                subscriber: None,
            })?;
        }
        Ok(PeerServer {
            asked,
            ready: Queue::new(alloc, IDENTIFIERS)?,
        })
    }

    /// Takes a request.
    pub(crate) fn hear(&mut self, bytes: &[u8]) {
        let Ok(request) = read(bytes) else {
            return;
        };
        if request.code != ACCESS_REQUEST && request.code != ACCOUNTING_REQUEST {
            return;
        }
        if let Some(place) = self.asked.get_mut(usize::from(request.id)) {
            *place = asked_by(&request);
        }
        self.ready.push(u32::from(request.id));
    }

    fn next(&mut self) -> Option<(u8, OpenRequest)> {
        let id = self.ready.pop()?;
        let asked = self.asked.get(id as usize)?;
        Some(((id % 256) as u8, *asked))
    }

    /// The next Access-Accept.
    pub(crate) fn say_accept(&mut self) -> Option<Frame> {
        let (id, asked) = self.next()?;
        Some(accept(id, &asked.authenticator))
    }

    /// The next Accounting-Response, and the record that it acknowledges.
    pub(crate) fn say_acknowledgement(&mut self) -> Option<(Frame, Acknowledged)> {
        let (id, asked) = self.next()?;
        let what = Acknowledged {
            status: asked.status,
            subscriber: asked.subscriber,
        };
        Some((acknowledge(id, &asked.authenticator), what))
    }
}
