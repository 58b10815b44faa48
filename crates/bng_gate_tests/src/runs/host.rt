//! A host on access port 1 and what it hears from the gateway.
use super::loopback;
use bng_base::Role;
use bng_digest::hmac_md5_of;
use bng_plant::Arrival;
use std::alloc::{AllocError, Global};

/// Four shards, the service inet and no circuit.
pub(super) const SESSIONS: &str = r#"[gateway]
name = "bng1"
address = "10.0.0.1"
nas_ip = "192.168.1.16"
shards = 4
services = ["inet"]
[core]
local = "127.0.0.1:9000"
peer = "127.0.0.1:9001"
[control]
local = "127.0.0.1:9002"
[radius]
auth_local = "127.0.0.1:9003"
auth_server = "127.0.0.1:1812"
acct_local = "127.0.0.1:9004"
acct_server = "127.0.0.1:1813"
secret = "xyzzy5461"
[[access]]
local = "127.0.0.1:9010"
peer = "127.0.0.1:9011"
mac = "02:00:00:00:00:fe"
[[pool]]
name = "main"
first = "10.0.0.2"
last = "10.0.0.101"
"#;

/// The host's MAC.
pub(super) const HOST: [u8; 6] = [0x02, 0x00, 0x00, 0x00, 0x00, 0x01];

/// The first sixteen octets that are drawn from the seed of the runs, as an independent ChaCha20 gives them.
const KEY: [u8; 16] = [
    0x06, 0xba, 0x35, 0xca, 0xf7, 0x11, 0x52, 0xc9, 0xb6, 0x60, 0xa7, 0x09, 0x47, 0x58, 0xae, 0x5f,
];

/// A PADR for any service with a Host-Uniq, and the place of its cookie.
const PADR: [u8; 52] = [
    0x02, 0x00, 0x00, 0x00, 0x00, 0xfe, 0x02, 0x00, 0x00, 0x00, 0x00, 0x01, 0x88, 0x63, 0x11, 0x19,
    0x00, 0x00, 0x00, 0x20, 0x01, 0x01, 0x00, 0x00, 0x01, 0x03, 0x00, 0x04, 0xa1, 0xb2, 0xc3, 0xd4,
    0x01, 0x04, 0x00, 0x10, 0x00, 0x00, 0x00, 0x00, 0x00, 0x00, 0x00, 0x00, 0x00, 0x00, 0x00, 0x00,
    0x00, 0x00, 0x00, 0x00,
];

/// The PADS for it, of the lowest session of the host's shard.
pub(super) const PADS: [u8; 32] = [
    0x02, 0x00, 0x00, 0x00, 0x00, 0x01, 0x02, 0x00, 0x00, 0x00, 0x00, 0xfe, 0x88, 0x63, 0x11, 0x65,
    0x0c, 0x01, 0x00, 0x0c, 0x01, 0x01, 0x00, 0x00, 0x01, 0x03, 0x00, 0x04, 0xa1, 0xb2, 0xc3, 0xd4,
];

/// The PADT of that session.
pub(super) const PADT: [u8; 20] = [
    0x02, 0x00, 0x00, 0x00, 0x00, 0x01, 0x02, 0x00, 0x00, 0x00, 0x00, 0xfe, 0x88, 0x63, 0x11, 0xa7,
    0x0c, 0x01, 0x00, 0x00,
];

/// A PADR of a host with the right cookie.
pub(super) fn request(host: &[u8; 6]) -> [u8; 52] {
    let mut padr = PADR;
    padr[6..12].copy_from_slice(host);
    padr[36..].copy_from_slice(&hmac_md5_of(&KEY, &[&[1], host]));
    padr
}

/// What stands before the low octet of LENGTH in a frame of the session to the gateway, and in one to the host.
pub(super) const TO_GATEWAY: [u8; 19] = [
    0x02, 0x00, 0x00, 0x00, 0x00, 0xfe, 0x02, 0x00, 0x00, 0x00, 0x00, 0x01, 0x88, 0x64, 0x11, 0x00,
    0x0c, 0x01, 0x00,
];

pub(super) const TO_HOST: [u8; 19] = [
    0x02, 0x00, 0x00, 0x00, 0x00, 0x01, 0x02, 0x00, 0x00, 0x00, 0x00, 0xfe, 0x88, 0x64, 0x11, 0x00,
    0x0c, 0x01, 0x00,
];

/// A Configure-Request with an MRU and a magic number, and its Configure-Ack.
pub(super) const REQUEST: [u8; 16] = [
    0xc0, 0x21, 0x01, 0x02, 0x00, 0x0e, 0x01, 0x04, 0x05, 0xd4, 0x05, 0x06, 0x11, 0x22, 0x33, 0x44,
];

pub(super) const ACKED: [u8; 16] = [
    0xc0, 0x21, 0x02, 0x02, 0x00, 0x0e, 0x01, 0x04, 0x05, 0xd4, 0x05, 0x06, 0x11, 0x22, 0x33, 0x44,
];

/// The gateway's Configure-Request, whose magic number is drawn for the first item, and the host's Configure-Ack.
pub(super) const ASKED: [u8; 21] = [
    0xc0, 0x21, 0x01, 0x01, 0x00, 0x13, 0x01, 0x04, 0x05, 0xd4, 0x03, 0x05, 0xc2, 0x23, 0x05, 0x05,
    0x06, 0xa1, 0xb2, 0xc3, 0xd4,
];

pub(super) const ACK: [u8; 21] = [
    0xc0, 0x21, 0x02, 0x01, 0x00, 0x13, 0x01, 0x04, 0x05, 0xd4, 0x03, 0x05, 0xc2, 0x23, 0x05, 0x05,
    0x06, 0xa1, 0xb2, 0xc3, 0xd4,
];

pub(super) fn framed(
    alloc: Global,
    front: &[u8; 19],
    payload: &[u8],
) -> Result<Vec<u8>, AllocError> {
    let mut frame = Vec::from_slice(alloc, front)?;
    frame.push(payload.len().min(255) as u8)?;
    frame.extend_from_slice(payload)?;
    Ok(frame)
}

/// A frame of the host's session comes with this payload.
pub(super) fn from_host(alloc: Global, payload: &[u8]) -> Result<Arrival, AllocError> {
    let frame = framed(alloc, &TO_GATEWAY, payload)?;
    Ok(Arrival::new(Role::Access(1), loopback(9011), frame.as_slice()))
}

/// A PADR, and these frames of the session that it makes.
pub(super) fn session(alloc: Global, payloads: &[&[u8]]) -> Result<Vec<Arrival>, AllocError> {
    let mut script = Vec::new(alloc);
    script.push(padr())?;
    then_hears(alloc, &mut script, payloads)?;
    Ok(script)
}

/// The host's PADR.
fn padr() -> Arrival {
    Arrival::new(Role::Access(1), loopback(9011), &request(&HOST))
}

/// Frames of the host's session come next with these payloads.
pub(super) fn then_hears(
    alloc: Global,
    script: &mut Vec<Arrival>,
    payloads: &[&[u8]],
) -> Result<(), AllocError> {
    for payload in payloads {
        script.push(from_host(alloc, payload)?)?;
    }
    Ok(())
}
