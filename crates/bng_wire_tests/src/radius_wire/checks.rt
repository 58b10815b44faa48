use crate::asserts::assert_holds_for;
use bng_radius_wire::{Checked, check_reply, read};
use hex::FromHex;
use std::alloc::Global;
use std::process::Abort;
use std::test::Fail;

// The check of a reply, where the octets are a packet.
fn check(octets: &[u8], request: &[u8; 16]) -> Option<Checked> {
    match read(octets) {
        Ok(_) => Some(check_reply(octets, request, b"xyzzy5461")),
        Err(_) => None,
    }
}

// Asserts the check of a reply to the request that has this Authenticator, both in hexadecimal digits.
fn assert_checked(
    rt: &impl Abort,
    alloc: Global,
    request: &str,
    reply: &str,
    answer: Checked,
) -> Result<(), Fail> {
    let request = <[u8; 16] as FromHex>::from_hex(request)?;
    let octets = hex::decode(alloc, reply)?;
    let found = check(octets.as_slice(), &request);
    assert_holds_for(rt, found == Some(answer), reply);
    Ok(())
}

// Authenticators of requests, replies, and how these are checked.
const REPLIES: &[(&str, &str, Checked)] = &[
    // section 7.1
    (
        "0f403f9473978057bd83d5cb98f4227a",
        "0200002686fe220e7624ba2a1005f6bf9b55e0b20606000000010f06000000000e06c0a80103",
        Checked::Right,
    ),
    (
        "0f403f9473978057bd83d5cb98f4227a",
        "0200002686fe220e7624ba2a1005f6bf9b55e0b20606000000010f06000000000e06c0a80104",
        Checked::WrongDigest,
    ),
    // section 7.2
    (
        "2aee86f08d0d55969ca5978e0d3367a2",
        "0201003815efbc7dab26cfa3dc34d9c03c8601a40606000000020706000000010806fffffffe0a06000000020d06000000010c06000005dc",
        Checked::Right,
    ),
    // section 7.3: an Access-Challenge and an Access-Reject
    (
        "f3a47a1f6a6d76710b947ab93041a039",
        "0b02004e36f3c8764ae8c71157403c0c71ff9c4512304368616c6c656e67652033323736393433302e2020456e74657220726573706f6e73652061742070726f6d70742e180a3332373639343330",
        Checked::Right,
    ),
    (
        "b122556d428a13d0d6253807c457ecf0",
        "03030014a42f4fca45916c4e09c8340f9e746aa0",
        Checked::Right,
    ),
    (
        "f3a47a1f6a6d76710b947ab93041a039",
        "03030014a42f4fca45916c4e09c8340f9e746aa0",
        Checked::WrongDigest,
    ),
];

#[test]
fn replies_of_rfc_2865_are_right(rt: HostRuntime) -> Result<(), Fail> {
    for (request, reply, answer) in REPLIES {
        assert_checked(&rt, rt.alloc(), request, reply, *answer)?;
    }
    Ok(())
}

// The Request Authenticator of RFC 2865 section 7.1.
const REQUEST: &str = "0f403f9473978057bd83d5cb98f4227a";

// Replies to it, and how they are checked.
const MESSAGES: &[(&str, Checked)] = &[
    (
        "0207003993902e405dcaff94c1c89a8741045dd106060000000208060a0000021907636c6173735012c15e9831b938805e053875ca899d9314",
        Checked::Right,
    ),
    // its last octet changed
    (
        "020700394a3cf9fd267ec2c172ae58bd6a7edd9606060000000208060a0000021907636c6173735012c15e9831b938805e053875ca899d9315",
        Checked::WrongDigest,
    ),
    // made over the reply's own authenticator
    (
        "020700398644614786b66b980d620883a0c8f76706060000000208060a0000021907636c6173735012204559b4d6da696c502ade46518e8f74",
        Checked::WrongDigest,
    ),
    // of 15 octets
    (
        "020700382582dc3e00125350ab39d1e007a4e00806060000000208060a0000021907636c6173735011c15e9831b938805e053875ca899d93",
        Checked::WrongDigest,
    ),
];

// The first reply is FreeRADIUS 3.2.1's to an Access-Request with that authenticator. The others have the right
// Response Authenticator, by Python's hashlib, and a wrong Message-Authenticator.
#[test]
fn a_wrong_message_authenticator_is_a_wrong_digest(rt: HostRuntime) -> Result<(), Fail> {
    for (reply, answer) in MESSAGES {
        assert_checked(&rt, rt.alloc(), REQUEST, reply, *answer)?;
    }
    Ok(())
}
