ghost use Rattle.std.specs.Prelude.{◌≤◌, length};
ghost use Rattle.std.specs.List.{AllByRecursion};
ghost use Rattle.bng_radius_wire.specs.Attributes.{Fits, fields};
ghost use Rattle.bng_radius_wire.specs.Grammar.{whole};
ghost use Rattle.bng_radius_wire.specs.Digests.{CanBeSigned};

use crate::asserts::{assert_hex, assert_holds};
use arrayvec::ArrayVec;
use bng_radius_wire::{
    Attribute, Frame, Radius, Written, codes, kinds, sign_reply, sign_request, write,
};
use std::process::Abort;
use std::test::Fail;

const SECRET: &[u8] = b"xyzzy5461";

// The code of Status-Server (RFC 5997), which the gateway does not send.
const STATUS_SERVER: u8 = 12;

const SESSION: Attribute<'static> = Attribute {
    kind: kinds::ACCT_SESSION_ID,
    value: b"00000001",
};

const NAME: Attribute<'static> = Attribute {
    kind: kinds::USER_NAME,
    value: b"nemo",
};

const UNSIGNED: Attribute<'static> = Attribute {
    kind: kinds::MESSAGE_AUTHENTICATOR,
    value: &[0; 16],
};

// A request as it is written and signed.
fn request_signed(packet: &Radius<'_>) -> Frame
    requires fit { AllByRecursion Fits (fields packet.now.attributes.items) }
    requires can { CanBeSigned (whole packet.now) }
{
    let mut frame = Frame::new();
    match write(packet, &mut frame) {
        Written::Done => sign_request(&mut frame, SECRET),
        Written::Full => {}
    }
    frame
}

// An Accounting-Request of status type 1, signed.
fn accounting_signed() -> Frame {
    let mut attributes = ArrayVec::new();
    attributes.push(NAME);
    attributes.push(Attribute {
        kind: kinds::ACCT_STATUS_TYPE,
        value: &[0, 0, 0, 1],
    });
    attributes.push(SESSION);
    let accounting = Radius {
        code: codes::ACCOUNTING_REQUEST,
        id: 0x5f,
        authenticator: [0; 16],
        attributes,
    };
    request_signed(&accounting)
}

// A CoA-Request with a Message-Authenticator, signed.
fn change_signed() -> Frame {
    let mut attributes = ArrayVec::new();
    attributes.push(NAME);
    attributes.push(SESSION);
    attributes.push(Attribute {
        kind: kinds::FILTER_ID,
        value: b"gold",
    });
    attributes.push(UNSIGNED);
    let change = Radius {
        code: codes::COA_REQUEST,
        id: 0xa4,
        authenticator: [0; 16],
        attributes,
    };
    request_signed(&change)
}

// A Disconnect-Request with a Message-Authenticator, signed.
fn disconnect_signed() -> Frame {
    let mut attributes = ArrayVec::new();
    attributes.push(SESSION);
    attributes.push(UNSIGNED);
    let disconnect = Radius {
        code: codes::DISCONNECT_REQUEST,
        id: 0xb6,
        authenticator: [0; 16],
        attributes,
    };
    request_signed(&disconnect)
}

// The requests that FreeRADIUS 3.2.1 sent: an Accounting-Request, and a CoA-Request and a Disconnect-Request with a
// Message-Authenticator.
#[test]
fn signs_requests_as_another_client_does(rt: HostRuntime) -> Result<(), Fail> {
    let alloc = rt.alloc();
    assert_hex(
        &rt,
        alloc,
        accounting_signed().payload(),
        "045f002a6c080dcacb4fef0457a5f63750c99a5a01066e656d6f2806000000012c0a3030303030303031",
    )?;
    assert_hex(
        &rt,
        alloc,
        change_signed().payload(),
        "2ba4003cacebcf5aafe792afe50a6236615cb59e01066e656d6f2c0a30303030303030310b06676f6c645012654031f869aa4f6ebec38ceea037e973",
    )?;
    assert_hex(
        &rt,
        alloc,
        disconnect_signed().payload(),
        "28b60030b4f3a9afd25f5f728b99a77a335d82242c0a30303030303030315012e6bcb59c0eb272fa4d0198f274484c93",
    )
}

// The Request Authenticator of RFC 5997 section 6.1.
const STATUS_AUTHENTICATOR: [u8; 16] = [
    0x8a, 0x54, 0xf4, 0x68, 0x6f, 0xb3, 0x94, 0xc5, 0x28, 0x66, 0xe3, 0x02, 0x18, 0x5d, 0x06, 0x23,
];

// A Status-Server, signed.
fn status_signed() -> Frame {
    let mut attributes = ArrayVec::new();
    attributes.push(UNSIGNED);
    let status = Radius {
        code: STATUS_SERVER,
        id: 0xda,
        authenticator: STATUS_AUTHENTICATOR,
        attributes,
    };
    request_signed(&status)
}

// RFC 5997 section 6.1: a request that keeps its own Request Authenticator.
#[test]
fn fills_the_message_authenticator_of_rfc_5997(rt: HostRuntime) -> Result<(), Fail> {
    assert_hex(
        &rt,
        rt.alloc(),
        status_signed().payload(),
        "0cda00268a54f4686fb394c52866e302185d062350125a665e2e1e8411f3e243822097c84fa3",
    )
}

// The Request Authenticator of RFC 2865 section 7.1.
const REQUEST: [u8; 16] = [
    0x0f, 0x40, 0x3f, 0x94, 0x73, 0x97, 0x80, 0x57, 0xbd, 0x83, 0xd5, 0xcb, 0x98, 0xf4, 0x22, 0x7a,
];

// A reply to the request of that authenticator, as it is written and signed. The test fails where it is not written.
fn reply_signed(rt: &impl Abort, packet: &Radius<'_>) -> Frame
    requires fit { AllByRecursion Fits (fields packet.now.attributes.items) }
    requires can { CanBeSigned (whole packet.now) }
{
    let mut frame = Frame::new();
    assert_holds(rt, write(packet, &mut frame) == Written::Done);
    sign_reply(&mut frame, &REQUEST, SECRET);
    frame
}

// An Access-Accept with a Message-Authenticator, signed.
fn accept_signed(rt: &impl Abort) -> Frame {
    let mut attributes = ArrayVec::new();
    attributes.push(Attribute {
        kind: kinds::SERVICE_TYPE,
        value: &[0, 0, 0, 2],
    });
    attributes.push(Attribute {
        kind: kinds::FRAMED_IP_ADDRESS,
        value: &[10, 0, 0, 2],
    });
    attributes.push(Attribute {
        kind: kinds::CLASS,
        value: b"class",
    });
    attributes.push(UNSIGNED);
    let accept = Radius {
        code: codes::ACCESS_ACCEPT,
        id: 7,
        authenticator: [0; 16],
        attributes,
    };
    reply_signed(rt, &accept)
}

// The Access-Accept with which FreeRADIUS 3.2.1 answered an Access-Request of that authenticator.
#[test]
fn signs_a_reply_as_another_server_does(rt: HostRuntime) -> Result<(), Fail> {
    let frame = accept_signed(&rt);
    assert_hex(
        &rt,
        rt.alloc(),
        frame.payload(),
        "0207003993902e405dcaff94c1c89a8741045dd106060000000208060a0000021907636c6173735012c15e9831b938805e053875ca899d9314",
    )
}
