ghost use Rattle.std.specs.Prelude.{◌≤◌};
ghost use Rattle.std.specs.List.{AllByRecursion};
ghost use Rattle.bng_radius_wire.specs.Attributes.{Fits, field, fields};

use crate::asserts::{assert_hex, assert_holds, assert_octets};
use arrayvec::ArrayVec;
use bng_digest::hide_password;
use bng_radius_wire::{Attribute, Frame, Radius, Written, codes, kinds, write};
use std::test::Fail;

const AUTHENTICATOR: [u8; 16] = [
    0x0f, 0x40, 0x3f, 0x94, 0x73, 0x97, 0x80, 0x57, 0xbd, 0x83, 0xd5, 0xcb, 0x98, 0xf4, 0x22, 0x7a,
];

fn hidden_password() -> [u8; 16] {
    let mut password = *b"arctangent\0\0\0\0\0\0";
    hide_password(b"xyzzy5461", &AUTHENTICATOR, &mut password);
    password
}

// Writes the Access-Request with this hidden password.
fn write_request(password: &[u8; 16], frame: &mut Frame) -> Written {
    let mut attributes = ArrayVec::new();
    attributes.push(Attribute {
        kind: kinds::USER_NAME,
        value: b"nemo",
    });
    attributes.push(Attribute {
        kind: kinds::USER_PASSWORD,
        value: password,
    });
    attributes.push(Attribute {
        kind: kinds::NAS_IP_ADDRESS,
        value: &[192, 168, 1, 16],
    });
    attributes.push(Attribute {
        kind: kinds::NAS_PORT,
        value: &[0, 0, 0, 3],
    });
    let request = Radius {
        code: codes::ACCESS_REQUEST,
        id: 0,
        authenticator: AUTHENTICATOR,
        attributes,
    };
    write(&request, frame)
}

#[test]
fn writes_the_access_request_of_rfc_2865(rt: HostRuntime) -> Result<(), Fail> {
    let mut frame = Frame::new();
    let written = write_request(&hidden_password(), &mut frame);
    assert_holds(&rt, written == Written::Done);
    assert_hex(
        &rt,
        rt.alloc(),
        frame.payload(),
        "010000380f403f9473978057bd83d5cb98f4227a01066e656d6f02120dbe708d93d413ce3196e43f782a0aee0406c0a80110050600000003",
    )
}

// A list of copies of an attribute.
fn copies<'a>(attribute: &Attribute<'a>, count: usize) -> ArrayVec<Attribute<'a>, 64>
    requires few { count ≤ 64 }
    requires fits { Fits (field attribute.now) }
    ensures { AllByRecursion Fits (fields result.items) }
{
    let mut list = ArrayVec::new();
    for _ in 0..count {
        list.push(*attribute);
    }
    list
}

// Writes an Access-Accept with 17 Classes of 253 octets.
fn write_long(frame: &mut Frame) -> Written {
    let class = Attribute {
        kind: kinds::CLASS,
        value: &[7; 253],
    };
    let packet = Radius {
        code: codes::ACCESS_ACCEPT,
        id: 1,
        authenticator: [0; 16],
        attributes: copies(&class, 17),
    };
    write(&packet, frame)
}

#[test]
fn a_packet_of_more_than_4096_octets_leaves_the_frame(rt: HostRuntime) {
    let mut frame = Frame::new();
    frame.set(b"before");
    assert_holds(&rt, write_long(&mut frame) == Written::Full);
    assert_octets(&rt, frame.payload(), b"before");
}
