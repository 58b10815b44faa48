use crate::asserts::{assert_count, assert_octets, assert_same, assert_same_for};
use bng_radius_wire::{Attribute, ReadError, codes, kinds, read};
use std::alloc::Global;
use std::process::Abort;
use std::test::Fail;

// The Access-Accept of RFC 2865 section 7.1, with two octets of padding.
const ACCEPT: &str =
    "0200002686fe220e7624ba2a1005f6bf9b55e0b20606000000010f06000000000e06c0a801030000";

// Asserts that an attribute is a Service-Type of value 1.
fn assert_login(rt: &impl Abort, attribute: &Attribute<'_>) {
    assert_same(rt, &attribute.kind, &kinds::SERVICE_TYPE);
    assert_octets(rt, attribute.value, &[0, 0, 0, 1]);
}

// Asserts what is read of ACCEPT.
fn assert_accept(rt: &impl Abort, octets: &[u8]) {
    let packet = read(octets).expect(rt, "octets inside the grammar");
    assert_same(rt, &packet.code, &codes::ACCESS_ACCEPT);
    assert_same(rt, &packet.id, &0);
    assert_count(rt, packet.attributes.len(), 3);
    assert_login(rt, &packet.attributes[0]);
    assert_octets(rt, packet.attributes[2].value, &[192, 168, 1, 3]);
}

#[test]
fn octets_past_the_length_are_padding(rt: HostRuntime) -> Result<(), Fail> {
    let octets = hex::decode(rt.alloc(), ACCEPT)?;
    assert_accept(&rt, octets.as_slice());
    Ok(())
}

// How many attributes the packet has, or why it is not read.
fn count_of_attributes(octets: &[u8]) -> Result<usize, ReadError> {
    match read(octets) {
        Ok(packet) => Ok(packet.attributes.len()),
        Err(error) => Err(error),
    }
}

// Octets, in hexadecimal digits, that are no packet.
const WRONG: &[&str] = &[
    // a Length below 20
    "0200001386fe220e7624ba2a1005f6bf9b55e0b2",
    // a Length past the octets
    "0200001586fe220e7624ba2a1005f6bf9b55e0b2",
    // an attribute of length 1
    "0200001686fe220e7624ba2a1005f6bf9b55e0b20101",
    // an attribute past the Length
    "0200001686fe220e7624ba2a1005f6bf9b55e0b20103",
    // an octet that is no attribute
    "0200001586fe220e7624ba2a1005f6bf9b55e0b201",
];

// Asserts that octets, in hexadecimal digits, are outside the grammar.
fn assert_outside(rt: &impl Abort, alloc: Global, text: &str) -> Result<(), Fail> {
    let octets = hex::decode(alloc, text)?;
    let found = count_of_attributes(octets.as_slice());
    assert_same_for(rt, &found, &Err(ReadError::Outside), &text);
    Ok(())
}

#[test]
fn wrong_lengths_are_outside_the_grammar(rt: HostRuntime) -> Result<(), Fail> {
    for text in WRONG {
        assert_outside(&rt, rt.alloc(), text)?;
    }
    Ok(())
}

// A packet with 65 empty Classes.
fn classes() -> [u8; 150] {
    let mut octets = [0u8; 150];
    octets[3] = 150;
    for i in 10..75 {
        octets[2 * i] = kinds::CLASS;
        octets[2 * i + 1] = 2;
    }
    octets
}

#[test]
fn sixty_five_attributes_are_too_many(rt: HostRuntime) {
    let mut octets = classes();
    let found = count_of_attributes(&octets);
    assert_same(&rt, &found, &Err(ReadError::TooMany));
    octets[3] = 148;
    assert_same(&rt, &count_of_attributes(&octets), &Ok(64));
}
