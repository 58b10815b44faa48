use crate::asserts::{assert_hex, assert_holds, assert_octets};
use bng_digest::{chap_value, hide_password, hmac_md5, hmac_md5_of, md5_of, unhide_avp};
use std::alloc::Global;
use std::process::Abort;
use std::test::Fail;

// The Request Authenticator of RFC 2865 section 7.1.
const AUTHENTICATOR: [u8; 16] = [
    0x0f, 0x40, 0x3f, 0x94, 0x73, 0x97, 0x80, 0x57, 0xbd, 0x83, 0xd5, 0xcb, 0x98, 0xf4, 0x22, 0x7a,
];

// The octets 0 to 15, as a challenge and as a Random Vector.
const SIXTEEN: [u8; 16] = [0, 1, 2, 3, 4, 5, 6, 7, 8, 9, 10, 11, 12, 13, 14, 15];

// The octets 1 to 25.
const RISING: &[u8] = &[
    1, 2, 3, 4, 5, 6, 7, 8, 9, 10, 11, 12, 13, 14, 15, 16, 17, 18, 19, 20, 21, 22, 23, 24, 25,
];

// Keys and texts of RFC 2202, each with its digest.
const DIGESTS: &[(&[u8], &[u8], &str)] = &[
    (&[0x0b; 16], b"Hi There", "9294727a3638bb1c13f48ef8158bfc9d"),
    (
        b"Jefe",
        b"what do ya want for nothing?",
        "750c783e6ab0b503eaa86e310a5db738",
    ),
    (&[0xaa; 16], &[0xdd; 50], "56be34521d144c88dbb8c733f0e8b3f6"),
    (RISING, &[0xcd; 50], "697eaf0aca3a3aea3a75164746ffaa79"),
    (
        &[0x0c; 16],
        b"Test With Truncation",
        "56461ef2342edc00f9bab995690efd4c",
    ),
];

#[test]
fn texts_have_the_digest_of_one_text(rt: HostRuntime) -> Result<(), Fail> {
    let digest = md5_of(&[b"message", b"", b" digest"]);
    assert_hex(&rt, rt.alloc(), &digest, "f96b697d7cb7938d525a2f31aaf161d0")
}

// Asserts the digest of a text under a key.
fn assert_digest(
    rt: &impl Abort,
    alloc: Global,
    key: &[u8],
    text: &[u8],
    digest: &str,
) -> Result<(), Fail> {
    assert_holds(rt, key.len() <= 64);
    assert_hex(rt, alloc, &hmac_md5(key, text), digest)
}

#[test]
fn hmac_has_the_values_of_rfc_2202(rt: HostRuntime) -> Result<(), Fail> {
    for (key, text, digest) in DIGESTS {
        assert_digest(&rt, rt.alloc(), key, text, digest)?;
    }
    let pieces = hmac_md5_of(&[0x0b; 16], &[b"Hi ", b"There"]);
    assert_hex(&rt, rt.alloc(), &pieces, "9294727a3638bb1c13f48ef8158bfc9d")
}

// MD5 of 05, `secret` and 00 to 0f, by Python's hashlib.
#[test]
fn chap_value_is_over_identifier_secret_and_challenge(rt: HostRuntime) -> Result<(), Fail> {
    let value = chap_value(5, b"secret", &SIXTEEN);
    assert_hex(&rt, rt.alloc(), &value, "0a9065cdcebbe49bd1f1d1fda6ce3ff9")
}

#[test]
fn hides_the_password_of_rfc_2865(rt: HostRuntime) -> Result<(), Fail> {
    let mut block = *b"arctangent\0\0\0\0\0\0";
    hide_password(b"xyzzy5461", &AUTHENTICATOR, &mut block);
    assert_hex(&rt, rt.alloc(), &block, "0dbe708d93d413ce3196e43f782a0aee")
}

// By the chain of RFC 2865 section 5.2 over Python's hashlib.
#[test]
fn hides_each_block_under_the_hidden_one_before(rt: HostRuntime) -> Result<(), Fail> {
    let mut block = *b"a password of three blocks, forty octets\0\0\0\0\0\0\0\0";
    hide_password(b"xyzzy5461", &AUTHENTICATOR, &mut block);
    assert_hex(
        &rt,
        rt.alloc(),
        &block,
        "0dec639881c903c42d86c4501e0a7e86bd40b66ede181a7c0bbffb9d85284696787e7bd644e5f64cf498ecdea5b1e0ec",
    )
}

// The hidden value of an AVP of type 7, Host Name: its length and four octets.
const HOST_NAME: [u8; 6] = [0x60, 0xfe, 0xcf, 0x5e, 0x78, 0xfc];

// The hidden value of an AVP of type 33: its length, 18 octets, and 17 of padding.
const PADDED_NAME: [u8; 37] = [
    0x58, 0x09, 0xbd, 0xab, 0x5b, 0xfc, 0x9a, 0x55, 0x2e, 0x72, 0xc7, 0xa5, 0x3f, 0xbd, 0x95, 0x96,
    0xb2, 0x1c, 0xc3, 0x37, 0x76, 0x4c, 0xc6, 0x65, 0x80, 0x24, 0x8f, 0x6e, 0x8d, 0xc0, 0xc9, 0x43,
    0x1a, 0xa3, 0x07, 0xc0, 0x3d,
];

// The hidden value of an AVP of type 11, Challenge: its length and 14 octets.
const CHALLENGE: [u8; 16] = [
    0x82, 0xa2, 0x4b, 0x88, 0xa3, 0xa0, 0xca, 0x52, 0x6d, 0xdd, 0x2f, 0xdb, 0xe9, 0xf7, 0x02, 0x46,
];

fn reveal_host_name(rt: &impl Abort) {
    let mut value = HOST_NAME;
    unhide_avp(7, b"lac secret", &SIXTEEN, &mut value);
    assert_octets(rt, &value, b"\0\x04lac1");
}

fn reveal_padded_name(rt: &impl Abort) {
    let mut value = PADDED_NAME;
    unhide_avp(33, b"s", &[0xff, 0x00], &mut value);
    assert_octets(
        rt,
        &value,
        b"\0\x12user name of sixty\x00\x01\x02\x03\x04\x05\x06\x07\x08\x09\x0a\x0b\x0c\x0d\x0e\x0f\x10",
    );
}

fn reveal_challenge(rt: &impl Abort) {
    let mut value = CHALLENGE;
    unhide_avp(11, b"xyzzy5461", &[], &mut value);
    assert_octets(rt, &value, b"\0\x0e0123456789abcd");
}

// Each hidden by the chain of RFC 2661 section 4.3 over Python's hashlib: a value shorter than a digest, one of
// two chunks and a part, and one of exactly a chunk under an empty Random Vector.
#[test]
fn reveals_what_another_hid(rt: HostRuntime) -> Result<(), Fail> {
    reveal_host_name(&rt);
    reveal_padded_name(&rt);
    reveal_challenge(&rt);
    Ok(())
}
