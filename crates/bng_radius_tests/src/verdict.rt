use crate::asserts::{assert_holds, assert_same};
use bng_verdict::verdict_of;
use std::alloc::Global;
use std::process::Abort;
use std::test::Fail;

// The Access-Accept of RFC 2865 section 7.1. Its Service-Type is Login, so it is taken as an Access-Reject.
const LOGIN: &str = "0200002686fe220e7624ba2a1005f6bf9b55e0b20606000000010f06000000000e06c0a80103";

// Replies, each with whether it says yes, and its text.
const REPLIES: &[(&str, bool, &str)] = &[
    (LOGIN, false, ""),
    // an Access-Accept without a Service-Type
    ("0200001486fe220e7624ba2a1005f6bf9b55e0b2", true, ""),
    // Framed, and then Login
    (
        "0200002086fe220e7624ba2a1005f6bf9b55e0b2060600000002060600000001",
        true,
        "",
    ),
    // Login, and then Framed
    (
        "0200002086fe220e7624ba2a1005f6bf9b55e0b2060600000001060600000002",
        false,
        "",
    ),
    // a Service-Type of three octets before one of four, which is Framed
    (
        "0200001f86fe220e7624ba2a1005f6bf9b55e0b20605000001060600000002",
        true,
        "",
    ),
    // a Service-Type of three octets alone, and a Reply-Message
    (
        "0200001d86fe220e7624ba2a1005f6bf9b55e0b206050000011204686f",
        true,
        "ho",
    ),
    // an Access-Accept with four octets of padding
    (
        "0200001a86fe220e7624ba2a1005f6bf9b55e0b206060000000200000000",
        true,
        "",
    ),
    // an Access-Reject with two Reply-Messages
    (
        "0300001c86fe220e7624ba2a1005f6bf9b55e0b212046e6f1204686f",
        false,
        "no",
    ),
    // an Access-Challenge with a State, Framed and a Reply-Message
    (
        "0b00002186fe220e7624ba2a1005f6bf9b55e0b21803aa06060000000212046869",
        false,
        "hi",
    ),
    // silence
    ("", false, "timeout"),
];

// Asserts what a reply says, in hexadecimal digits.
fn assert_says(
    rt: &impl Abort,
    alloc: Global,
    reply: &str,
    yes: bool,
    text: &str,
) -> Result<(), Fail> {
    let octets = hex::decode(alloc, reply)?;
    match verdict_of(octets.as_slice()) {
        Some(verdict) => {
            assert_same(rt, &verdict.yes, &yes);
            assert_same(rt, &verdict.text.as_slice(), &text.as_bytes());
        }
        None => assert!(rt; false, "{reply} says nothing"),
    }
    Ok(())
}

#[test]
fn replies_say_yes_or_no_with_their_first_message(rt: HostRuntime) -> Result<(), Fail> {
    for (reply, yes, text) in REPLIES {
        assert_says(&rt, rt.alloc(), reply, *yes, text)?;
    }
    Ok(())
}

#[test]
fn what_answers_no_access_request_says_nothing(rt: HostRuntime) -> Result<(), Fail> {
    let cases = [
        // an Accounting-Response
        "0500001486fe220e7624ba2a1005f6bf9b55e0b2",
        // an Access-Request
        "0100001486fe220e7624ba2a1005f6bf9b55e0b2",
        // 19 octets
        "0200001486fe220e7624ba2a1005f6bf9b55e0",
        // one octet
        "02",
    ];
    for reply in cases {
        let octets = hex::decode(rt.alloc(), reply)?;
        assert_holds(&rt, verdict_of(octets.as_slice()).is_none());
    }
    Ok(())
}
