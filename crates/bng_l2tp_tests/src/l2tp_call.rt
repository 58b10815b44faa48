use crate::asserts::{assert_holds, assert_same};
use arrayvec::ArrayVec;
use bng_base::{SessionNo, TunnelStep};
use bng_l2tp_call::Call;
use bng_l2tp_wire::Control;
use std::alloc::Global;
use std::process::Abort;
use std::test::Fail;

// Each message of the peer below is for tunnel 1025; its session is 9, the gateway's 1026. Hidden values are by RFC 2661 section
// 4.3 over Python's hashlib, with the secret `xyzzy`.

// an ICRQ with Call Serial Number and Bearer Type, and an ICCN with Tx Connect Speed, Framing Type and Rx Connect Speed
const ICRQ: &str =
    "c80200300401000000020001800800000000000a80080000000e0009800a0000000f00000001800a0000001200000000";

const ICCN: &str =
    "c80200320401040200030002800800000000000c800a0000001800989680800a0000001300000001000a0000002600989680";

// a CDN with a Result Code 1, an Error Code 0 and a message, a WEN with Call Errors, and an SLI with ACCM
const CDN: &str =
    "c80200340401040200040002800800000000000e8018000000010001000053657276657220636c6f73696e6780080000000e0009";

const WEN: &str =
    "c80200340401040200040002800800000000000f8020000000220000000000000000000000000000000000000000000000000000";

const SLI: &str = "c8020024040104020004000280080000000000108010000000230000ffffffffffffffff";

// the ICRP to the ICRQ
const ICRP: &str = "c802001c0000000900000000800800000000000b80080000000e0402";

fn secret() -> Option<ArrayVec<u8, 64>> {
    let mut text = ArrayVec::new();
    for octet in b"xyzzy" {
        if !text.is_full() {
            text.push(*octet);
        }
    }
    Some(text)
}

// the step of a call at a message
fn takes(alloc: Global, call: &mut Call, datagram: &str) -> Result<TunnelStep, Fail> {
    let bytes = hex::decode(alloc, datagram)?;
    let message = Control::read(bytes.as_slice())?;
    Ok(call.on_message(&message, &[0; 16], 0))
}

// its messages
fn outs(alloc: Global, step: &TunnelStep) -> Result<String, Fail> {
    let mut text = String::new(alloc);
    for frame in step.outs.as_slice() {
        text.push_str(hex::encode(alloc, frame.payload())?.as_str())?;
    }
    Ok(text)
}

fn is_quiet(step: &TunnelStep) -> bool {
    step.outs.is_empty() && !step.opened && !step.ended
}

// asserts what goes out in a step
fn assert_outs(
    rt: &impl Abort,
    alloc: Global,
    step: &TunnelStep,
    wanted: &str,
) -> Result<(), Fail> {
    let text = outs(alloc, step)?;
    assert_same(rt, &text.as_str(), &wanted);
    Ok(())
}

// whether a call passes over a message
fn passes_over(alloc: Global, call: &mut Call, datagram: &str) -> Result<bool, Fail> {
    let step = takes(alloc, call, datagram)?;
    Ok(is_quiet(&step))
}

// whether the gateway's end of a call is passed over
fn ends_quietly(call: &mut Call) -> bool {
    let step = call.end();
    is_quiet(&step)
}

// whether a call passes over a message, and then its end
fn is_over(alloc: Global, call: &mut Call, datagram: &str) -> Result<bool, Fail> {
    Ok(passes_over(alloc, call, datagram)? && ends_quietly(call))
}

fn with_secret() -> Call {
    Call::new(&secret(), SessionNo(1026))
}

fn without_secret() -> Call {
    Call::new(&None, SessionNo(1026))
}

// a call for which there is no slot
fn without_slot() -> Call {
    Call::new(&None, SessionNo(0))
}

// a call without a secret that took the ICRQ
fn replied(alloc: Global) -> Result<Call, Fail> {
    let mut call = without_secret();
    takes(alloc, &mut call, ICRQ)?;
    Ok(call)
}

const EARLY: &[&str] = &[ICCN, CDN, WEN, SLI];

const LATE: &[&str] = &[ICCN, WEN, SLI];

// asserts that a call passes over each of these messages
fn assert_passed_over(
    rt: &impl Abort,
    alloc: Global,
    call: &mut Call,
    datagrams: &[&str],
) -> Result<(), Fail> {
    for quiet in datagrams {
        assert!(rt; passes_over(alloc, call, quiet)?, "{quiet}");
    }
    Ok(())
}

// the ICRQ comes, which the ICRP answers, and comes again
fn take_icrq_twice(rt: &impl Abort, alloc: Global, call: &mut Call) -> Result<(), Fail> {
    let first = takes(alloc, call, ICRQ)?;
    assert_holds(rt, !first.opened && !first.ended && !first.call);
    assert_outs(rt, alloc, &first, ICRP)?;
    assert_holds(rt, call.peer_number() == Some(9));
    assert_holds(rt, passes_over(alloc, call, ICRQ)?);
    Ok(())
}

// the ICCN comes, and the call is opened
fn take_iccn(rt: &impl Abort, alloc: Global, call: &mut Call) -> Result<(), Fail> {
    let second = takes(alloc, call, ICCN)?;
    assert_holds(rt, second.opened && !second.ended && second.outs.is_empty());
    Ok(())
}

// the CDN comes, by which the call ends, and comes again
fn take_cdn_twice(rt: &impl Abort, alloc: Global, call: &mut Call) -> Result<(), Fail> {
    let last = takes(alloc, call, CDN)?;
    assert_holds(rt, last.ended && !last.opened && last.outs.is_empty());
    assert_holds(rt, is_over(alloc, call, CDN)?);
    Ok(())
}

#[test]
fn messages_that_come_twice_make_one_call(rt: HostRuntime) -> Result<(), Fail> {
    let mut call = with_secret();
    // before the ICRQ
    assert_passed_over(&rt, rt.alloc(), &mut call, EARLY)?;
    assert_holds(&rt, call.peer_number().is_none());
    take_icrq_twice(&rt, rt.alloc(), &mut call)?;
    take_iccn(&rt, rt.alloc(), &mut call)?;
    assert_passed_over(&rt, rt.alloc(), &mut call, LATE)?;
    take_cdn_twice(&rt, rt.alloc(), &mut call)
}

// a message ends a call, or makes none, and this goes out
fn refuse(
    rt: &impl Abort,
    alloc: Global,
    call: &mut Call,
    datagram: &str,
    cdn: &str,
) -> Result<(), Fail> {
    let step = takes(alloc, call, datagram)?;
    assert_holds(rt, step.ended && !step.opened);
    assert_eq!(rt; outs(alloc, &step)?.as_str(), cdn, "{datagram}");
    Ok(())
}

// The CDN that a message of a call is refused by. The call has ended, or none was made.
fn refuses(
    rt: &impl Abort,
    alloc: Global,
    mut call: Call,
    datagram: &str,
    cdn: &str,
) -> Result<(), Fail> {
    refuse(rt, alloc, &mut call, datagram, cdn)?;
    assert_holds(rt, is_over(alloc, &mut call, ICRQ)?);
    Ok(())
}

// ICRQs, each with the CDN that it is refused by where there is no slot:
// an AVP of type 40; a hidden Calling Number without a Random Vector; no slot
const FAULTY_ICRQS: &[(&str, &str)] = &[
    (
        "c80200370401000000020001800800000000000a80080000000e0009800a0000000f00000001c00a000000163535353180070000002878",
        "c80200260000000900000000800800000000000e80080000000e0000800a0000000100020008",
    ),
    (
        "c80200300401000000020001800800000000000a80080000000e0009800a0000000f00000001c00a0000001635353531",
        "c80200260000000900000000800800000000000e80080000000e0000800a0000000100020003",
    ),
    (
        ICRQ,
        "c80200240000000900000000800800000000000e80080000000e00008008000000010004",
    ),
];

// What comes after the ICRQ, each with the CDN that it is refused by.
const FAULTY_OTHERS: &[(&str, &str)] = &[
    // an AVP of type 40; no Framing Type; Sequencing Required
    (
        "c802002b0401040200030002800800000000000c800a000000180098968080060000002780070000002878",
        "c80200260000000900000000800800000000000e80080000000e0402800a0000000100020008",
    ),
    (
        "c80200240401040200030002800800000000000c800a0000001800989680800600000027",
        "c80200260000000900000000800800000000000e80080000000e0402800a0000000100020003",
    ),
    (
        "c802002e0401040200030002800800000000000c800a0000001800989680800a0000001300000001800600000027",
        "c80200240000000900000000800800000000000e80080000000e04028008000000010005",
    ),
    // a CDN without a Result Code
    (
        "c802001c0401040200030002800800000000000e80080000000e0009",
        "c80200260000000900000000800800000000000e80080000000e0402800a0000000100020003",
    ),
];

// Each message has one fault less than the one before it, and is refused for the next in order.
#[test]
fn refusals_come_in_their_order(rt: HostRuntime) -> Result<(), Fail> {
    for (datagram, cdn) in FAULTY_ICRQS {
        refuses(&rt, rt.alloc(), without_slot(), datagram, cdn)?;
    }
    for (datagram, cdn) in FAULTY_OTHERS {
        refuses(&rt, rt.alloc(), replied(rt.alloc())?, datagram, cdn)?;
    }
    Ok(())
}

const TO_0: &str = "c80200260000000000000000800800000000000e80080000000e0000800a0000000100020003";

const TO_9: &str = "c80200260000000900000000800800000000000e80080000000e0000800a0000000100020003";

const UNKNOWN_TO_9: &str =
    "c80200260000000900000000800800000000000e80080000000e0000800a0000000100020008";

// ICRQs, each with the CDN that it is refused by:
// a hidden Assigned Session ID and no Random Vector; none; a Call Serial Number of two octets; an AVP of another vendor
const LACKING: &[(&str, &str)] = &[
    (
        "c80200280401000000020001800800000000000ac00a0000000e9a0e9c7a800a0000000f00000001",
        TO_0,
    ),
    (
        "c802001e0401000000020001800800000000000a800a0000000f00000001",
        TO_0,
    ),
    (
        "c80200240401000000020001800800000000000a80080000000e000980080000000f0001",
        TO_9,
    ),
    (
        "c80200370401000000020001800800000000000a80080000000e0009800a0000000f00000001800a000000120000000080070009000178",
        UNKNOWN_TO_9,
    ),
];

// the same AVP and one of type 40, neither of which must be known
const OPTIONAL: &str =
    "c802003e0401000000020001800800000000000a80080000000e0009800a0000000f00000001800a00000012000000000007000900017800070000002878";

// an ICRQ comes, and the ICRP goes out
fn take_request(
    rt: &impl Abort,
    alloc: Global,
    call: &mut Call,
    datagram: &str,
) -> Result<(), Fail> {
    let step = takes(alloc, call, datagram)?;
    assert_outs(rt, alloc, &step, ICRP)
}

#[test]
fn an_icrq_without_what_it_must_have_is_refused(rt: HostRuntime) -> Result<(), Fail> {
    for (datagram, cdn) in LACKING {
        refuses(&rt, rt.alloc(), with_secret(), datagram, cdn)?;
    }
    take_request(&rt, rt.alloc(), &mut with_secret(), OPTIONAL)
}

const HIDDEN: &str =
    "c802005e0401000000020001800800000000000a8008000000247a7ac00f0000000fddeb25d77d12dcfa54800c000000246c6174746573c00a0000000e9a0e9c7ac01d000000164950de7232e6a0d0761164d6d466a4bc990629dee3eae8";

// The Call Serial Number is hidden under the first of two Random Vectors, the Assigned Session ID and the Calling Number under the
// second.
#[test]
fn hidden_values_are_read_with_the_last_random_vector(rt: HostRuntime) -> Result<(), Fail> {
    let mut call = with_secret();
    take_request(&rt, rt.alloc(), &mut call, HIDDEN)?;
    assert_holds(&rt, call.peer_number() == Some(9));
    // nor without the secret
    refuses(&rt, rt.alloc(), without_secret(), HIDDEN, TO_0)
}

// a call takes the ICRQ and the ICCN
fn open(alloc: Global, call: &mut Call) -> Result<(), Fail> {
    takes(alloc, call, ICRQ)?;
    takes(alloc, call, ICCN)?;
    Ok(())
}

// the gateway ends a call, and a CDN goes out
fn end(rt: &impl Abort, alloc: Global, call: &mut Call) -> Result<(), Fail> {
    let step = call.end();
    assert_holds(rt, step.ended && !step.opened);
    assert_outs(
        rt,
        alloc,
        &step,
        "c80200240000000900000000800800000000000e80080000000e04028008000000010003",
    )
}

#[test]
fn the_gateway_ends_a_call_once(rt: HostRuntime) -> Result<(), Fail> {
    let mut call = without_secret();
    assert_holds(&rt, ends_quietly(&mut call));
    open(rt.alloc(), &mut call)?;
    end(&rt, rt.alloc(), &mut call)?;
    assert_holds(
        &rt,
        ends_quietly(&mut call) && passes_over(rt.alloc(), &mut call, CDN)?,
    );
    Ok(())
}
