ghost use Rattle.std.specs.Prelude.{◌≡◌, ◌≤◌, length};

mod datagrams;

use crate::asserts::{assert_octets, assert_same};
use bng_base::{DropCause, Fate, Frame, Ip4, Rate};
use bng_forward::{TermView, down, up};
use bng_ipv4::read;
use bng_meter::Meter;
use std::process::Abort;

// from 10.0.0.2 to 192.0.2.1 with TTL 2, and the same forwarded
const UP: [u8; 20] = [
    0x45, 0, 0, 0x14, 0, 2, 0, 0, 2, 0x11, 0xec, 0xd4, 10, 0, 0, 2, 192, 0, 2, 1,
];

const UP_SENT: [u8; 20] = [
    0x45, 0, 0, 0x14, 0, 2, 0, 0, 1, 0x11, 0xed, 0xd4, 10, 0, 0, 2, 192, 0, 2, 1,
];

// from 192.0.2.1 to 10.0.0.2 with TTL 2, and the same forwarded
const DOWN: [u8; 20] = [
    0x45, 0, 0, 0x14, 0, 2, 0, 0, 2, 0x11, 0xec, 0xd4, 192, 0, 2, 1, 10, 0, 0, 2,
];

const DOWN_SENT: [u8; 20] = [
    0x45, 0, 0, 0x14, 0, 2, 0, 0, 1, 0x11, 0xed, 0xd4, 192, 0, 2, 1, 10, 0, 0, 2,
];

const SUBSCRIBER: Ip4 = Ip4(0x0a00_0002);

const OPEN: TermView = TermView {
    lease: SUBSCRIBER,
    opened: true,
    mru: 1492,
    input: None,
    output: None,
};

const CLOSED: TermView = TermView {
    lease: SUBSCRIBER,
    opened: false,
    mru: 1492,
    input: None,
    output: None,
};

const OTHER: TermView = TermView {
    lease: Ip4(0x0a00_0003),
    opened: true,
    mru: 1492,
    input: None,
    output: None,
};

const NO_SESSION: Fate = Fate::Dropped(DropCause::NoSession);

const NOT_OPEN: Fate = Fate::Dropped(DropCause::NotOpen);

const MALFORMED: Fate = Fate::Dropped(DropCause::Malformed);

const EXPIRED: Fate = Fate::Dropped(DropCause::Expired);

const SPOOFED: Fate = Fate::Dropped(DropCause::Spoofed);

const TOO_BIG: Fate = Fate::Dropped(DropCause::TooBig);

const EXCEEDED: Fate = Fate::Dropped(DropCause::Exceeded);

fn frame_of(octets: &[u8]) -> Frame
    requires { length octets.now ≤ 64 }
    ensures octets { result.payload ≡ octets.now }
    ensures headroom { result.headroom ≡ 64 }
{
    let mut frame = Frame::new();
    frame.set(octets);
    frame
}

// A packet of a circuit, of whose session this is known, at a moment: its fate, and the packet afterwards.
fn goes_up_at(
    rt: &impl Abort,
    found: &mut Option<Option<TermView>>,
    now: u64,
    octets: &[u8],
    fate: Fate,
    after: &[u8],
)
    requires { length octets.now ≤ 64 }
{
    let mut frame = frame_of(octets);
    assert_same(rt, &up(found, now, &mut frame), &fate);
    assert_octets(rt, frame.payload(), after);
}

fn goes_up(
    rt: &impl Abort,
    found: Option<Option<TermView>>,
    octets: &[u8],
    fate: Fate,
    after: &[u8],
)
    requires { length octets.now ≤ 64 }
{
    let mut found = found;
    goes_up_at(rt, &mut found, 0, octets, fate, after);
}

// The fate of a packet of the core, of whose destination this is the holder, at a moment. None where it is no packet.
fn passed_down(
    holder: &mut Option<TermView>,
    now: u64,
    octets: &[u8],
    frame: &mut Frame,
) -> Option<Fate>
    requires { frame.old.payload ≡ octets.now }
    ensures { frame.new.headroom ≡ frame.old.headroom }
{
    match read(octets) {
        Ok(header) => Some(down(holder, now, header, frame)),
        Err(_) => None,
    }
}

// Asserts the fate of a packet to a term at a moment, and the packet afterwards.
fn goes_down_at(
    rt: &impl Abort,
    holder: &mut Option<TermView>,
    now: u64,
    octets: &[u8],
    fate: Fate,
    after: &[u8],
)
    requires { length octets.now ≤ 64 }
{
    let mut frame = frame_of(octets);
    let found = passed_down(holder, now, octets, &mut frame);
    assert_same(rt, &found, &Some(fate));
    assert_octets(rt, frame.payload(), after);
}

fn goes_down(rt: &impl Abort, holder: Option<TermView>, octets: &[u8], fate: Fate, after: &[u8])
    requires { length octets.now ≤ 64 }
{
    let mut holder = holder;
    goes_down_at(rt, &mut holder, 0, octets, fate, after);
}

// A packet is left as it is, and has this fate.
fn stays_up(rt: &impl Abort, found: Option<Option<TermView>>, octets: &[u8], fate: Fate)
    requires { length octets.now ≤ 64 }
{
    goes_up(rt, found, octets, fate, octets);
}

// So has a packet of the core.
fn stays_down(rt: &impl Abort, holder: Option<TermView>, octets: &[u8], fate: Fate)
    requires { length octets.now ≤ 64 }
{
    goes_down(rt, holder, octets, fate, octets);
}

fn go_up_where_none_is_there(rt: &impl Abort, short: &[u8])
    requires { length short.now ≤ 64 }
{
    stays_up(rt, None, &UP, NO_SESSION);
    stays_up(rt, None, short, NO_SESSION);
    stays_up(rt, Some(None), &UP, NOT_OPEN);
    stays_up(rt, Some(None), short, NOT_OPEN);
}

fn go_up_where_one_is_closed(rt: &impl Abort, short: &[u8])
    requires { length short.now ≤ 64 }
{
    stays_up(rt, Some(Some(CLOSED)), &UP, NOT_OPEN);
    stays_up(rt, Some(Some(CLOSED)), short, NOT_OPEN);
}

fn go_up_in_vain(rt: &impl Abort, short: &[u8])
    requires { length short.now ≤ 64 }
{
    stays_up(rt, Some(Some(OPEN)), short, MALFORMED);
    stays_up(rt, Some(Some(OPEN)), &UP_SENT, EXPIRED);
    stays_up(rt, Some(Some(OTHER)), &UP_SENT, EXPIRED);
    stays_up(rt, Some(Some(OTHER)), &UP, SPOOFED);
}

// A packet in 46 octets, as a frame is padded.
fn padded(packet: &[u8; 20]) -> [u8; 46] {
    let mut padded = [0; 46];
    padded[..20].copy_from_slice(packet);
    padded
}

// A packet passes, padded and not.
fn go_up_both(rt: &impl Abort) {
    goes_up(rt, Some(Some(OPEN)), &UP, Fate::Forwarded, &UP_SENT);
    let padded = padded(&UP);
    goes_up(rt, Some(Some(OPEN)), &padded, Fate::Forwarded, &UP_SENT);
}

#[test]
fn a_packet_of_the_subscriber_is_passed_on_or_left_as_it_is(rt: HostRuntime) {
    go_up_both(&rt);
    let short = &UP[..19];
    go_up_where_none_is_there(&rt, short);
    go_up_where_one_is_closed(&rt, short);
    go_up_in_vain(&rt, short);
}

// To this term a packet passes.
fn passes_to(rt: &impl Abort, holder: Option<TermView>) {
    goes_down(rt, holder, &DOWN, Fate::Forwarded, &DOWN_SENT);
}

// To this term a padded one does.
fn passes_padded_to(rt: &impl Abort, holder: Option<TermView>) {
    let padded = padded(&DOWN);
    goes_down(rt, holder, &padded, Fate::Forwarded, &DOWN_SENT);
}

fn go_down_in_vain(rt: &impl Abort) {
    stays_down(rt, None, &DOWN, NO_SESSION);
    stays_down(rt, None, &DOWN_SENT, NO_SESSION);
    stays_down(rt, Some(CLOSED), &DOWN, NOT_OPEN);
    stays_down(rt, Some(CLOSED), &DOWN_SENT, NOT_OPEN);
    stays_down(rt, Some(OPEN), &DOWN_SENT, EXPIRED);
}

#[test]
fn a_packet_of_the_core_is_passed_on_or_left_as_it_is(rt: HostRuntime) {
    passes_to(&rt, Some(OPEN));
    passes_padded_to(&rt, Some(OPEN));
    go_down_in_vain(&rt);
}

// A term whose subscriber takes packets of so many octets, which is open or not.
fn taking(mru: u16, opened: bool) -> Option<TermView> {
    Some(TermView {
        lease: SUBSCRIBER,
        opened,
        mru,
        input: None,
        output: None,
    })
}

// Packets to a term whose subscriber takes 19 octets are too long, if nothing else is in their way.
fn are_too_big(rt: &impl Abort) {
    stays_down(rt, taking(19, true), &DOWN, TOO_BIG);
    stays_down(rt, taking(19, true), &padded(&DOWN), TOO_BIG);
    stays_down(rt, taking(19, false), &DOWN, NOT_OPEN);
    stays_down(rt, taking(19, true), &DOWN_SENT, EXPIRED);
}

#[test]
fn a_packet_of_the_core_is_no_longer_than_the_mru(rt: HostRuntime) {
    passes_to(&rt, taking(20, true));
    passes_padded_to(&rt, taking(20, true));
    are_too_big(&rt);
    goes_up(&rt, Some(taking(19, true)), &UP, Fate::Forwarded, &UP_SENT);
}

// An open term whose subscriber takes packets of so many octets, with these meters.
fn metered(mru: u16, input: Option<Meter>, output: Option<Meter>) -> TermView {
    TermView {
        lease: SUBSCRIBER,
        opened: true,
        mru,
        input,
        output,
    }
}

#[test]
fn a_packet_that_is_too_big_takes_no_token(rt: HostRuntime) {
    let mut holder = Some(metered(19, None, slow()));
    goes_down_at(&rt, &mut holder, 0, &DOWN, TOO_BIG, &DOWN);
    if let Some(view) = &mut holder {
        view.mru = 20;
    }
    goes_down_at(&rt, &mut holder, 0, &DOWN, Fate::Forwarded, &DOWN_SENT);
}

// A meter that starts at 0 with tokens for one of the packets, and gets those for three more in a second.
fn slow() -> Option<Meter> {
    let rate = Rate {
        cir: 60,
        cbs: 20,
        ebs: 0,
    };
    Some(Meter::new(rate, 0))
}

// Moments in milliseconds, and the fate of a packet then. The last one is before that of the packet before.
const METERED: &[(u64, Fate)] = &[
    (1, Fate::Forwarded),
    (333, EXCEEDED),
    (334, Fate::Forwarded),
    (666, EXCEEDED),
    (667, Fate::Forwarded),
    (1000, Fate::Forwarded),
    (1001, EXCEEDED),
    (0, EXCEEDED),
];

// A packet of the subscriber has this fate at this moment, and is changed where it is forwarded alone.
fn passes_up(rt: &impl Abort, found: &mut Option<Option<TermView>>, now: u64, fate: Fate) {
    let sent = if fate == Fate::Forwarded { UP_SENT } else { UP };
    goes_up_at(rt, found, now, &UP, fate, &sent);
}

fn pass_up(rt: &impl Abort, found: &mut Option<Option<TermView>>) {
    for (now, fate) in METERED {
        passes_up(rt, found, *now, *fate);
    }
}

#[test]
fn a_packet_of_the_subscriber_passes_by_the_input_meter(rt: HostRuntime) {
    let mut found = Some(Some(metered(1492, slow(), None)));
    goes_up_at(&rt, &mut found, 0, &UP_SENT, EXPIRED, &UP_SENT);
    pass_up(&rt, &mut found);
    goes_up_at(&rt, &mut found, 1001, &UP_SENT, EXPIRED, &UP_SENT);
    let mut holder = found.flatten();
    goes_down_at(&rt, &mut holder, 1001, &DOWN, Fate::Forwarded, &DOWN_SENT);
}

// So it is with a packet of the core.
fn passes_down(rt: &impl Abort, holder: &mut Option<TermView>, now: u64, fate: Fate) {
    let sent = if fate == Fate::Forwarded {
        DOWN_SENT
    } else {
        DOWN
    };
    goes_down_at(rt, holder, now, &DOWN, fate, &sent);
}

fn pass_down(rt: &impl Abort, holder: &mut Option<TermView>) {
    for (now, fate) in METERED {
        passes_down(rt, holder, *now, *fate);
    }
}

#[test]
fn a_packet_of_the_core_passes_by_the_output_meter(rt: HostRuntime) {
    let mut holder = Some(metered(1492, None, slow()));
    pass_down(&rt, &mut holder);
    goes_down_at(&rt, &mut holder, 1001, &DOWN_SENT, EXPIRED, &DOWN_SENT);
    let mut found = Some(holder);
    goes_up_at(&rt, &mut found, 1001, &UP, Fate::Forwarded, &UP_SENT);
}
