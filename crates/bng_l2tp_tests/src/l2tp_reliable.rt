//! Runs of a channel.
use crate::asserts::assert_same;
use bng_l2tp_reliable::{Channel, Due, Heard, Outgoing, Queued};
use std::process::Abort;
use std::test::Fail;

// What is compared of a message that goes out: its Ns, its Nr and its first octet.
type Shown = Option<(u16, u16, u8)>;

fn shown(out: Option<Outgoing>) -> Shown {
    let out = out?;
    let octet = *out.message.as_slice().first()?;
    Some((out.ns, out.nr, octet))
}

fn queue(channel: &mut Channel, octet: u8) -> Queued {
    channel.send(&[octet], 0)
}

fn next(channel: &mut Channel) -> Shown {
    shown(channel.next())
}

fn flight(channel: &Channel, at: u8) -> Shown {
    shown(channel.flight(at))
}

// A message comes that acknowledges none.
fn hear(channel: &mut Channel, ns: u16) -> Heard {
    channel.receive(ns, 0, false, 0)
}

// A ZLB comes.
fn acknowledge(channel: &mut Channel, nr: u16, now: u64) -> Heard {
    channel.receive(0, nr, true, now)
}

fn due(channel: &mut Channel, now: u64) -> Due {
    channel.due(now)
}

// Asserts what was due at this moment.
fn assert_due_at(rt: &impl Abort, now: u64, found: Due, answer: Due) {
    assert_eq!(rt; found, answer, "at {now}");
}

// Asserts the deadline after this moment.
fn assert_deadline_after(rt: &impl Abort, now: u64, found: u64, deadline: u64) {
    assert_eq!(rt; found, deadline, "after {now}");
}

// A moment, what is due then, and the deadline afterwards.
type DueRow = (u64, Due, u64);

// Asserts what is due at the moment of a row, and the deadline afterwards.
fn assert_due(rt: &impl Abort, channel: &mut Channel, row: &DueRow) {
    let (now, answer, deadline) = *row;
    assert_due_at(rt, now, due(channel, now), answer);
    assert_deadline_after(rt, now, channel.deadline(), deadline);
}

const SENDS: &[DueRow] = &[
    (999, Due::Nothing, 1000),
    (1000, Due::Resend, 3000),
    (2999, Due::Nothing, 3000),
    (3000, Due::Resend, 7000),
    (7000, Due::Resend, 15_000),
    (15_000, Due::Resend, 23_000),
    (22_999, Due::Nothing, 23_000),
    (23_000, Due::Resend, 31_000),
    (30_999, Due::Nothing, 31_000),
    (31_000, Due::GiveUp, 31_000),
];

#[test]
fn a_message_goes_out_six_times_and_is_given_up(rt: HostRuntime) -> Result<(), Fail> {
    let mut channel = Channel::new(4, 0);
    assert_same(&rt, &queue(&mut channel, 7), &Queued::Ok);
    assert_same(&rt, &next(&mut channel), &Some((0, 0, 7)));
    for row in SENDS {
        assert_due(&rt, &mut channel, row);
        assert_same(&rt, &flight(&channel, 0), &Some((0, 0, 7)));
    }
    Ok(())
}

// Asserts what becomes of a message with this number.
fn assert_heard(rt: &impl Abort, channel: &mut Channel, ns: u16, heard: Heard) {
    assert_eq!(rt; hear(channel, ns), heard, "{ns}");
}

const HEARD: &[(u16, Heard)] = &[
    (65_535, Heard::Deliver),
    (0, Heard::Deliver),
    (65_535, Heard::Repeat),
    (2, Heard::Ahead),
];

#[test]
fn numbers_go_on_from_65535_to_0(rt: HostRuntime) -> Result<(), Fail> {
    let mut channel = Channel::new(4, 0);
    for ns in 0..65_535 {
        hear(&mut channel, ns);
    }
    for (ns, heard) in HEARD {
        assert_heard(&rt, &mut channel, *ns, *heard);
    }
    assert_same(&rt, &channel.numbers(), &(0, 1));
    Ok(())
}

// One message goes out, and a ZLB with this Nr comes.
fn send_one(channel: &mut Channel, nr: u16) {
    queue(channel, 9);
    next(channel);
    acknowledge(channel, nr, 0);
}

fn queue_three(channel: &mut Channel) {
    for octet in 0..3 {
        queue(channel, octet);
    }
}

fn next_three(channel: &mut Channel) -> [Shown; 3] {
    [next(channel), next(channel), next(channel)]
}

fn first_three_in_flight(channel: &Channel) -> [Shown; 3] {
    [flight(channel, 0), flight(channel, 1), flight(channel, 2)]
}

const FIRST: Shown = Some((65_535, 0, 0));

const SECOND: Shown = Some((0, 0, 1));

const OUTS: [Shown; 3] = [FIRST, SECOND, None];

// Asserts what is in flight after a ZLB with this Nr.
fn assert_left(rt: &impl Abort, channel: &mut Channel, nr: u16, left: &[Shown; 3]) {
    acknowledge(channel, nr, 0);
    let found = first_three_in_flight(channel);
    assert_eq!(rt; &found, left, "after {nr}");
}

// Sends 65,535 messages, each of which is acknowledged.
fn send_up_to_65535(channel: &mut Channel) {
    for ns in 0..65_535 {
        send_one(channel, ns + 1);
    }
}

// Asserts that the same is in flight after acknowledgements that are passed over: an old one, one of what was not sent, and the last one again.
fn assert_passed_over(rt: &impl Abort, channel: &mut Channel) {
    assert_left(rt, channel, 65_534, &OUTS);
    assert_left(rt, channel, 2, &OUTS);
    assert_left(rt, channel, 65_535, &OUTS);
}

// Asserts what is in flight after the acknowledgement of the first, and after that of both.
fn assert_taken_off(rt: &impl Abort, channel: &mut Channel) {
    assert_left(rt, channel, 0, &[SECOND, None, None]);
    assert_left(rt, channel, 1, &[None, None, None]);
}

#[test]
fn sent_numbers_go_on_from_65535_to_0(rt: HostRuntime) -> Result<(), Fail> {
    let mut channel = Channel::new(2, 0);
    send_up_to_65535(&mut channel);
    queue_three(&mut channel);
    assert_same(&rt, &next_three(&mut channel), &OUTS);
    assert_passed_over(&rt, &mut channel);
    assert_taken_off(&rt, &mut channel);
    assert_same(&rt, &next(&mut channel), &Some((1, 0, 2)));
    Ok(())
}

// Queues a message of each octet from the first to before the last, and finds no room for one of the last.
fn queue_until(rt: &impl Abort, channel: &mut Channel, first: u8, last: u8) {
    for octet in first..last {
        assert_same(rt, &queue(channel, octet), &Queued::Ok);
    }
    assert_same(rt, &queue(channel, last), &Queued::WindowQueueFull);
}

// The messages with the numbers from the first to before the end go out, and then none. The octet of each is its number.
fn next_until(rt: &impl Abort, channel: &mut Channel, first: u8, end: u8) {
    for ns in first..end {
        assert_same(rt, &next(channel), &Some((ns as u16, 0, ns)));
    }
    assert_same(rt, &next(channel), &None);
}

#[test]
fn sixty_four_messages_wait(rt: HostRuntime) -> Result<(), Fail> {
    let mut channel = Channel::new(9, 0);
    queue_until(&rt, &mut channel, 0, 64);
    next_until(&rt, &mut channel, 0, 8);
    queue_until(&rt, &mut channel, 64, 72);
    acknowledge(&mut channel, 5, 0);
    next_until(&rt, &mut channel, 8, 13);
    Ok(())
}

const SILENCE: &[DueRow] = &[
    (60_099, Due::Nothing, 60_100),
    (60_100, Due::Hello, u64::MAX),
    (200_000, Due::Nothing, u64::MAX),
];

#[test]
fn a_hello_is_asked_for_once_in_a_silence(rt: HostRuntime) -> Result<(), Fail> {
    let mut channel = Channel::new(4, 100);
    for row in SILENCE {
        assert_due(&rt, &mut channel, row);
    }
    assert_same(&rt, &acknowledge(&mut channel, 0, 200_000), &Heard::Acked);
    assert_same(&rt, &channel.deadline(), &260_000);
    assert_same(&rt, &due(&mut channel, 260_000), &Due::Hello);
    Ok(())
}
