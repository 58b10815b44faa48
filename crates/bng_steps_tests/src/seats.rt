//! The seats of items.
ghost use Rattle.std.specs.Prelude.{◌≤◌, length};

use crate::asserts::assert_same;
use bng_base::{Frame, Ip4, Item, ItemKind, Peer};
use bng_steps::seat_of;
use std::process::Abort;

// An item from port 1701 of 127.0.0.1.
fn item(kind: ItemKind, target: u16, octets: &[u8]) -> Item
    requires { length octets.now ≤ 4096 }
{
    let mut frame = Frame::new();
    frame.set(octets);
    Item {
        kind,
        from: Peer {
            ip: Ip4(0x7f000001),
            port: 1701,
        },
        frame,
        cut: false,
        random: [0; 16],
        target,
        ask: 0,
    }
}

fn assert_seat(rt: &impl Abort, workers: u16, item: &Item, wanted: u16)
    requires { 1 ≤ workers }
{
    assert_same(rt, &seat_of(workers, item), &wanted);
}

// The addresses of a frame: 2 + 1 = 3 in the octets 7 to 12.
const ADDRESSES: [u8; 12] = [2, 0, 0, 0, 0, 0xfe, 2, 0, 0, 0, 0, 1];

// The front of a packet to 10.0.0.2: 10 + 2 = 12 in the octets 17 to 20.
const PACKET: [u8; 20] = [
    0x45, 0, 0, 20, 0, 0, 0, 0, 64, 17, 0, 0, 192, 0, 2, 1, 10, 0, 0, 2,
];

#[test]
fn a_frame_and_a_packet_are_for_seats_by_their_octets(rt: HostRuntime) {
    assert_seat(&rt, 2, &item(ItemKind::Access(1), 0, &ADDRESSES), 1);
    assert_seat(&rt, 2, &item(ItemKind::Access(1), 0, &ADDRESSES[..11]), 0);
    assert_seat(&rt, 5, &item(ItemKind::Core, 0, &PACKET), 2);
    assert_seat(&rt, 5, &item(ItemKind::Core, 0, &PACKET[..19]), 0);
}

// 127 + 1 + 1701 = 1829.
#[test]
fn others_are_for_seats_by_their_sender_or_target(rt: HostRuntime) {
    assert_seat(&rt, 4, &item(ItemKind::Tunnel, 0, &[]), 1);
    assert_seat(&rt, 4, &item(ItemKind::Verdict, 1025, &[]), 1);
    assert_seat(&rt, 2, &item(ItemKind::Tick, 3, &[]), 1);
    assert_seat(&rt, 2, &item(ItemKind::End, 3, &[]), 1);
}

// A CoA-Request with the Acct-Session-Id 6553f1000401000000000001, of session 1025.
const OF_SESSION: [u8; 46] =
    *b"\x2b\x01\x00\x2e\0\0\0\0\0\0\0\0\0\0\0\0\0\0\0\0\x2c\x1a6553f1000401000000000001";

// One with the Framed-IP-Address 10.0.0.2.
const OF_ADDRESS: [u8; 26] = [
    0x2b, 1, 0, 26, 0, 0, 0, 0, 0, 0, 0, 0, 0, 0, 0, 0, 0, 0, 0, 0, 8, 6, 10, 0, 0, 2,
];

#[test]
fn a_request_is_for_a_seat_by_what_it_names(rt: HostRuntime) {
    assert_seat(&rt, 4, &item(ItemKind::Change, 0, &OF_SESSION), 1);
    assert_seat(&rt, 5, &item(ItemKind::Change, 0, &OF_ADDRESS), 2);
    assert_seat(&rt, 5, &item(ItemKind::Change, 0, &OF_ADDRESS[..25]), 0);
}
