ghost use Rattle.std.specs.Prelude.{◌≡◌, ◌≤◌, length, IfOk};

use crate::asserts::{assert_count, assert_holds, assert_octets, assert_same};
use bng_base::{At, Batch, Claim, Entry, Frame, Ip4, Item, ItemKind, OutRecord, Peer, Role};
use std::alloc::{AllocError, Global};
use std::process::Abort;
use std::test::Fail;

// Five octets, of which the two in front and the last one are cut off.
fn cut_frame() -> Frame
    ensures octets { length result.payload ≡ 2 }
    ensures headroom { result.headroom ≡ 66 }
{
    let mut frame = Frame::new();
    frame.set(&[1, 2, 3, 4, 5]);
    frame.cut_front(2);
    frame.cut_back(1);
    frame
}

fn put_at_both_ends(frame: &mut Frame)
    requires { (length frame.old.payload ≡ 2) × (frame.old.headroom ≡ 66) }
    ensures { length frame.new.payload ≡ 5 }
{
    frame.put_front(&[9]);
    frame.put_back(&[8, 7]);
}

#[test]
fn a_frame_changes_at_its_ends(rt: HostRuntime) {
    let mut frame = cut_frame();
    put_at_both_ends(&mut frame);
    frame.overwrite(1, &[6]);
    assert_octets(&rt, frame.payload(), &[9, 6, 4, 8, 7].as_slice());
    assert_same(&rt, &frame.headroom(), &65);
}

fn peer(port: u16) -> Peer {
    Peer {
        ip: Ip4(0x0a00_0001),
        port,
    }
}

fn frame_of(octets: &[u8]) -> Frame
    requires { length octets.now ≤ 4096 }
{
    let mut frame = Frame::new();
    frame.set(octets);
    frame
}

// An item that is written over another.
fn cleared_items(alloc: Global) -> Result<Batch<Item>, AllocError> {
    let mut items = Batch::new(alloc);
    items.reserve(2)?;
    items.push_datagram(
        ItemKind::Core,
        peer(7),
        true,
        &frame_of(&[1, 2, 3]),
        [5; 16],
    );
    items.clear();
    items.push_datagram(
        ItemKind::Access(1),
        peer(9),
        false,
        &frame_of(&[9]),
        [7; 16],
    );
    Ok(items)
}

fn entries_of(alloc: Global, item: &Item) -> Result<Batch<Entry>, AllocError>
    ensures { IfOk result (λ b. length b.items ≡ 1) }
{
    let mut entries = Batch::new(alloc);
    entries.reserve(1)?;
    entries.push_entry(0, 3, 8, item, Claim::Claimed(Ip4(1)));
    Ok(entries)
}

fn outs_of(alloc: Global, frame: &Frame) -> Result<Batch<OutRecord>, AllocError>
    ensures { IfOk result (λ b. length b.items ≡ 1) }
{
    let mut outs = Batch::new(alloc);
    outs.reserve(1)?;
    let at = At {
        shard: 0,
        seat: 0,
        place: 3,
    };
    outs.push_out(at, Role::Core, peer(5), frame, None);
    Ok(outs)
}

fn sent_of(alloc: Global, out: &OutRecord) -> Result<Vec<OutRecord>, AllocError>
    ensures { IfOk result (λ v. length v.items ≡ 1) }
{
    let mut sent = Batch::new(alloc);
    sent.reserve(1)?;
    sent.push_sent(out, true);
    Ok(sent.into_vec())
}

fn assert_item(rt: &impl Abort, item: &Item) {
    assert_octets(rt, item.frame.payload(), &[9].as_slice());
    assert_same(rt, &item.kind, &ItemKind::Access(1));
}

fn assert_entry(rt: &impl Abort, entry: &Entry) {
    assert_same(rt, &entry.item.from, &peer(9));
    assert_same(rt, &entry.claim, &Claim::Claimed(Ip4(1)));
}

// Sends the entry's frame on, as one out.
fn send_on(rt: &impl Abort, alloc: Global, entry: &Entry) -> Result<(), AllocError> {
    let outs = outs_of(alloc, &entry.item.frame)?;
    let told = sent_of(alloc, &outs.as_slice()[0])?;
    assert_holds(rt, told[0].sent);
    assert_octets(rt, told[0].frame.as_slice(), &[9].as_slice());
    Ok(())
}

// Enters the item, and sends it on.
fn enter(rt: &impl Abort, alloc: Global, item: &Item) -> Result<(), AllocError> {
    let entries = entries_of(alloc, item)?;
    let entry = &entries.as_slice()[0];
    assert_entry(rt, entry);
    send_on(rt, alloc, entry)
}

#[test]
fn a_cleared_batch_writes_over_its_places(rt: HostRuntime) -> Result<(), Fail> {
    let items = cleared_items(rt.alloc())?;
    assert_count(&rt, items.len(), 1);
    let item = &items.as_slice()[0];
    assert_item(&rt, item);
    enter(&rt, rt.alloc(), item)?;
    Ok(())
}
