//! A round of two shards, of which each list has something.
use super::PORT;
use bng_base::{
    Claim, Entry, Fate, Frame, Item, ItemKind, Listed, Loose, Octets, OutRecord, Role, RoundRecord,
};
use std::alloc::{AllocError, Global};

fn item(octet: u8) -> Item {
    let mut frame = Frame::new();
    frame.set(&[0, octet]);
    frame.cut_front(1);
    Item {
        kind: ItemKind::Core,
        from: PORT,
        frame,
        cut: false,
        random: [octet; 16],
        target: 0,
        ask: 0,
    }
}

fn entry(octet: u8) -> Entry {
    Entry {
        seat: 0,
        place: 0,
        moment: 600,
        item: item(octet),
        claim: Claim::NoClaim,
    }
}

/// The journals of two shards, the first with one entry and the second with two.
fn journals(alloc: Global) -> Result<Vec<Listed<Entry>>, AllocError> {
    let one = Listed::of(vec![in alloc; entry(1)]?);
    let two = Listed::of(vec![in alloc; entry(2), entry(3)]?);
    Ok(vec![in alloc; one, two]?)
}

fn loose() -> Loose {
    Loose {
        seat: 0,
        place: 1,
        item: item(4),
        fate: Fate::Consumed,
    }
}

fn out() -> OutRecord {
    OutRecord {
        shard: 1,
        seat: 0,
        place: 0,
        role: Role::Access(1),
        to: PORT,
        frame: Octets::of(Frame::new()),
        charge: None,
        sent: true,
    }
}

fn allowances(alloc: Global) -> Result<Listed<u32>, AllocError> {
    Ok(Listed::of(vec![in alloc; 10, 20]?))
}

fn loose_items(alloc: Global) -> Result<Listed<Loose>, AllocError> {
    Ok(Listed::of(vec![in alloc; loose()]?))
}

fn outs(alloc: Global) -> Result<Listed<OutRecord>, AllocError> {
    Ok(Listed::of(vec![in alloc; out()]?))
}

fn refused(alloc: Global) -> Result<Listed<Item>, AllocError> {
    Ok(Listed::of(vec![in alloc; item(5)]?))
}

/// A round of these two shards.
pub(super) fn round(alloc: Global, number: u64) -> Result<RoundRecord, AllocError> {
    let allowances = allowances(alloc)?;
    let journals = Listed::of(journals(alloc)?);
    let loose = loose_items(alloc)?;
    let outs = outs(alloc)?;
    let refused = refused(alloc)?;
    Ok(RoundRecord {
        number,
        moment: 600,
        wall: 1_700_000_000,
        allowances,
        journals,
        loose,
        outs,
        refused,
    })
}
