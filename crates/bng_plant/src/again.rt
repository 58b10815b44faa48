//! Copies that take no memory.
ghost use Rattle.std.specs.Prelude.{◌≡◌, ◌≤◌, []};

use bng_base::{Entry, Frame, HEADROOM, Item, Loose, Octets, OutRecord, ROOM};

/// What can be copied without memory.
pub trait Again {
    fn again(&self) -> Self
        ensures { result ≡ self.now };
}

impl Again for u32 {
    fn again(&self) -> u32 {
        *self
    }
}

impl Again for Frame {
    fn again(&self) -> Frame {
        let payload = self.payload();
        let mut frame = with_headroom(self.headroom());
        frame.put_back(payload);
        frame
    }
}

/// An empty frame with this headroom.
fn with_headroom(headroom: usize) -> Frame
    requires { headroom ≤ ROOM }
    ensures { result ≡ record { payload = []; headroom = headroom } }
{
    let zeros = [0; 4160];
    let mut frame = Frame::new();
    if headroom <= HEADROOM {
        let less = HEADROOM - headroom;
        frame.put_front(&zeros[..less]);
        frame.cut_back(less);
        return frame;
    }
    let more = headroom - HEADROOM;
    frame.put_back(&zeros[..more]);
    frame.cut_front(more);
    frame
}

impl Again for Octets {
    fn again(&self) -> Octets {
        let mut frame = with_headroom(0);
        frame.put_back(self.as_slice());
        Octets::of(frame)
    }
}

impl Again for Item {
    fn again(&self) -> Item {
        Item {
            kind: self.kind,
            from: self.from,
            frame: self.frame.again(),
            cut: self.cut,
            random: self.random,
            target: self.target,
            ask: self.ask,
        }
    }
}

impl Again for Entry {
    fn again(&self) -> Entry {
        Entry {
            seat: self.seat,
            place: self.place,
            moment: self.moment,
            item: self.item.again(),
            claim: self.claim,
        }
    }
}

impl Again for Loose {
    fn again(&self) -> Loose {
        Loose {
            seat: self.seat,
            place: self.place,
            item: self.item.again(),
            fate: self.fate,
        }
    }
}

impl Again for OutRecord {
    fn again(&self) -> OutRecord {
        OutRecord {
            shard: self.shard,
            seat: self.seat,
            place: self.place,
            role: self.role,
            to: self.to,
            frame: self.frame.again(),
            charge: self.charge,
            sent: self.sent,
        }
    }
}
