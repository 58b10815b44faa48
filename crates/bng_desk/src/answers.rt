//! What came from the RADIUS server, as the verdicts of a round.
ghost use Rattle.std.specs.Prelude.{◌≡◌, ◌+◌, ◌≤◌, ◌<◌, ◌^◌, length};
ghost use Rattle.bng_desk.specs.Intake.{AddsReply, TakesReplies};
ghost use Rattle.bng_desk.specs.Logins.{verdict_item};

use crate::calls::receive;
use crate::random::Draws;
use bng_base::{Batch, Frame, Item, ItemKind, Peer, Received, Role};
use bng_lane::Questions;
use bng_plant::Plant;
use bng_verdict::QuestionNo;
use std::mem;

/// The most verdicts of a round, and so many datagrams of Auth a turn takes.
pub(crate) const VERDICTS_MOST: usize = 128;

/// The octets of a reply to a question, as an item.
pub(crate) fn verdict(
    number: QuestionNo,
    from: Peer,
    cut: bool,
    frame: Frame,
    random: [u8; 16],
) -> Item
    requires { frame.headroom ≡ 64 }
    ensures { result ≡ record (verdict_item (record { from = from; cut = cut; octets = frame.payload }) number) { random = random } }
{
    Item {
        kind: ItemKind::Verdict,
        from,
        frame,
        cut,
        random,
        target: number.session.0,
        ask: number.ask,
    }
}

// Adds the item of a datagram of Auth, if it is the reply to a question: the item has the frame, and an empty one takes its
// place.
fn add_reply(
    lane: &mut Questions,
    from: Peer,
    cut: bool,
    frame: &mut Frame,
    draws: &mut Draws,
    items: &mut Batch<Item>,
)
    requires whole { frame.old.headroom ≡ 64 }
    requires room { length items.old.items < items.old.room }
    requires drawn { draws.old.drawn < 2 ^ 62 }
    ensures adds { AddsReply (record { from = from; cut = cut; octets = frame.old.payload }) lane.old lane.new draws.old draws.new items.old.items items.new.items }
    ensures capacity { items.new.room ≡ items.old.room }
    ensures few { length items.new.items ≤ length items.old.items + 1 }
    ensures few_drawn { draws.new.drawn ≤ draws.old.drawn + 1 }
{
    if let Some(number) = lane.take(from, frame.payload()) {
        let random = draws.sixteen();
        let whole = mem::replace(frame, Frame::new());
        items.push(verdict(number, from, cut, whole, random));
    }
}

/// Takes datagrams of Auth into a frame until Empty, Failed or the number of a turn; each that is the reply to a question is an item.
/// Says whether none was taken.
pub(crate) fn take_replies<P: Plant>(
    plant: &mut P,
    frame: &mut Frame,
    lane: &mut Questions,
    draws: &mut Draws,
    items: &mut Batch<Item>,
) -> bool
    requires room { length items.old.items + 128 ≤ items.old.room }
    requires drawn { draws.old.drawn < 2 ^ 61 }
    ensures takes { TakesReplies (P.told plant.old) (P.told plant.new) lane.old lane.new draws.old draws.new items.old.items items.new.items result }
    ensures capacity { items.new.room ≡ items.old.room }
{
    let mut quiet = true;
    for _taken in 0..VERDICTS_MOST {
        match receive(plant, Role::Auth, frame) {
            Received::Got { from, cut } => {
                add_reply(lane, from, cut, frame, draws, items);
                quiet = false;
            }
            Received::Empty | Received::Failed => return quiet,
        }
    }
    quiet
}
