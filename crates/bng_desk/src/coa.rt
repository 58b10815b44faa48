//! What came from Coa, as the requests for changes of a round (RFC 5176).
ghost use Rattle.std.specs.Prelude.{◌≡◌, ◌+◌, ◌≤◌, ◌<◌, ◌^◌, true, count_by, length, vec_capacity};
ghost use Rattle.bng_coa.specs.Admission.{IsRequestIn};
ghost use Rattle.bng_coa.specs.Leads.{lead_of, target_of as target_by};
ghost use Rattle.bng_coa.specs.Requests.{is_in_hand};
ghost use Rattle.bng_radius_wire.specs.Grammar.{Packet};
ghost use Rattle.bng_desk.specs.Coa.{change_item, has_places, replies_in};
ghost use Rattle.bng_desk.specs.Intake.{AddsRequest, TakesCoa, TakesRequests};

use crate::calls::receive;
use crate::holding::Named;
use crate::lists::Lists;
use crate::random::Draws;
use bng_base::{Frame, Item, ItemKind, Peer, Received, Role};
use bng_coa::{Admitted, CoaDesk, lead_of, request_in};
use bng_plant::Plant;
use std::mem;

/// How many datagrams of Coa a turn takes.
pub(crate) const REQUESTS_MOST: usize = 32;

/// So many requests may be in hand where Coa is read: with those of a turn there are at most 256.
const IN_HAND_MOST: u32 = 224;

/// A reply that was sent before and is to be sent again.
#[derive(Drop)]
pub(crate) struct Repeated {
    pub(crate) to: Peer,
    pub(crate) frame: Frame,
}

/// Whether a turn's requests may be taken beside those that are in hand.
pub(crate) fn has_places(coa: &CoaDesk) -> bool
    ensures { result ≡ has_places coa.now }
{
    coa.in_hand() <= IN_HAND_MOST
}

// The session number that a request names, 0 where it names none.
fn target_of(bytes: &[u8]) -> u16
    requires request { (p : Packet) × IsRequestIn p bytes.now }
    ensures { (p : Packet) × IsRequestIn p bytes.now × (result ≡ target_by (lead_of p)) }
{
    match request_in(bytes) {
        Some(request) => lead_of(&request).target(),
        None => unreachable!(),
    }
}

// A new request as an item.
fn change(number: u32, target: u16, from: Peer, cut: bool, frame: Frame, random: [u8; 16]) -> Item
    requires { frame.headroom ≡ 64 }
    ensures low { number < 2 ^ 32 }
    ensures item { result ≡ record (change_item (record { from = from; cut = cut; octets = frame.payload }) number target) { random = random } }
{
    Item {
        kind: ItemKind::Change,
        from,
        frame,
        cut,
        random,
        target,
        ask: u64::from(number),
    }
}

// Adds the item of a datagram of Coa, if it is a new request: the item has the frame, and an empty one takes its place. The reply to a
// request that is repeated is kept for the settlement.
fn add_request(
    coa: &mut CoaDesk,
    named: Named,
    from: Peer,
    cut: bool,
    frame: &mut Frame,
    draws: &mut Draws,
    lists: &mut Lists,
)
    requires in_hand { count_by is_in_hand coa.old.requests < 256 }
    requires whole { frame.old.headroom ≡ 64 }
    requires room { length lists.old.items.items < lists.old.items.room }
    requires places { length lists.old.repeats.items < vec_capacity lists.old.repeats }
    requires drawn { draws.old.drawn < 2 ^ 62 }
    ensures adds { AddsRequest named.moment named.wall (record { from = from; cut = cut; octets = frame.old.payload }) coa.old coa.new draws.old draws.new lists.old.items.items lists.new.items.items (replies_in lists.old.repeats.items) (replies_in lists.new.repeats.items) }
    ensures few_in_hand { count_by is_in_hand coa.new.requests ≤ count_by is_in_hand coa.old.requests + 1 }
    ensures few { length lists.new.items.items ≤ length lists.old.items.items + 1 }
    ensures few_repeats { length lists.new.repeats.items ≤ length lists.old.repeats.items + 1 }
    ensures few_drawn { draws.new.drawn ≤ draws.old.drawn + 1 }
    ensures capacity { lists.new.items.room ≡ lists.old.items.room }
    ensures repeats_room { vec_capacity lists.new.repeats ≡ vec_capacity lists.old.repeats }
    ensures rest { lists.new ≡ record lists.old { items = lists.new.items; repeats = lists.new.repeats } }
{
    match coa.admit(from, frame.payload(), named.moment, named.wall) {
        Admitted::New(number) => {
            let target = target_of(frame.payload());
            let random = draws.sixteen();
            let whole = mem::replace(frame, Frame::new());
            lists
                .items
                .push(change(number, target, from, cut, whole, random));
        }
        Admitted::Repeat(reply) => lists.repeats.push_reserved(Repeated {
            to: from,
            frame: reply,
        }),
        Admitted::InHand => {}
        Admitted::Ignored(_cause) => {}
    }
}

/// Takes datagrams of Coa into a frame until Empty, Failed or the number of a turn, at this moment and this second on the wall; each new
/// request is an item. Says whether none was taken.
pub(crate) fn take_requests<P: Plant>(
    plant: &mut P,
    frame: &mut Frame,
    coa: &mut CoaDesk,
    named: Named,
    draws: &mut Draws,
    lists: &mut Lists,
) -> bool
    requires in_hand { count_by is_in_hand coa.old.requests ≤ 224 }
    requires room { length lists.old.items.items + 32 ≤ lists.old.items.room }
    requires places { length lists.old.repeats.items + 32 ≤ vec_capacity lists.old.repeats }
    requires drawn { draws.old.drawn < 2 ^ 61 }
    ensures takes { TakesRequests named.moment named.wall (P.told plant.old) (P.told plant.new) coa.old coa.new draws.old draws.new lists.old.items.items lists.new.items.items (replies_in lists.old.repeats.items) (replies_in lists.new.repeats.items) result }
    ensures capacity { lists.new.items.room ≡ lists.old.items.room }
    ensures rest { lists.new ≡ record lists.old { items = lists.new.items; repeats = lists.new.repeats } }
{
    let mut quiet = true;
    for _taken in 0..REQUESTS_MOST {
        match receive(plant, Role::Coa, frame) {
            Received::Got { from, cut } => {
                add_request(coa, named, from, cut, frame, draws, lists);
                quiet = false;
            }
            Received::Empty | Received::Failed => return quiet,
        }
    }
    quiet
}

/// Takes requests from Coa, where it is read. Says whether none was taken.
pub(crate) fn take_if<P: Plant>(
    reads: bool,
    plant: &mut P,
    frame: &mut Frame,
    coa: &mut CoaDesk,
    named: Named,
    draws: &mut Draws,
    lists: &mut Lists,
) -> bool
    requires in_hand { reads ≡ true → count_by is_in_hand coa.old.requests ≤ 224 }
    requires room { length lists.old.items.items + 32 ≤ lists.old.items.room }
    requires places { length lists.old.repeats.items + 32 ≤ vec_capacity lists.old.repeats }
    requires drawn { draws.old.drawn < 2 ^ 61 }
    ensures takes { TakesCoa reads named.moment named.wall (P.told plant.old) (P.told plant.new) coa.old coa.new draws.old draws.new lists.old.items.items lists.new.items.items (replies_in lists.old.repeats.items) (replies_in lists.new.repeats.items) result }
    ensures capacity { lists.new.items.room ≡ lists.old.items.room }
    ensures rest { lists.new ≡ record lists.old { items = lists.new.items; repeats = lists.new.repeats } }
{
    if reads {
        take_requests(plant, frame, coa, named, draws, lists)
    } else {
        true
    }
}
