//! The replies to requests for changes (RFC 5176 section 2.2) that a settlement sends.
ghost use Rattle.std.specs.Prelude.{◌≡◌, ◌⊎◌, ◌≤◌, ◌^◌, None, Some, map, option_map};
ghost use Rattle.std.specs.List.{flat_map};
ghost use Rattle.bng_radius_wire.specs.Grammar.{whole};
ghost use Rattle.bng_steps.specs.Changes.{refusal_of, verdict_by};
ghost use Rattle.bng_desk.specs.Coa.{AnswersLoose, AnswersLooseKind, replies_in};
ghost use Rattle.bng_desk.specs.Intake.{GivesItem, GivesLoose, GivesOne, GivesSome, RepeatsAll, SendsReplies};
ghost use Rattle.bng_desk.specs.Taking.{told_all};

use crate::calls::send;
use crate::coa::Repeated;
use bng_base::{Frame, Item, ItemKind, Loose, Role};
use bng_coa::{ChangeVerdict, CoaDesk, first_refusal, request_in};
use bng_plant::Plant;
use bng_radius_wire::Radius;
use bng_shard::Shard;
use bng_steps::Rules;

/// Session Context Not Found (RFC 5176 section 3.5).
const NOT_FOUND: u16 = 503;

// The number under which a request may be in hand; none has one of 2^32 or more.
fn number_of(ask: u64) -> Option<u32>
    ensures { ((result ≡ None) × (2 ^ 32 ≤ ask)) ⊎ (result ≡ Some ask) }
{
    if ask < 0x1_0000_0000 {
        Some(ask as u32)
    } else {
        None
    }
}

// Sends the replies of requests that were repeated, in their order.
fn repeat_all<P: Plant>(plant: &mut P, repeats: &[Repeated])
    ensures { RepeatsAll (replies_in repeats.now) (P.told plant.old) (P.told plant.new) }
{
    for repeated in repeats {
        let _sent = send(plant, Role::Coa, repeated.to, repeated.frame.payload());
    }
}

// Sends the reply to the request that is in hand under this number, if one is, with this verdict.
fn answer_one<P: Plant>(
    plant: &mut P,
    coa: &mut CoaDesk,
    frame: &mut Frame,
    ask: u64,
    verdict: ChangeVerdict,
)
    ensures { GivesOne (record { number = ask; verdict = verdict }) (P.told plant.old) (P.told plant.new) coa.old coa.new }
{
    let Some(number) = number_of(ask) else {
        return;
    };
    let Some(to) = coa.sender(number) else {
        return;
    };
    coa.answer(number, verdict, frame);
    let _sent = send(plant, Role::Coa, to, frame.payload());
}

// The verdict of a request that stands in no shard: it has no term.
fn refused(rules: &Rules, request: &Radius<'_>) -> ChangeVerdict
    ensures { result ≡ verdict_by (refusal_of rules.now (whole request.now)) None }
{
    match first_refusal(
        request,
        rules.nas_ip,
        rules.link.name.as_slice(),
        rules.profiles.as_slice(),
    ) {
        Some(cause) => ChangeVerdict::Refused(cause),
        None => ChangeVerdict::Refused(NOT_FOUND),
    }
}

// What a request that stands in no shard is answered.
fn refusal(rules: &Rules, item: &Item) -> Option<ChangeVerdict>
    ensures { AnswersLoose rules.now item.now (option_map (λ verdict. record { number = item.now.ask; verdict = verdict }) result) }
{
    match request_in(item.frame.payload()) {
        Some(request) => Some(refused(rules, &request)),
        None => None,
    }
}

// What a loose item is answered.
fn verdict_of(rules: &Rules, item: &Item) -> Option<ChangeVerdict>
    ensures { AnswersLooseKind item.now.kind rules.now item.now (option_map (λ verdict. record { number = item.now.ask; verdict = verdict }) result) }
{
    match item.kind {
        ItemKind::Change => refusal(rules, item),
        ItemKind::Access(_)
        | ItemKind::Core
        | ItemKind::Tunnel
        | ItemKind::Verdict
        | ItemKind::Tick
        | ItemKind::End => None,
    }
}

// Sends the reply to a loose item, if it is answered.
fn answer_item<P: Plant>(
    plant: &mut P,
    rules: &Rules,
    item: &Item,
    coa: &mut CoaDesk,
    frame: &mut Frame,
)
    ensures { GivesItem rules.now item.now (P.told plant.old) (P.told plant.new) coa.old coa.new }
{
    match verdict_of(rules, item) {
        Some(verdict) => answer_one(plant, coa, frame, item.ask, verdict),
        None => {}
    }
}

// Sends the replies to loose items, in their order.
fn answer_loose<P: Plant>(
    plant: &mut P,
    rules: &Rules,
    loose: &[Loose],
    coa: &mut CoaDesk,
    frame: &mut Frame,
)
    ensures { GivesLoose rules.now loose.now (P.told plant.old) (P.told plant.new) coa.old coa.new }
{
    for one in loose {
        answer_item(plant, rules, &one.item, coa, frame);
    }
}

// Sends the replies to what a shard answered, in the order of its journal.
fn answer_shard<P: Plant>(plant: &mut P, shard: &mut Shard, coa: &mut CoaDesk, frame: &mut Frame)
    ensures gives { GivesSome shard.old.state.changed (P.told plant.old) (P.told plant.new) coa.old coa.new }
    ensures told { shard.new ≡ told_all shard.old }
{
    while let Some((ask, verdict)) = shard.changed() {
        answer_one(plant, coa, frame, ask, verdict);
    }
}

// Sends the replies to what the shards answered, in their order.
fn answer_shards<P: Plant>(
    plant: &mut P,
    shards: &mut [Shard],
    coa: &mut CoaDesk,
    frame: &mut Frame,
)
    ensures gives { GivesSome (flat_map (λ v. v.state.changed) shards.old) (P.told plant.old) (P.told plant.new) coa.old coa.new }
    ensures told { shards.new ≡ map told_all shards.old }
{
    for shard in shards.iter_mut() {
        answer_shard(plant, shard, coa, frame);
    }
}

/// Sends the replies of requests that were repeated, in the order taken, then those to loose requests, and then those to what the shards
/// answered, of the first shard first; each request that is answered is in hand no longer, and its reply is kept. The replies are formed
/// in a frame.
pub(crate) fn send_replies<P: Plant>(
    plant: &mut P,
    rules: &Rules,
    repeats: &[Repeated],
    loose: &[Loose],
    shards: &mut [Shard],
    coa: &mut CoaDesk,
    frame: &mut Frame,
)
    ensures { SendsReplies rules.now (replies_in repeats.now) loose.now shards.old shards.new (P.told plant.old) (P.told plant.new) coa.old coa.new }
{
    repeat_all(plant, repeats);
    answer_loose(plant, rules, loose, coa, frame);
    answer_shards(plant, shards, coa, frame);
}
