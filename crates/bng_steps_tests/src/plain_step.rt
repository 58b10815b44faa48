//! The step over the plain store.
ghost use Rattle.std.specs.Prelude.{◌≡◌, ◌<◌, ◌≤◌, ◌+◌, ◌^◌, ◌++◌, Option as Maybe, length, option_to_list, vec_capacity};
ghost use Rattle.bng_base.specs.FateOf.{arrival_of};
ghost use Rattle.bng_base.specs.declared.item.Entry.{Entry as EntryOf};
ghost use Rattle.bng_pppoe_wire.specs.View.{frame_of};
ghost use Rattle.bng_forward.specs.Fates.{IsFrame};
ghost use Rattle.bng_steps.specs.Changes.{IsAnswerOf};
ghost use Rattle.bng_steps.specs.declared.changes.ChangeAnswer.{ChangeAnswer as AnswerOf};
ghost use Rattle.bng_steps.specs.Doing.{DoesWith};
ghost use Rattle.bng_steps.specs.Placed.{ArePlaced};
ghost use Rattle.bng_steps.specs.Frames.{HearsAccess, HearsFrame};
ghost use Rattle.bng_steps.specs.Hearing.{Does, outs_most};
ghost use Rattle.bng_steps.specs.Protocol.{entry_with};
ghost use Rattle.bng_base.specs.declared.address.Ip4.{Ip4 as Address};
ghost use Rattle.bng_steps.specs.TermRows.{AreTied, KeepSums, MayBegin, SumsStay, tenures_in, whole};
ghost use Rattle.bng_steps.specs.Step.{Step};
ghost use Rattle.bng_steps.specs.Wished.{IsAnswered};
ghost use Rattle.std.specs.Prelude.{false, None as Nothing};
ghost use Rattle.bng_steps.specs.Frames.{HearsCore};
ghost use Rattle.bng_sessions.specs.Sessions.{IsNumberOf, value_at};
ghost use Rattle.bng_steps.specs.Serving.{KeepsLease};
ghost use Rattle.bng_steps.specs.State.{with_session};

use crate::plain::Plain;
use bng_base::{Batch, Claim, Fate, OutRecord};
use bng_steps::{ChangeAnswer, Incoming, Served, Session, Terms, hear, hear_core};

/// Puts a session at a number that is not used, whoever has its address.
pub(crate) fn put_plainly(served: &mut Served<Plain>, session: Session)
    requires number { IsNumberOf served.old.sessions.shard session.number.0 }
    requires vacant { value_at served.old.sessions session.number.0 ≡ Nothing }
    requires leased { KeepsLease session.service session.lease }
    ensures { served.new ≡ with_session served.old session.number.0 session }
{
    served.put(session);
}

/// A datagram of the core.
pub(crate) fn hear_core_plainly(
    served: &mut Served<Plain>,
    terms: &Terms,
    incoming: &Incoming<'_>,
    outs: &mut Batch<OutRecord>,
) -> Fate
    requires moment { incoming.now.moment < 2 ^ 60 }
    requires whole { incoming.now.item.now.frame.headroom ≡ 64 }
    requires here { incoming.now.at.shard ≡ served.old.sessions.shard }
    requires tied { AreTied served.old.sessions (tenures_in terms.now.rows) }
    requires placed { ArePlaced incoming.now.rules.now served.old.sessions }
    requires room { length outs.old.items < outs.old.room }
    ensures does { DoesWith (λ e d. HearsCore incoming.now.rules.now (whole served.old terms.now) e d) 1 (whole served.old terms.now) (whole served.new terms.now) outs.old.items outs.new.items incoming.now.at incoming.now.moment incoming.now.item.now result }
    ensures capacity { outs.new.room ≡ outs.old.room }
{
    hear_core(served, terms, incoming, outs)
}

/// An item.
pub(crate) fn hear_plainly(
    served: &mut Served<Plain>,
    terms: &mut Terms,
    incoming: &Incoming<'_>,
    claim: Claim,
    limited: bool,
    answers: &mut Vec<ChangeAnswer>,
    outs: &mut Batch<OutRecord>,
) -> Fate
    requires moment { incoming.now.moment < 2 ^ 60 }
    requires auth { 0 < length incoming.now.rules.now.link.auth.items }
    requires offers { length incoming.now.rules.now.offers ≡ length incoming.now.rules.now.access }
    requires few_pools { length incoming.now.rules.now.pools ≤ 16 }
    requires few_profiles { length incoming.now.rules.now.profiles ≤ 16 }
    requires placed { ArePlaced incoming.now.rules.now served.old.sessions }
    requires tied { AreTied served.old.sessions (tenures_in terms.old.rows) }
    requires whole { incoming.now.item.now.frame.headroom ≡ 64 }
    requires place { incoming.now.at.shard ≡ served.old.sessions.shard }
    requires asked { IsAnswered incoming.now.rules.now served.old incoming.now.item.now limited claim }
    requires begins { (a : Address) → claim ≡ Claim.Claimed a → MayBegin false a served.old terms.old }
    requires answers_room { length answers.old.items < vec_capacity answers.old }
    requires room { length outs.old.items + outs_most incoming.now.item.now.kind + 5 ≤ outs.old.room }
    ensures answered { (e : EntryOf) → e.item ≡ incoming.now.item.now → (answer : Maybe AnswerOf) × IsAnswerOf incoming.now.rules.now (whole served.old terms.old) e answer × (answers.new.items ≡ answers.old.items ++ option_to_list answer) }
    ensures answers_capacity { vec_capacity answers.new ≡ vec_capacity answers.old }
    ensures sums { SumsStay terms.old terms.new }
    ensures does { Does (Step incoming.now.rules.now (whole served.old terms.old) limited) (outs_most incoming.now.item.now.kind) (whole served.old terms.old) (whole served.new terms.new) outs.old.items outs.new.items (entry_with claim incoming.now.at.seat incoming.now.at.place incoming.now.moment incoming.now.item.now) result }
    ensures capacity { outs.new.room ≡ outs.old.room }
{
    hear(served, terms, incoming, claim, limited, answers, outs)
}
