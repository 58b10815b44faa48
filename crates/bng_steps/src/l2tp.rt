//! Datagrams of the gateway's end for tunnels (RFC 2661).
ghost use Rattle.std.specs.Prelude.{◌≡◌, ◌<◌, ◌≤◌, ◌+◌, ◌^◌, length};
ghost use Rattle.bng_l2tp_wire.specs.View.{control_of, data_of, said};
ghost use Rattle.bng_lns.specs.Datagrams.{IsDataIn, IsReadAs};
ghost use Rattle.bng_lns.specs.Tunnels.{IsTaken, Steps};
ghost use Rattle.bng_base.specs.declared.fate.Fate.TheVariants.{Consumed};
ghost use Rattle.bng_steps.specs.Controlling.{IsControlOver};
ghost use Rattle.bng_steps.specs.Datagrams.{HearsFor, HearsMessage, HearsTunnel, HearsTunnelData, TakesStep};
ghost use Rattle.bng_steps.specs.Doing.{DoesWith};
ghost use Rattle.bng_steps.specs.Placed.{ArePlaced};
ghost use Rattle.bng_steps.specs.Frames.{HearsData};
ghost use Rattle.bng_steps.specs.TermRows.{tenures_in, whole, AreTied, KeepSums};
ghost use Rattle.bng_steps.specs.State.{call_of};

use crate::calls::hear_call;
use crate::cutting::cut_if;
use crate::data::pass_up;
use crate::frames::{Reception as Hearing, drive_at};
use crate::in_turn::send_datagrams;
use crate::incoming::Incoming;
use crate::served::Served;
use crate::store::Store;
use crate::terms::Terms;
use bng_base::{Batch, DropCause, Fate, Frame, OutRecord, Peer, SessionNo, TunnelNo, TunnelStep};
use bng_l2tp_wire::{Control, Data};
use bng_lns::{Came, MessageOutcome, TunnelDatagram, carried, datagram_of};
use bng_ppp::Input;

// Messages ----------------------------------------------------------------------------------------------------------------------

// A message that the tunnel with this number took, with these words. A call's was handed over; else what the tunnel says goes to the
// sender, and where that is its last its calls have ended.
#[inline(never)]
fn take_step<S: Store>(
    served: &mut Served<S>,
    terms: &mut Terms,
    incoming: &Incoming<'_>,
    number: TunnelNo,
    heard: TunnelStep,
    message: &Control<'_>,
    outs: &mut Batch<OutRecord>,
)
    requires moment { incoming.now.moment < 2 ^ 60 }
    requires auth { 0 < length incoming.now.rules.now.link.auth.items }
    requires offers { length incoming.now.rules.now.offers ≡ length incoming.now.rules.now.access }
    requires placed { ArePlaced incoming.now.rules.now served.old.sessions }
    requires here { incoming.now.at.shard ≡ served.old.sessions.shard }
    requires room { length outs.old.items + 15 ≤ outs.old.room }
    requires taken { IsTaken (Steps number.0 (said heard)) served.old.tunnels }
    ensures does { DoesWith (λ e d. TakesStep heard.call number.0 (said heard) (control_of message.now) incoming.now.rules.now (whole served.old terms.old) e served.old.tunnels d) 10 (whole served.old terms.old) (whole served.new terms.new) outs.old.items outs.new.items incoming.now.at incoming.now.moment incoming.now.item.now Consumed }
    ensures sums { KeepSums terms.old terms.new }
    ensures capacity { outs.new.room ≡ outs.old.room }
{
    if heard.call {
        hear_call(served, terms, incoming, number, heard, message, outs);
    } else {
        send_datagrams(incoming.at, incoming.item.from, heard.outs.as_slice(), outs);
        cut_if(served, terms, heard.cleared, number);
    }
}

// A control message.
#[inline(never)]
fn hear_message<S: Store>(
    served: &mut Served<S>,
    terms: &mut Terms,
    incoming: &Incoming<'_>,
    message: &Control<'_>,
    outs: &mut Batch<OutRecord>,
) -> Fate
    requires moment { incoming.now.moment < 2 ^ 60 }
    requires auth { 0 < length incoming.now.rules.now.link.auth.items }
    requires offers { length incoming.now.rules.now.offers ≡ length incoming.now.rules.now.access }
    requires placed { ArePlaced incoming.now.rules.now served.old.sessions }
    requires here { incoming.now.at.shard ≡ served.old.sessions.shard }
    requires room { length outs.old.items + 15 ≤ outs.old.room }
    ensures does { DoesWith (λ e d. HearsMessage incoming.now.rules.now (whole served.old terms.old) e (control_of message.now) d) 10 (whole served.old terms.old) (whole served.new terms.new) outs.old.items outs.new.items incoming.now.at incoming.now.moment incoming.now.item.now result }
    ensures sums { KeepSums terms.old terms.new }
    ensures capacity { outs.new.room ≡ outs.old.room }
{
    let item = incoming.item;
    let came = Came {
        from: item.from,
        random: item.random,
        moment: incoming.moment,
    };
    match served.take_message(incoming.rules, &came, message) {
        MessageOutcome::Unknown => Fate::Dropped(DropCause::NoSession),
        MessageOutcome::Ignored => Fate::Consumed,
        MessageOutcome::Step { number, step } => {
            take_step(served, terms, incoming, number, step, message, outs);
            Fate::Consumed
        }
    }
}

// Data --------------------------------------------------------------------------------------------------------------------------

// What a PPP frame of a call without an IPv4 packet is to do.
fn hearing_of<S: Store>(served: &Served<S>, from: Peer, message: &Data<'_>) -> Hearing
    ensures { IsControlOver (call_of served.now from message.now.tunnel message.now.session) result }
{
    match served.call_of(from, message.tunnel, SessionNo(message.session)) {
        Some(session) => {
            if session.hears() {
                Hearing::Heard
            } else {
                Hearing::Ignored
            }
        }
        None => Hearing::Unknown,
    }
}

// A PPP frame of a call without an IPv4 packet.
#[inline(never)]
fn hear_over<S: Store>(
    served: &mut Served<S>,
    terms: &mut Terms,
    incoming: &Incoming<'_>,
    message: &Data<'_>,
    outs: &mut Batch<OutRecord>,
) -> Fate
    requires moment { incoming.now.moment < 2 ^ 60 }
    requires auth { 0 < length incoming.now.rules.now.link.auth.items }
    requires offers { length incoming.now.rules.now.offers ≡ length incoming.now.rules.now.access }
    requires placed { ArePlaced incoming.now.rules.now served.old.sessions }
    requires here { incoming.now.at.shard ≡ served.old.sessions.shard }
    requires room { length outs.old.items + 15 ≤ outs.old.room }
    requires came { IsDataIn incoming.now.item.now.cut incoming.now.item.now.frame.payload (data_of message.now) }
    ensures does { DoesWith (λ e d. HearsFor (call_of served.old incoming.now.item.now.from message.now.tunnel message.now.session) incoming.now.rules.now (whole served.old terms.old) e (data_of message.now) d) 5 (whole served.old terms.old) (whole served.new terms.new) outs.old.items outs.new.items incoming.now.at incoming.now.moment incoming.now.item.now result }
    ensures sums { KeepSums terms.old terms.new }
    ensures capacity { outs.new.room ≡ outs.old.room }
{
    match hearing_of(served, incoming.item.from, message) {
        Hearing::Unknown => Fate::Dropped(DropCause::NoSession),
        Hearing::Ignored => Fate::Consumed,
        Hearing::Heard => {
            let input = Input::Frame(message.ppp);
            let session = SessionNo(message.session);
            drive_at(served, terms, session, incoming, input, outs);
            Fate::Consumed
        }
    }
}

// The IPv4 packet that a data message carries.
fn pass_over<S: Store>(
    served: &mut Served<S>,
    terms: &Terms,
    incoming: &Incoming<'_>,
    message: &Data<'_>,
    info: &[u8],
    outs: &mut Batch<OutRecord>,
) -> Fate
    requires moment { incoming.now.moment < 2 ^ 60 }
    requires here { incoming.now.at.shard ≡ served.old.sessions.shard }
    requires tied { AreTied served.old.sessions (tenures_in terms.now.rows) }
    requires room { length outs.old.items < outs.old.room }
    requires short { length info.now ≤ 4096 }
    ensures does { DoesWith (λ e d. HearsData incoming.now.rules.now (whole served.old terms.now) e (call_of served.old incoming.now.item.now.from message.now.tunnel message.now.session) info.now d) 1 (whole served.old terms.now) (whole served.new terms.now) outs.old.items outs.new.items incoming.now.at incoming.now.moment incoming.now.item.now result }
    ensures capacity { outs.new.room ≡ outs.old.room }
{
    let from = incoming.item.from;
    let session = served.numbered_over(from, message.tunnel, SessionNo(message.session));
    let mut packet = Frame::new();
    packet.set(info);
    pass_up(served, terms, incoming, session, &mut packet, outs)
}

// A data message.
fn hear_tunnel_data<S: Store>(
    served: &mut Served<S>,
    terms: &mut Terms,
    incoming: &Incoming<'_>,
    message: &Data<'_>,
    outs: &mut Batch<OutRecord>,
) -> Fate
    requires moment { incoming.now.moment < 2 ^ 60 }
    requires auth { 0 < length incoming.now.rules.now.link.auth.items }
    requires offers { length incoming.now.rules.now.offers ≡ length incoming.now.rules.now.access }
    requires placed { ArePlaced incoming.now.rules.now served.old.sessions }
    requires tied { AreTied served.old.sessions (tenures_in terms.old.rows) }
    requires here { incoming.now.at.shard ≡ served.old.sessions.shard }
    requires long { length incoming.now.item.now.frame.payload ≤ 4096 }
    requires room { length outs.old.items + 15 ≤ outs.old.room }
    requires came { IsDataIn incoming.now.item.now.cut incoming.now.item.now.frame.payload (data_of message.now) }
    ensures does { DoesWith (λ e d. HearsTunnelData incoming.now.rules.now (whole served.old terms.old) e (data_of message.now) d) 10 (whole served.old terms.old) (whole served.new terms.new) outs.old.items outs.new.items incoming.now.at incoming.now.moment incoming.now.item.now result }
    ensures sums { KeepSums terms.old terms.new }
    ensures capacity { outs.new.room ≡ outs.old.room }
{
    match carried(message) {
        Some(info) => pass_over(served, terms, incoming, message, info, outs),
        None => hear_over(served, terms, incoming, message, outs),
    }
}

// A datagram that was read.
fn hear_read<S: Store>(
    served: &mut Served<S>,
    terms: &mut Terms,
    incoming: &Incoming<'_>,
    datagram: &TunnelDatagram<'_>,
    outs: &mut Batch<OutRecord>,
) -> Fate
    requires moment { incoming.now.moment < 2 ^ 60 }
    requires auth { 0 < length incoming.now.rules.now.link.auth.items }
    requires offers { length incoming.now.rules.now.offers ≡ length incoming.now.rules.now.access }
    requires placed { ArePlaced incoming.now.rules.now served.old.sessions }
    requires tied { AreTied served.old.sessions (tenures_in terms.old.rows) }
    requires here { incoming.now.at.shard ≡ served.old.sessions.shard }
    requires long { length incoming.now.item.now.frame.payload ≤ 4096 }
    requires room { length outs.old.items + 15 ≤ outs.old.room }
    requires read { IsReadAs incoming.now.item.now.cut incoming.now.item.now.frame.payload datagram.now }
    ensures does { DoesWith (λ e d. HearsTunnel incoming.now.rules.now (whole served.old terms.old) e d) 10 (whole served.old terms.old) (whole served.new terms.new) outs.old.items outs.new.items incoming.now.at incoming.now.moment incoming.now.item.now result }
    ensures sums { KeepSums terms.old terms.new }
    ensures capacity { outs.new.room ≡ outs.old.room }
{
    match datagram {
        TunnelDatagram::Control(message) => hear_message(served, terms, incoming, message, outs),
        TunnelDatagram::Data(message) => hear_tunnel_data(served, terms, incoming, message, outs),
    }
}

/// Handles a datagram of the gateway's end for tunnels.
pub fn hear_tunnel<S: Store>(
    served: &mut Served<S>,
    terms: &mut Terms,
    incoming: &Incoming<'_>,
    outs: &mut Batch<OutRecord>,
) -> Fate
    requires moment { incoming.now.moment < 2 ^ 60 }
    requires whole { incoming.now.item.now.frame.headroom ≡ 64 }
    requires auth { 0 < length incoming.now.rules.now.link.auth.items }
    requires offers { length incoming.now.rules.now.offers ≡ length incoming.now.rules.now.access }
    requires placed { ArePlaced incoming.now.rules.now served.old.sessions }
    requires tied { AreTied served.old.sessions (tenures_in terms.old.rows) }
    requires here { incoming.now.at.shard ≡ served.old.sessions.shard }
    requires room { length outs.old.items + 15 ≤ outs.old.room }
    ensures does { DoesWith (λ e d. HearsTunnel incoming.now.rules.now (whole served.old terms.old) e d) 10 (whole served.old terms.old) (whole served.new terms.new) outs.old.items outs.new.items incoming.now.at incoming.now.moment incoming.now.item.now result }
    ensures sums { KeepSums terms.old terms.new }
    ensures capacity { outs.new.room ≡ outs.old.room }
{
    let item = incoming.item;
    match datagram_of(item.cut, item.frame.payload()) {
        Some(datagram) => hear_read(served, terms, incoming, &datagram, outs),
        None => Fate::Dropped(DropCause::Malformed),
    }
}
