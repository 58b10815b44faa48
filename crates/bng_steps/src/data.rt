//! Packets of the sessions' terms: from a circuit to the core, and from the core to a circuit.
ghost use Rattle.std.specs.Prelude.{◌≡◌, ◌<◌, ◌≤◌, ◌^◌, ℕ, List, length, option_map};
ghost use Rattle.std.specs.List.{list_any};
ghost use Rattle.std.specs.Option.{option_copied};
ghost use Rattle.bng_base.specs.FateOf.{arrival_of};
ghost use Rattle.bng_pppoe_wire.specs.View.{frame_of};
ghost use Rattle.bng_forward.specs.Fates.{Carries, IsCorePacket, IsFrame};
ghost use Rattle.bng_steps.specs.Doing.{DoesWith};
ghost use Rattle.bng_steps.specs.Placed.{ArePlaced, IsPlaced};
ghost use Rattle.bng_steps.specs.Frames.{charge_of as charged_to, found_among, HearsCore, HearsData, HearsPacket, SentDown};
ghost use Rattle.bng_steps.specs.Metered.{kept_view, meters_found, view_in};
ghost use Rattle.bng_steps.specs.TermRows.{AreTied, tenures_in, whole};
ghost use Rattle.bng_steps.specs.State.{session_at, session_of};
ghost use Rattle.bng_steps.specs.Tenures.{has_kept};

use crate::drive::port_of;
use crate::incoming::Incoming;
use crate::meters::Meters;
use crate::rules::Rules;
use crate::sending::push_out;
use crate::served::Served;
use crate::session::{Lease, PPPOE_MRU, Session};
use crate::store::Store;
use crate::terms::Terms;
use crate::way::Way;
use bng_base::{
    Batch, Charge, DropCause, Fate, Frame, Ip4, Ipv4, OutRecord, Peer, Role, SessionNo, TermId,
};
use bng_forward::{Arrived, TermView, down, packet_from, put_in_frame, take_from_frame, up};
use bng_lns::put_in_call;
use bng_pppoe_wire::Pppoe;

// Whose packet it is: the session's term.
fn charge_of(session: &Session, lease: Lease, input: bool, octets: u16) -> Charge
    ensures { result ≡ charged_to session.now lease input octets }
{
    Charge {
        term: TermId {
            session: session.number,
            serial: lease.serial,
        },
        profile: lease.profile,
        circuit: session.own_circuit(),
        address: lease.address,
        input,
        octets,
    }
}

// The view of the live term of a session.
fn view_in<S: Store>(served: &Served<S>, session: &Session) -> Option<TermView>
    ensures { result ≡ view_in served.now.meters session.now }
{
    session.view(served.meters_at(session.number))
}

// The view of the term of a frame's session, if there is a session.
fn found_for<S: Store>(served: &Served<S>, session: Option<&Session>) -> Option<Option<TermView>>
    ensures { result ≡ option_map (view_in served.now.meters) (option_copied session.entry) }
{
    match session {
        Some(session) => Some(view_in(served, session)),
        None => None,
    }
}

// The view of the term that has this address: the live one of its holder, or one that has ended and is not open.
fn holder_view<S: Store>(
    served: &Served<S>,
    holder: Option<&Session>,
    terms: &Terms,
    address: Ip4,
) -> Option<TermView>
    ensures { result ≡ found_among served.now.meters (option_copied holder.entry) (list_any (has_kept address) (tenures_in terms.now.rows)) address }
{
    match holder {
        Some(session) => view_in(served, session),
        None => kept_view(terms, address),
    }
}

// The view of a term that has ended and still has this address.
fn kept_view(terms: &Terms, address: Ip4) -> Option<TermView>
    ensures { result ≡ kept_view (list_any (has_kept address) (tenures_in terms.now.rows)) address }
{
    if terms.keeps(address) {
        Some(TermView {
            lease: address,
            opened: false,
            mru: PPPOE_MRU,
            input: None,
            output: None,
        })
    } else {
        None
    }
}

// The meters of the term that was found.
fn meters_found(found: Option<Option<TermView>>) -> Meters
    ensures { result ≡ meters_found found }
{
    match found {
        Some(view) => Meters::from_view(view),
        None => Meters::none(),
    }
}

/// Handles the IPv4 packet of a circuit, for which the session with this number was found, if there is one.
pub fn pass_up<S: Store>(
    served: &mut Served<S>,
    terms: &Terms,
    incoming: &Incoming<'_>,
    number: Option<SessionNo>,
    packet: &mut Frame,
    outs: &mut Batch<OutRecord>,
) -> Fate
    requires moment { incoming.now.moment < 2 ^ 60 }
    requires here { incoming.now.at.shard ≡ served.old.sessions.shard }
    requires tied { AreTied served.old.sessions (tenures_in terms.now.rows) }
    requires room { length outs.old.items < outs.old.room }
    ensures does { DoesWith (λ e d. HearsData incoming.now.rules.now (whole served.old terms.now) e (session_at served.old number) packet.old.payload d) 1 (whole served.old terms.now) (whole served.new terms.now) outs.old.items outs.new.items incoming.now.at incoming.now.moment incoming.now.item.now result }
    ensures capacity { outs.new.room ≡ outs.old.room }
{
    let session = served.session_at(number);
    let mut found = found_for(served, session);
    let fate = up(&mut found, incoming.moment, packet);
    let Fate::Forwarded = fate else {
        return fate;
    };
    let Some(session) = session else {
        unreachable!();
    };
    let Some(lease) = session.lease() else {
        unreachable!();
    };
    let octets = packet.payload().len() as u16;
    let charge = charge_of(session, lease, true, octets);
    served.note_passed(charge.term.session, incoming.moment, meters_found(found));
    let core = incoming.rules.core_peer;
    push_out(outs, incoming.at, Role::Core, core, packet, Some(charge));
    Fate::Forwarded
}

/// Handles a frame that came to the port with this number and carries an IPv4 packet of so many octets.
pub fn hear_data<S: Store>(
    served: &mut Served<S>,
    terms: &Terms,
    incoming: &Incoming<'_>,
    number: u8,
    frame: &Pppoe<'_>,
    size: usize,
    outs: &mut Batch<OutRecord>,
) -> Fate
    requires moment { incoming.now.moment < 2 ^ 60 }
    requires here { incoming.now.at.shard ≡ served.old.sessions.shard }
    requires tied { AreTied served.old.sessions (tenures_in terms.now.rows) }
    requires room { length outs.old.items < outs.old.room }
    requires came { IsFrame incoming.now.rules.now.access number (arrival_of incoming.now.item.now) (frame_of frame.now) }
    requires carries { (info : List ℕ) × Carries (frame_of frame.now) info × (length info ≡ size) }
    ensures does { (info : List ℕ) → Carries (frame_of frame.now) info → DoesWith (λ e d. HearsData incoming.now.rules.now (whole served.old terms.now) e (session_of served.old number frame.now.src frame.now.session) info d) 1 (whole served.old terms.now) (whole served.new terms.now) outs.old.items outs.new.items incoming.now.at incoming.now.moment incoming.now.item.now result }
    ensures capacity { outs.new.room ≡ outs.old.room }
{
    let session = served.numbered_on(number, frame.src, SessionNo(frame.session));
    let mut packet = Frame::new();
    packet.copy_from(&incoming.item.frame);
    take_from_frame(&mut packet, size);
    pass_up(served, terms, incoming, session, &mut packet, outs)
}

// Makes of a packet what goes out on the way of a session, and answers where it goes.
fn put_on_way(rules: &Rules, session: &Session, packet: &mut Frame) -> (Role, Peer)
    requires placed { IsPlaced rules.now session.now.way }
    requires room { 22 ≤ packet.old.headroom }
    ensures { SentDown session.now.way rules.now session.now.number.0 packet.old.payload result.0 result.1 packet.new.payload }
{
    match &session.way {
        Way::Port { port, mac } => {
            let Some(found) = port_of(rules, *port) else {
                unreachable!();
            };
            put_in_frame(&found, *mac, session.number, packet);
            (Role::Access(*port), found.peer)
        }
        Way::Call(called) => {
            put_in_call(called.far, called.far_session(), packet);
            (Role::Tunnel, called.peer)
        }
    }
}

// Handles a packet of the core that says this.
fn hear_packet<S: Store>(
    served: &mut Served<S>,
    terms: &Terms,
    incoming: &Incoming<'_>,
    header: Ipv4,
    outs: &mut Batch<OutRecord>,
) -> Fate
    requires moment { incoming.now.moment < 2 ^ 60 }
    requires whole { incoming.now.item.now.frame.headroom ≡ 64 }
    requires here { incoming.now.at.shard ≡ served.old.sessions.shard }
    requires tied { AreTied served.old.sessions (tenures_in terms.now.rows) }
    requires placed { ArePlaced incoming.now.rules.now served.old.sessions }
    requires room { length outs.old.items < outs.old.room }
    requires came { IsCorePacket incoming.now.rules.now.core_peer (arrival_of incoming.now.item.now) header }
    ensures does { DoesWith (λ e d. HearsPacket incoming.now.rules.now (whole served.old terms.now) e header d) 1 (whole served.old terms.now) (whole served.new terms.now) outs.old.items outs.new.items incoming.now.at incoming.now.moment incoming.now.item.now result }
    ensures capacity { outs.new.room ≡ outs.old.room }
{
    let holder = served.holder_of(header.dst);
    let mut packet = Frame::new();
    packet.copy_from(&incoming.item.frame);
    let mut view = holder_view(served, holder, terms, header.dst);
    let fate = down(&mut view, incoming.moment, header, &mut packet);
    let Fate::Forwarded = fate else {
        return fate;
    };
    let Some(session) = holder else {
        unreachable!();
    };
    let Some(lease) = session.lease() else {
        unreachable!();
    };
    let (role, to) = put_on_way(incoming.rules, session, &mut packet);
    let charge = charge_of(session, lease, false, header.total);
    served.note_passed(
        charge.term.session,
        incoming.moment,
        Meters::from_view(view),
    );
    push_out(outs, incoming.at, role, to, &packet, Some(charge));
    Fate::Forwarded
}

/// Handles a datagram of the core.
pub fn hear_core<S: Store>(
    served: &mut Served<S>,
    terms: &Terms,
    incoming: &Incoming<'_>,
    outs: &mut Batch<OutRecord>,
) -> Fate
    requires moment { incoming.now.moment < 2 ^ 60 }
    requires whole { incoming.now.item.now.frame.headroom ≡ 64 }
    requires here { incoming.now.at.shard ≡ served.old.sessions.shard }
    requires tied { AreTied served.old.sessions (tenures_in terms.now.rows) }
    requires placed { ArePlaced incoming.now.rules.now served.old.sessions }
    requires room { length outs.old.items < outs.old.room }
    ensures does { DoesWith (λ e d. HearsCore incoming.now.rules.now (whole served.old terms.now) e d) 1 (whole served.old terms.now) (whole served.new terms.now) outs.old.items outs.new.items incoming.now.at incoming.now.moment incoming.now.item.now result }
    ensures capacity { outs.new.room ≡ outs.old.room }
{
    let item = incoming.item;
    let arrived = Arrived {
        from: item.from,
        cut: item.cut,
        octets: item.frame.payload(),
    };
    match packet_from(incoming.rules.core_peer, &arrived) {
        Some(header) => hear_packet(served, terms, incoming, header, outs),
        None => Fate::Dropped(DropCause::Malformed),
    }
}
