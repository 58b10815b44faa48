//! How a session ends on its way: by a PADT (RFC 2516 section 5.5), or by a CDN (RFC 2661 section 6.12).
ghost use Rattle.std.specs.Prelude.{◌≡◌, List, Some, ◌+◌, ◌<◌, ◌≤◌, ◌++◌, length};
ghost use Rattle.bng_base.specs.declared.item.OutRecord.{OutRecord as OutRecordOf};
ghost use Rattle.bng_base.specs.declared.settings.AccessPort.{AccessPort as Port};
ghost use Rattle.bng_discovery.specs.Reply.{padt_of};
ghost use Rattle.bng_l2tp_call.specs.Steps.{end_step};
ghost use Rattle.bng_lns.specs.Tunnels.{tunnel_at};
ghost use Rattle.bng_steps.specs.State.{port_at, with_tunnels};
ghost use Rattle.bng_steps.specs.Deed.{frame_outs};
ghost use Rattle.bng_steps.specs.Placed.{IsPlaced};
ghost use Rattle.bng_steps.specs.Link.{EndsWith, HangsUp, PartsOn, parted_way};

use crate::drive::{between, offers_of, port_of, push_written};
use crate::in_turn::send_datagrams;
use crate::incoming::Incoming;
use crate::rules::Rules;
use crate::served::Served;
use crate::session::Session;
use crate::store::Store;
use crate::way::{TunnelCall, Way};
use bng_base::{AccessPort, At, Batch, Frame, Mac, OutRecord, SessionNo};
use bng_discovery::{PortRules, terminate};

// Appends the PADT of a session to a host of the port (RFC 2516 section 5.5).
fn push_padt(
    outs: &mut Batch<OutRecord>,
    at: At,
    number: u8,
    mac: Mac,
    session: SessionNo,
    port: &AccessPort,
    offers: &PortRules,
)
    requires room { length outs.old.items < outs.old.room }
    ensures items { outs.new.items ≡ outs.old.items ++ frame_outs at number port.now (padt_of offers.now mac session.0) }
    ensures capacity { outs.new.room ≡ outs.old.room }
    ensures few { length outs.new.items ≤ length outs.old.items + 1 }
{
    between(mac, offers.mac);
    let mut padt = Frame::new();
    terminate(mac, offers, session, &mut padt);
    push_written(outs, at, number, port, &padt);
}

/// Appends the PADT of the session with this number, to this MAC on the port with that number (RFC 2516 section 5.5).
pub fn send_padt(
    rules: &Rules,
    at: At,
    number: u8,
    mac: Mac,
    session: SessionNo,
    outs: &mut Batch<OutRecord>,
)
    requires offers { length rules.now.offers ≡ length rules.now.access }
    requires placed { (port : Port) × (port_at rules.now.access number ≡ Some port) }
    requires room { length outs.old.items < outs.old.room }
    ensures items { (padt : List OutRecordOf) × EndsWith rules.now at number mac session padt × (outs.new.items ≡ outs.old.items ++ padt) }
    ensures capacity { outs.new.room ≡ outs.old.room }
    ensures few { length outs.new.items ≤ length outs.old.items + 1 }
{
    let Some(port) = port_of(rules, number) else {
        unreachable!();
    };
    let Some(offers) = offers_of(rules, number) else {
        unreachable!();
    };
    push_padt(outs, at, number, mac, session, &port, offers);
}

// Ends a call, and appends the CDN where its tunnel sends it now.
#[inline(never)]
fn hang_up<S: Store>(
    served: &mut Served<S>,
    called: &mut TunnelCall,
    incoming: &Incoming<'_>,
    outs: &mut Batch<OutRecord>,
)
    requires room { length outs.old.items < outs.old.room }
    ensures told { (last : List OutRecordOf) × HangsUp (tunnel_at served.old.tunnels called.old.tunnel.0) called.old incoming.now.at incoming.now.moment served.old.tunnels last served.new.tunnels × (outs.new.items ≡ outs.old.items ++ last) × (length last ≤ 1) }
    ensures called { called.new ≡ record called.old { call = (end_step called.old.call).after } }
    ensures others { served.new ≡ with_tunnels served.old served.new.tunnels }
    ensures capacity { outs.new.room ≡ outs.old.room }
    ensures few { length outs.new.items ≤ length outs.old.items + 1 }
{
    match served.hang_up(called.tunnel, &mut called.call, incoming.moment) {
        Some(step) => send_datagrams(incoming.at, called.peer, step.outs.as_slice(), outs),
        None => {}
    }
}

/// Ends a session on its way, whose link has finished.
pub fn part<S: Store>(
    served: &mut Served<S>,
    session: &mut Session,
    incoming: &Incoming<'_>,
    outs: &mut Batch<OutRecord>,
)
    requires offers { length incoming.now.rules.now.offers ≡ length incoming.now.rules.now.access }
    requires placed { IsPlaced incoming.now.rules.now session.old.way }
    requires room { length outs.old.items < outs.old.room }
    ensures told { (last : List OutRecordOf) × PartsOn session.old.way incoming.now.rules.now incoming.now.at incoming.now.moment session.old.number served.old.tunnels last served.new.tunnels × (outs.new.items ≡ outs.old.items ++ last) × (length last ≤ 1) }
    ensures session { session.new ≡ record session.old { way = parted_way session.old.way } }
    ensures others { served.new ≡ with_tunnels served.old served.new.tunnels }
    ensures capacity { outs.new.room ≡ outs.old.room }
    ensures few { length outs.new.items ≤ length outs.old.items + 1 }
{
    let number = session.number;
    match &mut session.way {
        Way::Port { port, mac } => {
            send_padt(incoming.rules, incoming.at, *port, *mac, number, outs);
        }
        Way::Call(called) => hang_up(served, called, incoming, outs),
    }
}
