//! What the tunnels of a shard tell their peers by themselves, one after another (RFC 2661 sections 5.5, 5.8 and 6.4).
ghost use Rattle.std.specs.Prelude.{◌≡◌, ◌+◌, ◌<◌, ◌≤◌, ◌++◌, length};
ghost use Rattle.bng_l2tp_wire.specs.View.{payloads};
ghost use Rattle.bng_lns.specs.Timed.{stopped};
ghost use Rattle.bng_steps.specs.declared.rules.Rules.{Rules as RulesOf};
ghost use Rattle.bng_steps.specs.Deed.{tunnel_outs};
ghost use Rattle.bng_steps.specs.Placed.{ArePlaced};
ghost use Rattle.bng_steps.specs.TermRows.{whole, KeepSums};
ghost use Rattle.bng_steps.specs.State.{with_tunnels};
ghost use Rattle.bng_steps.specs.Timed.{RemindedAt, RemindedInTurn, ToldInTurn, ToldOnce};

use crate::cutting::cut_if;
use crate::sending::push_out;
use crate::served::Served;
use crate::store::Store;
use crate::terms::Terms;
use bng_base::{At, Batch, Frame, OutRecord, Peer, Role};
use bng_lns::TUNNELS_MOST;

/// Appends datagrams to the peer of a tunnel.
pub fn send_datagrams(at: At, to: Peer, frames: &[Frame], outs: &mut Batch<OutRecord>)
    requires room { length outs.old.items + length frames.now ≤ outs.old.room }
    ensures items { outs.new.items ≡ outs.old.items ++ tunnel_outs at to (payloads frames.now) }
    ensures capacity { outs.new.room ≡ outs.old.room }
    ensures few { length outs.new.items ≤ length outs.old.items + length frames.now }
{
    for frame in frames {
        push_out(outs, at, Role::Tunnel, to, frame, None);
    }
}

// The timers of the tunnel at this place do what they ask for. Where that clears it, its calls have ended.
#[inline(never)]
fn remind_one<S: Store>(
    served: &mut Served<S>,
    terms: &mut Terms,
    at: At,
    place: usize,
    now: u64,
    outs: &mut Batch<OutRecord>,
)
    requires room { length outs.old.items + 8 ≤ outs.old.room }
    ensures reminded { RemindedAt place at now (whole served.old terms.old) (whole served.new terms.new) outs.old.items outs.new.items }
    ensures sums { KeepSums terms.old terms.new }
    ensures shard { served.new.sessions.shard ≡ served.old.sessions.shard }
    ensures placed { (r : RulesOf) → ArePlaced r served.old.sessions → ArePlaced r served.new.sessions }
    ensures capacity { outs.new.room ≡ outs.old.room }
    ensures few { length outs.new.items ≤ length outs.old.items + 8 }
{
    match served.remind_tunnel(place, now) {
        Some(told) => {
            send_datagrams(at, told.peer, told.step.outs.as_slice(), outs);
            cut_if(served, terms, told.step.cleared, told.number);
        }
        None => {}
    }
}

/// The timers of each tunnel do what they ask for, by rising number.
pub fn remind_tunnels<S: Store>(
    served: &mut Served<S>,
    terms: &mut Terms,
    at: At,
    now: u64,
    outs: &mut Batch<OutRecord>,
)
    requires room { length outs.old.items + 128 ≤ outs.old.room }
    ensures reminded { RemindedInTurn at now (whole served.old terms.old) (whole served.new terms.new) outs.old.items outs.new.items }
    ensures sums { KeepSums terms.old terms.new }
    ensures shard { served.new.sessions.shard ≡ served.old.sessions.shard }
    ensures placed { (r : RulesOf) → ArePlaced r served.old.sessions → ArePlaced r served.new.sessions }
    ensures capacity { outs.new.room ≡ outs.old.room }
    ensures few { length outs.new.items ≤ length outs.old.items + 128 }
{
    for place in 0..TUNNELS_MOST {
        remind_one(served, terms, at, place, now, outs);
    }
}

// The tunnel at this place tells its peer that the gateway shuts down.
#[inline(never)]
fn stop_one<S: Store>(
    served: &mut Served<S>,
    at: At,
    place: usize,
    now: u64,
    outs: &mut Batch<OutRecord>,
)
    requires room { length outs.old.items < outs.old.room }
    ensures told { ToldOnce at (stopped now served.old.tunnels place) served.new.tunnels outs.old.items outs.new.items }
    ensures others { served.new ≡ with_tunnels served.old served.new.tunnels }
    ensures capacity { outs.new.room ≡ outs.old.room }
    ensures few { length outs.new.items ≤ length outs.old.items + 1 }
{
    match served.stop_tunnel(place, now) {
        Some(told) => send_datagrams(at, told.peer, told.step.outs.as_slice(), outs),
        None => {}
    }
}

/// Each tunnel that stands tells its peer that the gateway shuts down, by rising number.
pub fn stop_tunnels<S: Store>(served: &mut Served<S>, at: At, now: u64, outs: &mut Batch<OutRecord>)
    requires room { length outs.old.items + 16 ≤ outs.old.room }
    ensures told { ToldInTurn stopped at now served.old.tunnels served.new.tunnels outs.old.items outs.new.items }
    ensures others { served.new ≡ with_tunnels served.old served.new.tunnels }
    ensures capacity { outs.new.room ≡ outs.old.room }
    ensures few { length outs.new.items ≤ length outs.old.items + 16 }
{
    for place in 0..TUNNELS_MOST {
        stop_one(served, at, place, now, outs);
    }
}
