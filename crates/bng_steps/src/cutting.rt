//! What a tunnel that was cleared leaves: each of its calls has ended (RFC 2661 section 6.4).
ghost use Rattle.std.specs.Prelude.{◌≡◌, ◌==◌, ◌&&◌, not};
ghost use Rattle.bng_steps.specs.declared.rules.Rules.{Rules as RulesOf};
ghost use Rattle.bng_steps.specs.Cutting.{cut_at, cut_if as cut_where, cut_off as cut_all, Clears};
ghost use Rattle.bng_steps.specs.Placed.{ArePlaced};
ghost use Rattle.bng_steps.specs.TermRows.{whole, KeepSums};

use crate::served::{NUMBERS, SPAN, Served};
use crate::store::Store;
use crate::terms::Terms;
use bng_base::{SessionNo, TunnelNo};

/// The cause of an end by the peer of a call, or with its tunnel (RFC 2866 section 5.10, Lost Carrier).
pub const LOST_CARRIER: u8 = 2;

// The session with this number has ended, where it is a call of this tunnel.
fn cut_one<S: Store>(served: &mut Served<S>, terms: &mut Terms, number: SessionNo, tunnel: TunnelNo)
    ensures cut { whole served.new terms.new ≡ cut_at tunnel.0 (whole served.old terms.old) number.0 }
    ensures sums { KeepSums terms.old terms.new }
    ensures shard { served.new.sessions.shard ≡ served.old.sessions.shard }
    ensures placed { (r : RulesOf) → ArePlaced r served.old.sessions → ArePlaced r served.new.sessions }
{
    if !served.is_cut(number, tunnel) {
        return;
    }
    let mut session = served.take(number);
    terms.close(session.lease(), Some(LOST_CARRIER));
    session.end();
    served.put(session);
}

// So have all calls of the tunnel, and nothing else changed.
fn cut_off<S: Store>(served: &mut Served<S>, terms: &mut Terms, tunnel: TunnelNo)
    ensures cut { whole served.new terms.new ≡ cut_all tunnel.0 (whole served.old terms.old) }
    ensures clears { Clears tunnel.0 (whole served.old terms.old) (whole served.new terms.new) }
    ensures sums { KeepSums terms.old terms.new }
    ensures shard { served.new.sessions.shard ≡ served.old.sessions.shard }
    ensures placed { (r : RulesOf) → ArePlaced r served.old.sessions → ArePlaced r served.new.sessions }
{
    let first = served.shard() * SPAN + 1;
    for n in first..first + NUMBERS {
        cut_one(served, terms, SessionNo(n), tunnel);
    }
}

// Whether what was said is the last of a tunnel. 0 is no tunnel's number.
fn is_last(cleared: bool, tunnel: TunnelNo) -> bool
    ensures { result ≡ (cleared && not (tunnel.0 == 0)) }
{
    cleared && tunnel.0 != 0
}

/// Where the tunnel with this number was cleared, its calls have ended, and their live terms by Lost Carrier. 0 is no tunnel's number.
pub fn cut_if<S: Store>(served: &mut Served<S>, terms: &mut Terms, cleared: bool, tunnel: TunnelNo)
    ensures cut { whole served.new terms.new ≡ cut_where cleared tunnel.0 (whole served.old terms.old) }
    ensures sums { KeepSums terms.old terms.new }
    ensures shard { served.new.sessions.shard ≡ served.old.sessions.shard }
    ensures placed { (r : RulesOf) → ArePlaced r served.old.sessions → ArePlaced r served.new.sessions }
{
    if !is_last(cleared, tunnel) {
        return;
    }
    cut_off(served, terms, tunnel);
}
