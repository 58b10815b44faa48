use super::{PLAIN, SCCRP, SCCRQ, came, takes, told};
use crate::asserts::{assert_holds, assert_same};
use bng_base::TunnelNo;
use bng_lns::Tunnels;
use std::alloc::Global;
use std::process::Abort;
use std::test::Fail;

// when the SCCRP goes out again
const MOMENTS: &[u64] = &[1000, 3000, 7000, 15_000, 23_000];

// whether the tunnel at this place tells nothing at this moment
fn is_silent(lns: &mut Tunnels, at: usize, now: u64) -> bool {
    lns.remind(at, now).is_none()
}

// the datagrams that the first tunnel tells at this moment
fn reminded(alloc: Global, lns: &mut Tunnels, now: u64) -> Result<String, Fail> {
    told(alloc, lns.remind(0, now))
}

// asserts that a tunnel is due at this moment, sends the SCCRP then, and nothing a millisecond before
fn send_again(rt: &impl Abort, alloc: Global, lns: &mut Tunnels, moment: u64) -> Result<(), Fail> {
    assert_holds(rt, lns.due() == Some(moment));
    assert_holds(rt, is_silent(lns, 0, moment.saturating_sub(1)));
    let text = reminded(alloc, lns, moment)?;
    assert_same(rt, &text.as_str(), &SCCRP);
    Ok(())
}

// whether tunnel 1025 of the peer without a secret is cleared at this moment
fn is_cleared(lns: &mut Tunnels, now: u64) -> bool {
    match lns.remind(0, now) {
        Some(told) => told.step.cleared && told.number.0 == 1025 && told.peer == PLAIN,
        None => false,
    }
}

// whether no tunnel is due and there is no tunnel 1025
fn is_empty(lns: &Tunnels) -> bool {
    lns.due() == None && lns.get(TunnelNo(1025)).is_none()
}

// asserts that the tunnel is given up at the moment 31,000
fn give_up(rt: &impl Abort, lns: &mut Tunnels) {
    assert_holds(rt, is_silent(lns, 1, 31_000));
    assert_holds(rt, is_cleared(lns, 31_000));
    assert_holds(rt, is_empty(lns));
}

#[test]
fn timers_are_asked_where_a_tunnel_is_due(rt: HostRuntime) -> Result<(), Fail> {
    let mut lns = Tunnels::open(rt.alloc(), 1)?;
    assert_holds(&rt, lns.due() == None);
    takes(&rt, rt.alloc(), &mut lns, &came(PLAIN, 0), SCCRQ)?;
    for moment in MOMENTS {
        send_again(&rt, rt.alloc(), &mut lns, *moment)?;
    }
    give_up(&rt, &mut lns);
    Ok(())
}
