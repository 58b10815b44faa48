//! The transition table of RFC 1661 section 4.1: a function for each event, and an arm for each state.
ghost use Rattle.std.specs.Prelude.{◌≡◌, ◌≤◌, Some, slice_get, Contains, length};
ghost use Rattle.bng_automaton.specs.Table.{row, rows, table, column};

use crate::action::Action::{
    self, Irc, Sca, Scj, Scn, Scr, Ser, Sta, Str, Tld, Tlf, Tls, Tlu, Zrc,
};
use crate::event::Event;
use crate::state::State::{
    self, AckRcvd, AckSent, Closed, Closing, Initial, Opened, ReqSent, Starting, Stopped, Stopping,
};

/// What is done, in order, and the state after it.
type Cell = (&'static [Action], State);

/// The cell of a state and an event.
pub fn cell(state: State, event: Event) -> Cell
    ensures transition { Contains table (row state event result.0.now result.1) }
    ensures few { length result.0.now ≤ 3 }
{
    cell_in_rows(state, event)
}

fn cell_in_rows(state: State, event: Event) -> Cell
    ensures cell { slice_get (rows event) (column state) ≡ Some (row state event result.0.now result.1) }
    ensures few { length result.0.now ≤ 3 }
{
    match event {
        Event::Up => on_up(state),
        Event::Down => on_down(state),
        Event::Open => on_open(state),
        Event::Close => on_close(state),
        Event::ToPlus => on_to_plus(state),
        Event::ToMinus => on_to_minus(state),
        Event::RcrPlus => on_rcr_plus(state),
        Event::RcrMinus => on_rcr_minus(state),
        Event::Rca => on_rca(state),
        Event::Rcn => on_rcn(state),
        Event::Rtr => on_rtr(state),
        Event::Rta => on_rta(state),
        Event::Ruc => on_ruc(state),
        Event::RxjPlus => on_rxj_plus(state),
        Event::RxjMinus => on_rxj_minus(state),
        Event::Rxr => on_rxr(state),
    }
}

fn on_up(state: State) -> Cell
    ensures cell { slice_get (rows Event.Up) (column state) ≡ Some (row state Event.Up result.0.now result.1) }
    ensures few { length result.0.now ≤ 3 }
{
    match state {
        Initial => (&[], Closed),
        Starting => (&[Irc, Scr], ReqSent),
        Closed => (&[], Closed),
        Stopped => (&[], Stopped),
        Closing => (&[], Closing),
        Stopping => (&[], Stopping),
        ReqSent => (&[], ReqSent),
        AckRcvd => (&[], AckRcvd),
        AckSent => (&[], AckSent),
        Opened => (&[], Opened),
    }
}

fn on_down(state: State) -> Cell
    ensures cell { slice_get (rows Event.Down) (column state) ≡ Some (row state Event.Down result.0.now result.1) }
    ensures few { length result.0.now ≤ 3 }
{
    match state {
        Initial => (&[], Initial),
        Starting => (&[], Starting),
        Closed => (&[], Initial),
        Stopped => (&[Tls], Starting),
        Closing => (&[], Initial),
        Stopping => (&[], Starting),
        ReqSent => (&[], Starting),
        AckRcvd => (&[], Starting),
        AckSent => (&[], Starting),
        Opened => (&[Tld], Starting),
    }
}

fn on_open(state: State) -> Cell
    ensures cell { slice_get (rows Event.Open) (column state) ≡ Some (row state Event.Open result.0.now result.1) }
    ensures few { length result.0.now ≤ 3 }
{
    match state {
        Initial => (&[Tls], Starting),
        Starting => (&[], Starting),
        Closed => (&[Irc, Scr], ReqSent),
        Stopped => (&[], Stopped),
        Closing => (&[], Stopping),
        Stopping => (&[], Stopping),
        ReqSent => (&[], ReqSent),
        AckRcvd => (&[], AckRcvd),
        AckSent => (&[], AckSent),
        Opened => (&[], Opened),
    }
}

fn on_close(state: State) -> Cell
    ensures cell { slice_get (rows Event.Close) (column state) ≡ Some (row state Event.Close result.0.now result.1) }
    ensures few { length result.0.now ≤ 3 }
{
    match state {
        Initial => (&[], Initial),
        Starting => (&[Tlf], Initial),
        Closed => (&[], Closed),
        Stopped => (&[], Closed),
        Closing => (&[], Closing),
        Stopping => (&[], Closing),
        ReqSent => (&[Irc, Str], Closing),
        AckRcvd => (&[Irc, Str], Closing),
        AckSent => (&[Irc, Str], Closing),
        Opened => (&[Tld, Irc, Str], Closing),
    }
}

fn on_to_plus(state: State) -> Cell
    ensures cell { slice_get (rows Event.ToPlus) (column state) ≡ Some (row state Event.ToPlus result.0.now result.1) }
    ensures few { length result.0.now ≤ 3 }
{
    match state {
        Initial => (&[], Initial),
        Starting => (&[], Starting),
        Closed => (&[], Closed),
        Stopped => (&[], Stopped),
        Closing => (&[Str], Closing),
        Stopping => (&[Str], Stopping),
        ReqSent => (&[Scr], ReqSent),
        AckRcvd => (&[Scr], ReqSent),
        AckSent => (&[Scr], AckSent),
        Opened => (&[], Opened),
    }
}

fn on_to_minus(state: State) -> Cell
    ensures cell { slice_get (rows Event.ToMinus) (column state) ≡ Some (row state Event.ToMinus result.0.now result.1) }
    ensures few { length result.0.now ≤ 3 }
{
    match state {
        Initial => (&[], Initial),
        Starting => (&[], Starting),
        Closed => (&[], Closed),
        Stopped => (&[], Stopped),
        Closing => (&[Tlf], Closed),
        Stopping => (&[Tlf], Stopped),
        ReqSent => (&[Tlf], Stopped),
        AckRcvd => (&[Tlf], Stopped),
        AckSent => (&[Tlf], Stopped),
        Opened => (&[], Opened),
    }
}

fn on_rcr_plus(state: State) -> Cell
    ensures cell { slice_get (rows Event.RcrPlus) (column state) ≡ Some (row state Event.RcrPlus result.0.now result.1) }
    ensures few { length result.0.now ≤ 3 }
{
    match state {
        Initial => (&[], Initial),
        Starting => (&[], Starting),
        Closed => (&[Sta], Closed),
        Stopped => (&[Irc, Scr, Sca], AckSent),
        Closing => (&[], Closing),
        Stopping => (&[], Stopping),
        ReqSent => (&[Sca], AckSent),
        AckRcvd => (&[Sca, Tlu], Opened),
        AckSent => (&[Sca], AckSent),
        Opened => (&[Tld, Scr, Sca], AckSent),
    }
}

fn on_rcr_minus(state: State) -> Cell
    ensures cell { slice_get (rows Event.RcrMinus) (column state) ≡ Some (row state Event.RcrMinus result.0.now result.1) }
    ensures few { length result.0.now ≤ 3 }
{
    match state {
        Initial => (&[], Initial),
        Starting => (&[], Starting),
        Closed => (&[Sta], Closed),
        Stopped => (&[Irc, Scr, Scn], ReqSent),
        Closing => (&[], Closing),
        Stopping => (&[], Stopping),
        ReqSent => (&[Scn], ReqSent),
        AckRcvd => (&[Scn], AckRcvd),
        AckSent => (&[Scn], ReqSent),
        Opened => (&[Tld, Scr, Scn], ReqSent),
    }
}

fn on_rca(state: State) -> Cell
    ensures cell { slice_get (rows Event.Rca) (column state) ≡ Some (row state Event.Rca result.0.now result.1) }
    ensures few { length result.0.now ≤ 3 }
{
    match state {
        Initial => (&[], Initial),
        Starting => (&[], Starting),
        Closed => (&[Sta], Closed),
        Stopped => (&[Sta], Stopped),
        Closing => (&[], Closing),
        Stopping => (&[], Stopping),
        ReqSent => (&[Irc], AckRcvd),
        AckRcvd => (&[Scr], ReqSent),
        AckSent => (&[Irc, Tlu], Opened),
        Opened => (&[Tld, Scr], ReqSent),
    }
}

fn on_rcn(state: State) -> Cell
    ensures cell { slice_get (rows Event.Rcn) (column state) ≡ Some (row state Event.Rcn result.0.now result.1) }
    ensures few { length result.0.now ≤ 3 }
{
    match state {
        Initial => (&[], Initial),
        Starting => (&[], Starting),
        Closed => (&[Sta], Closed),
        Stopped => (&[Sta], Stopped),
        Closing => (&[], Closing),
        Stopping => (&[], Stopping),
        ReqSent => (&[Irc, Scr], ReqSent),
        AckRcvd => (&[Scr], ReqSent),
        AckSent => (&[Irc, Scr], AckSent),
        Opened => (&[Tld, Scr], ReqSent),
    }
}

fn on_rtr(state: State) -> Cell
    ensures cell { slice_get (rows Event.Rtr) (column state) ≡ Some (row state Event.Rtr result.0.now result.1) }
    ensures few { length result.0.now ≤ 3 }
{
    match state {
        Initial => (&[], Initial),
        Starting => (&[], Starting),
        Closed => (&[Sta], Closed),
        Stopped => (&[Sta], Stopped),
        Closing => (&[Sta], Closing),
        Stopping => (&[Sta], Stopping),
        ReqSent => (&[Sta], ReqSent),
        AckRcvd => (&[Sta], ReqSent),
        AckSent => (&[Sta], ReqSent),
        Opened => (&[Tld, Zrc, Sta], Stopping),
    }
}

fn on_rta(state: State) -> Cell
    ensures cell { slice_get (rows Event.Rta) (column state) ≡ Some (row state Event.Rta result.0.now result.1) }
    ensures few { length result.0.now ≤ 3 }
{
    match state {
        Initial => (&[], Initial),
        Starting => (&[], Starting),
        Closed => (&[], Closed),
        Stopped => (&[], Stopped),
        Closing => (&[Tlf], Closed),
        Stopping => (&[Tlf], Stopped),
        ReqSent => (&[], ReqSent),
        AckRcvd => (&[], ReqSent),
        AckSent => (&[], AckSent),
        Opened => (&[Tld, Scr], ReqSent),
    }
}

fn on_ruc(state: State) -> Cell
    ensures cell { slice_get (rows Event.Ruc) (column state) ≡ Some (row state Event.Ruc result.0.now result.1) }
    ensures few { length result.0.now ≤ 3 }
{
    match state {
        Initial => (&[], Initial),
        Starting => (&[], Starting),
        Closed => (&[Scj], Closed),
        Stopped => (&[Scj], Stopped),
        Closing => (&[Scj], Closing),
        Stopping => (&[Scj], Stopping),
        ReqSent => (&[Scj], ReqSent),
        AckRcvd => (&[Scj], AckRcvd),
        AckSent => (&[Scj], AckSent),
        Opened => (&[Scj], Opened),
    }
}

fn on_rxj_plus(state: State) -> Cell
    ensures cell { slice_get (rows Event.RxjPlus) (column state) ≡ Some (row state Event.RxjPlus result.0.now result.1) }
    ensures few { length result.0.now ≤ 3 }
{
    match state {
        Initial => (&[], Initial),
        Starting => (&[], Starting),
        Closed => (&[], Closed),
        Stopped => (&[], Stopped),
        Closing => (&[], Closing),
        Stopping => (&[], Stopping),
        ReqSent => (&[], ReqSent),
        AckRcvd => (&[], ReqSent),
        AckSent => (&[], AckSent),
        Opened => (&[], Opened),
    }
}

fn on_rxj_minus(state: State) -> Cell
    ensures cell { slice_get (rows Event.RxjMinus) (column state) ≡ Some (row state Event.RxjMinus result.0.now result.1) }
    ensures few { length result.0.now ≤ 3 }
{
    match state {
        Initial => (&[], Initial),
        Starting => (&[], Starting),
        Closed => (&[Tlf], Closed),
        Stopped => (&[Tlf], Stopped),
        Closing => (&[Tlf], Closed),
        Stopping => (&[Tlf], Stopped),
        ReqSent => (&[Tlf], Stopped),
        AckRcvd => (&[Tlf], Stopped),
        AckSent => (&[Tlf], Stopped),
        Opened => (&[Tld, Irc, Str], Stopping),
    }
}

fn on_rxr(state: State) -> Cell
    ensures cell { slice_get (rows Event.Rxr) (column state) ≡ Some (row state Event.Rxr result.0.now result.1) }
    ensures few { length result.0.now ≤ 3 }
{
    match state {
        Initial => (&[], Initial),
        Starting => (&[], Starting),
        Closed => (&[], Closed),
        Stopped => (&[], Stopped),
        Closing => (&[], Closing),
        Stopping => (&[], Stopping),
        ReqSent => (&[], ReqSent),
        AckRcvd => (&[], AckRcvd),
        AckSent => (&[], AckSent),
        Opened => (&[Ser], Opened),
    }
}
