ghost use Rattle.std.specs.Prelude.{◌<◌};

use crate::asserts::assert_same;
use bng_automaton::{Action, Automaton, Event, State};
use std::alloc::{AllocError, Global};
use std::process::Abort;
use std::test::Fail;

// The table of RFC 1661 section 4.1 as the standard prints it, from state 0 to state 9, without its notes r, p and x.
const TABLE: &[(Event, &str)] = &[
    (Event::Up, "2 irc,scr/6 - - - - - - - -"),
    (Event::Down, "- - 0 tls/1 0 1 1 1 1 tld/1"),
    (Event::Open, "tls/1 1 irc,scr/6 3 5 5 6 7 8 9"),
    (
        Event::Close,
        "0 tlf/0 2 2 4 4 irc,str/4 irc,str/4 irc,str/4 tld,irc,str/4",
    ),
    (Event::ToPlus, "- - - - str/4 str/5 scr/6 scr/6 scr/8 -"),
    (Event::ToMinus, "- - - - tlf/2 tlf/3 tlf/3 tlf/3 tlf/3 -"),
    (
        Event::RcrPlus,
        "- - sta/2 irc,scr,sca/8 4 5 sca/8 sca,tlu/9 sca/8 tld,scr,sca/8",
    ),
    (
        Event::RcrMinus,
        "- - sta/2 irc,scr,scn/6 4 5 scn/6 scn/7 scn/6 tld,scr,scn/6",
    ),
    (
        Event::Rca,
        "- - sta/2 sta/3 4 5 irc/7 scr/6 irc,tlu/9 tld,scr/6",
    ),
    (
        Event::Rcn,
        "- - sta/2 sta/3 4 5 irc,scr/6 scr/6 irc,scr/8 tld,scr/6",
    ),
    (
        Event::Rtr,
        "- - sta/2 sta/3 sta/4 sta/5 sta/6 sta/6 sta/6 tld,zrc,sta/5",
    ),
    (Event::Rta, "- - 2 3 tlf/2 tlf/3 6 6 8 tld,scr/6"),
    (
        Event::Ruc,
        "- - scj/2 scj/3 scj/4 scj/5 scj/6 scj/7 scj/8 scj/9",
    ),
    (Event::RxjPlus, "- - 2 3 4 5 6 6 8 9"),
    (
        Event::RxjMinus,
        "- - tlf/2 tlf/3 tlf/2 tlf/3 tlf/3 tlf/3 tlf/3 tld,irc,str/5",
    ),
    (Event::Rxr, "- - 2 3 4 5 6 7 8 ser/9"),
];

// Events that lead a new automaton to state 9, Opened.
const WAY_TO_OPENED: &[Event] = &[Event::Up, Event::Open, Event::RcrPlus, Event::Rca];

// Events that lead a new automaton to each state.
const WAYS: &[&[Event]] = &[
    &[],
    &[Event::Open],
    &[Event::Up],
    &[Event::Up, Event::Open, Event::ToMinus],
    &[Event::Up, Event::Open, Event::Close],
    &[
        Event::Up,
        Event::Open,
        Event::RcrPlus,
        Event::Rca,
        Event::Rtr,
    ],
    &[Event::Up, Event::Open],
    &[Event::Up, Event::Open, Event::Rca],
    &[Event::Up, Event::Open, Event::RcrPlus],
    WAY_TO_OPENED,
];

fn name(action: Action) -> &'static str {
    match action {
        Action::Tlu => "tlu",
        Action::Tld => "tld",
        Action::Tls => "tls",
        Action::Tlf => "tlf",
        Action::Irc => "irc",
        Action::Zrc => "zrc",
        Action::Scr => "scr",
        Action::Sca => "sca",
        Action::Scn => "scn",
        Action::Str => "str",
        Action::Sta => "sta",
        Action::Scj => "scj",
        Action::Ser => "ser",
    }
}

// Appends an action, after a comma where it is not the first.
fn push_action(text: &mut String, place: usize, action: Action) -> Result<(), AllocError> {
    text.push_str(if place == 0 { "" } else { "," })?;
    text.push_str(name(action))
}

// A cell as the standard prints it.
fn printed(alloc: Global, actions: &[Action], next: State) -> Result<String, AllocError> {
    let mut text = String::new(alloc);
    for (place, action) in actions.iter().enumerate() {
        push_action(&mut text, place, *action)?;
    }
    let slash = if actions.is_empty() { "" } else { "/" };
    let number = next as u8;
    format!(in alloc; "{text}{slash}{number}")
}

fn after(events: &[Event]) -> Automaton {
    let mut automaton = Automaton::new(10, 2, 5);
    for event in events {
        let _actions = automaton.step(*event, 0);
    }
    automaton
}

fn cell_after(alloc: Global, way: &[Event], event: Event) -> Result<String, AllocError> {
    let mut automaton = after(way);
    let actions = automaton.step(event, 0);
    printed(alloc, actions.as_slice(), automaton.state())
}

// The test fails where these cells differ: it tells the event and the way too.
fn assert_text(rt: &impl Abort, event: Event, way: &[Event], found: &str, wanted: &str) {
    assert_eq!(rt; found, wanted, "{event:?} after {way:?}");
}

// Asserts that an event after these events does what this cell has.
fn assert_cell(
    rt: &impl Abort,
    alloc: Global,
    event: Event,
    way: &[Event],
    cell: &str,
) -> Result<(), AllocError> {
    let text = cell_after(alloc, way, event)?;
    // A dash has no action and keeps the state.
    let dash = printed(alloc, &[], after(way).state())?;
    let want = if cell == "-" { dash.as_str() } else { cell };
    assert_text(rt, event, way, text.as_str(), want);
    Ok(())
}

// Asserts that an event does in each state what this row has.
fn assert_row(rt: &impl Abort, alloc: Global, event: Event, row: &str) -> Result<(), AllocError> {
    let mut cells = row.split(' ');
    for way in WAYS {
        let cell = cells.next().unwrap_or("missing");
        assert_cell(rt, alloc, event, way, cell)?;
    }
    Ok(())
}

#[test]
fn every_cell_is_the_standards(rt: HostRuntime) -> Result<(), Fail> {
    for (event, row) in TABLE {
        assert_row(&rt, rt.alloc(), *event, row)?;
    }
    Ok(())
}

// How often the timer sends again, every 3 s from `moment` on, before it gives up.
fn timeouts(automaton: &mut Automaton, moment: u64) -> u64
    requires { moment < 1000000 }
{
    for again in 1..20 {
        if automaton.due(moment + 3000 * again) != Some(Event::ToPlus) {
            return again - 1;
        }
        let _actions = automaton.step(Event::ToPlus, moment + 3000 * again);
    }
    20
}

// Nine more Configure-Requests go unanswered, and then it is to give up.
fn give_up_opening(rt: &impl Abort, automaton: &mut Automaton) {
    assert_same(rt, &timeouts(automaton, 0), &9);
    assert_same(rt, &automaton.due(29_999), &None);
    assert_same(rt, &automaton.due(30_000), &Some(Event::ToMinus));
}

// It is closed: one more Terminate-Request goes unanswered, and then it is to give up.
fn give_up_closing(rt: &impl Abort, automaton: &mut Automaton) {
    let _close = automaton.step(Event::Close, 40_000);
    assert_same(rt, &timeouts(automaton, 40_000), &1);
    assert_same(rt, &automaton.due(46_000), &Some(Event::ToMinus));
}

// It gives up, and no timer runs any longer.
fn come_to_closed(rt: &impl Abort, automaton: &mut Automaton) {
    let _end = automaton.step(Event::ToMinus, 46_000);
    assert_same(rt, &automaton.state(), &State::Closed);
    assert_same(rt, &automaton.deadline(), &None);
}

#[test]
fn ten_configure_and_two_terminate_requests_go_unanswered(rt: HostRuntime) {
    let mut automaton = after(&[Event::Up, Event::Open]);
    give_up_opening(&rt, &mut automaton);
    give_up_closing(&rt, &mut automaton);
    come_to_closed(&rt, &mut automaton);
}

#[test]
fn a_nak_begins_the_count_anew(rt: HostRuntime) {
    let mut automaton = after(&[Event::Up, Event::Open]);
    assert_same(&rt, &timeouts(&mut automaton, 0), &9);
    let _nak = automaton.step(Event::Rcn, 50_000);
    assert_same(&rt, &timeouts(&mut automaton, 50_000), &9);
}

// The test fails where these moments differ: it tells the state too.
fn assert_deadline(rt: &impl Abort, number: usize, found: Option<u64>, wanted: Option<u64>) {
    assert_eq!(rt; found, wanted, "in state {number}");
}

// Asserts that these events lead to the state with this number, and that the timer runs there if it is one of 4 to 8.
fn assert_timer(rt: &impl Abort, number: usize, way: &[Event]) {
    let automaton = after(way);
    let runs = 4 <= number && number <= 8;
    assert_same(rt, &(automaton.state() as usize), &number);
    let wanted = if runs { Some(3000) } else { None };
    assert_deadline(rt, number, automaton.deadline(), wanted);
}

#[test]
fn the_timer_runs_in_states_4_to_8_alone(rt: HostRuntime) {
    for (number, way) in WAYS.iter().enumerate() {
        assert_timer(&rt, number, way);
    }
}

#[test]
fn a_terminated_link_waits_one_timer(rt: HostRuntime) {
    let mut automaton = after(WAY_TO_OPENED);
    let _ended = automaton.step(Event::Rtr, 7000);
    assert_same(&rt, &automaton.due(9999), &None);
    assert_same(&rt, &automaton.due(10_000), &Some(Event::ToMinus));
    assert_same(&rt, &automaton.max_failure(), &5);
}
