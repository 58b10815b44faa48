ghost use Rattle.std.specs.Prelude.{◌≡◌, ◌&&◌, not, ℕ, Bool, List, codes, if◌then◌else◌};
ghost use Rattle.bng_desk.specs.Control.{is_near, is_stats, is_stop, Answers, Heeds, Tells};
ghost use Rattle.bng_desk.specs.Report.{MayTell, stats_by};

use crate::calls::{receive, send};
use crate::flags::either;
use crate::reading::ReadEnd;
use crate::stats::{Counted, put_stats};
use bng_base::{Frame, Peer, Received, Role};
use bng_plant::Plant;

/// How many datagrams of Control a turn takes.
const CONTROL_MOST: usize = 8;

/// What the reading of Control came to.
#[derive(Clone, Copy)]
pub struct Heeding {
    pub ended: ReadEnd,
    /// A `stop` was taken.
    pub stop: bool,
    /// Nothing was taken.
    pub idle: bool,
}

// From 127.0.0.0/8.
fn is_near(from: Peer) -> bool
    ensures { (cut : Bool) (octets : List ℕ) → result ≡ is_near (record { from = from; cut = cut; octets = octets }) }
{
    from.ip.0 / 16_777_216 == 127
}

// `stop`, with or without a line end, from 127.0.0.0/8.
fn is_stop(from: Peer, cut: bool, text: &[u8]) -> bool
    ensures { result ≡ is_stop (record { from = from; cut = cut; octets = text.now }) }
{
    !cut && (from.ip.0 / 16_777_216 == 127
        && (text == b"stop".as_slice() || text == b"stop\n".as_slice()))
}

// `stats`, with or without a line end, from 127.0.0.0/8, where it is no `stop`.
fn asks_stats(stop: bool, from: Peer, cut: bool, text: &[u8]) -> bool
    ensures { result ≡ (not stop && is_stats (record { from = from; cut = cut; octets = text.now })) }
{
    !stop
        && (!cut
            && (from.ip.0 / 16_777_216 == 127
                && (text == b"stats".as_slice() || text == b"stats\n".as_slice())))
}

// Tells what the desk counted. The text stands in this call's frame alone: a call that is not asked for it prepares no room.
fn tell_stats<P: Plant>(plant: &mut P, to: Peer, counted: &Counted<'_>)
    requires may { MayTell counted.now.shards.now counted.now.accounts.now.stopped counted.now.profiles.now }
    ensures { Tells (stats_by counted.now.shards.now counted.now.accounts.now.stopped counted.now.tally counted.now.drops.now counted.now.profiles.now) to (P.told plant.old) (P.told plant.new) }
{
    let mut frame = Frame::new();
    put_stats(&mut frame, counted);
    let _sent = send(plant, Role::Control, to, frame.payload());
}

fn reply_to(stop: bool) -> &'static [u8]
    ensures { result.now ≡ (if stop then codes "stopping\n" else codes "unknown\n") }
{
    if stop { b"stopping\n" } else { b"unknown\n" }
}

// Answers a datagram from 127.0.0.0/8, and says whether it is a `stop`.
fn answer<P: Plant>(
    plant: &mut P,
    from: Peer,
    cut: bool,
    text: &[u8],
    counted: &Counted<'_>,
) -> bool
    requires may { MayTell counted.now.shards.now counted.now.accounts.now.stopped counted.now.profiles.now }
    ensures { Answers (stats_by counted.now.shards.now counted.now.accounts.now.stopped counted.now.tally counted.now.drops.now counted.now.profiles.now) (P.told plant.old) (P.told plant.new) (record { from = from; cut = cut; octets = text.now }) result }
{
    let stop = is_stop(from, cut, text);
    if !is_near(from) {
        return stop;
    }
    if asks_stats(stop, from, cut, text) {
        tell_stats(plant, from, counted);
        return stop;
    }
    let _sent = send(plant, Role::Control, from, reply_to(stop));
    stop
}

/// Takes datagrams of Control until Empty, Failed or the number of a turn, and answers each from 127.0.0.0/8 as it is taken: `stop` by
/// `stopping`, `stats` by what the desk has counted, and all else by `unknown`.
pub(crate) fn heed<P: Plant>(plant: &mut P, frame: &mut Frame, counted: &Counted<'_>) -> Heeding
    requires may { MayTell counted.now.shards.now counted.now.accounts.now.stopped counted.now.profiles.now }
    ensures { Heeds (stats_by counted.now.shards.now counted.now.accounts.now.stopped counted.now.tally counted.now.drops.now counted.now.profiles.now) (P.told plant.old) (P.told plant.new) result }
{
    let mut stop = false;
    let mut idle = true;
    for _taken in 0..CONTROL_MOST {
        match receive(plant, Role::Control, frame) {
            Received::Got { from, cut } => {
                let stops = answer(plant, from, cut, frame.payload(), counted);
                stop = either(stop, stops);
                idle = false;
            }
            Received::Empty => {
                return Heeding {
                    ended: ReadEnd::Dry,
                    stop,
                    idle,
                };
            }
            Received::Failed => {
                return Heeding {
                    ended: ReadEnd::Broken,
                    stop,
                    idle,
                };
            }
        }
    }
    Heeding {
        ended: ReadEnd::Full,
        stop,
        idle,
    }
}
