//! What Control is told where it asks for `stats`: the report without its lines of circuits. It is written into a frame, and takes no
//! memory.
ghost use Rattle.std.specs.Prelude.{◌≡◌, ◌+◌, ◌*◌, ◌<◌, ◌≤◌, ◌++◌, ◌∷◌, [], length, map};
ghost use Rattle.std.specs.Fmt.{decimal};
ghost use Rattle.std.specs.List.{All, range_with_len};
ghost use Rattle.bng_desk.specs.Causes.{causes, name_at};
ghost use Rattle.bng_desk.specs.Model.{traffic_under};
ghost use Rattle.bng_desk.specs.Report.{MayTell, drop_line, drop_lines, profile_line, profile_lines, quantities, stats_by, traffic_line, worker_lines};

use crate::accounts::Accounts;
use crate::drops::{CAUSES, Drops, name_of};
use crate::report::octets_of;
use crate::sums::{live, plus_book, sent_under};
use arrayvec::ArrayVec;
use bng_base::{Book, Frame, Profile};
use bng_shard::Shard;
use bng_steps::Traffic;
use itoa::Buffer;

/// What a desk has counted, as its parts have it: the shards, what the Stops say, what was passed, the drops, and the profiles.
#[derive(Clone, Copy)]
pub(crate) struct Counted<'a> {
    pub(crate) shards: &'a [Shard],
    pub(crate) accounts: &'a Accounts,
    pub(crate) tally: Book,
    pub(crate) drops: &'a Drops,
    pub(crate) profiles: &'a [Profile],
}

// Appends a number.
fn put_number(text: &mut Frame, number: u128)
    requires room { text.old.headroom + length text.old.payload + 40 ≤ 4160 }
    ensures text { text.new.payload ≡ text.old.payload ++ decimal number }
    ensures few { length text.new.payload ≤ length text.old.payload + 40 }
    ensures headroom { text.new.headroom ≡ text.old.headroom }
{
    text.put_back(Buffer::new().format(number).as_bytes());
}

// Appends octets in and out, and the end of the line.
fn put_quantities(text: &mut Frame, input: u128, output: u128)
    requires room { text.old.headroom + length text.old.payload + 90 ≤ 4160 }
    ensures text { text.new.payload ≡ text.old.payload ++ quantities input output }
    ensures few { length text.new.payload ≤ length text.old.payload + 90 }
    ensures headroom { text.new.headroom ≡ text.old.headroom }
{
    text.put_back(b" in=");
    put_number(text, input);
    text.put_back(b" out=");
    put_number(text, output);
    text.put_back(b"\n");
}

// Appends a line of this name.
fn put_traffic(text: &mut Frame, name: &[u8], carried: Traffic)
    requires name { length name.now ≤ 10 }
    requires room { text.old.headroom + length text.old.payload + 100 ≤ 4160 }
    ensures text { text.new.payload ≡ text.old.payload ++ traffic_line name.now carried }
    ensures few { length text.new.payload ≤ length text.old.payload + 100 }
    ensures headroom { text.new.headroom ≡ text.old.headroom }
{
    text.put_back(name);
    put_quantities(text, u128::from(carried.input), u128::from(carried.output));
}

// Appends the line of the one worker.
fn put_worker(text: &mut Frame, carried: Traffic)
    requires room { text.old.headroom + length text.old.payload + 140 ≤ 4160 }
    ensures text { text.new.payload ≡ text.old.payload ++ worker_lines 0 (carried ∷ []) }
    ensures few { length text.new.payload ≤ length text.old.payload + 140 }
    ensures headroom { text.new.headroom ≡ text.old.headroom }
{
    text.put_back(b"worker ");
    put_number(text, 0);
    put_quantities(text, u128::from(carried.input), u128::from(carried.output));
}

// Appends the line of a profile.
fn put_profile(text: &mut Frame, name: &ArrayVec<u8, 32>, input: u128, output: u128)
    requires room { text.old.headroom + length text.old.payload + 130 ≤ 4160 }
    ensures text { text.new.payload ≡ text.old.payload ++ profile_line name.now.items (record { input = input; output = output }) }
    ensures few { length text.new.payload ≤ length text.old.payload + 130 }
    ensures headroom { text.new.headroom ≡ text.old.headroom }
{
    text.put_back(b"profile ");
    text.put_back(name.as_slice());
    put_quantities(text, input, output);
}

// Appends a line for each profile.
fn put_profiles(text: &mut Frame, profiles: &[Profile], shards: &[Shard])
    requires few_profiles { length profiles.now ≤ 16 }
    requires few_shards { length shards.now ≤ 64 }
    requires books { All (λ v. length v.state.rules.profiles ≡ length profiles.now) shards.now }
    requires room { text.old.headroom + length text.old.payload + 2080 ≤ 4160 }
    ensures text { text.new.payload ≡ text.old.payload ++ profile_lines profiles.now (map (traffic_under shards.now) (range_with_len 0 (length profiles.now))) }
    ensures few { length text.new.payload ≤ length text.old.payload + 2080 }
    ensures headroom { text.new.headroom ≡ text.old.headroom }
{
    for (place, profile) in profiles.iter().enumerate() {
        let (input, output) = sent_under(shards, place as u8);
        put_profile(text, &profile.name, input, output);
    }
}

// Appends the line of the cause with this number, and its items.
fn put_drop(text: &mut Frame, number: usize, items: u64)
    requires number { number < CAUSES }
    requires room { text.old.headroom + length text.old.payload + 70 ≤ 4160 }
    ensures text { text.new.payload ≡ text.old.payload ++ drop_line (name_at number) items }
    ensures few { length text.new.payload ≤ length text.old.payload + 70 }
    ensures headroom { text.new.headroom ≡ text.old.headroom }
{
    text.put_back(b"drop ");
    text.put_back(name_of(number).as_bytes());
    text.put_back(b" ");
    put_number(text, u128::from(items));
    text.put_back(b"\n");
}

// Appends a line for each cause.
fn put_drops(text: &mut Frame, drops: &[u64; CAUSES])
    requires room { text.old.headroom + length text.old.payload + 70 * CAUSES ≤ 4160 }
    ensures text { text.new.payload ≡ text.old.payload ++ drop_lines causes drops.now }
    ensures headroom { text.new.headroom ≡ text.old.headroom }
{
    for (number, items) in drops.iter().enumerate() {
        put_drop(text, number, *items);
    }
}

/// The report without its lines of circuits, in a frame.
pub(crate) fn put_stats(text: &mut Frame, counted: &Counted<'_>)
    requires blank { text.old ≡ record { payload = []; headroom = 64 } }
    requires may { MayTell counted.now.shards.now counted.now.accounts.now.stopped counted.now.profiles.now }
    ensures { text.new.payload ≡ stats_by counted.now.shards.now counted.now.accounts.now.stopped counted.now.tally counted.now.drops.now counted.now.profiles.now }
{
    let stopped = counted.accounts.stopped().carried;
    let live = live(counted.shards);
    let total = plus_book(stopped, live);
    put_traffic(text, b"stopped", octets_of(stopped));
    put_traffic(text, b"live", octets_of(live));
    put_traffic(text, b"total", octets_of(total));
    put_worker(text, octets_of(counted.tally));
    put_profiles(text, counted.profiles, counted.shards);
    put_drops(text, &counted.drops.counts);
}
