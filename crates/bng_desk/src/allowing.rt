//! How many terms may begin in a round, of those for which accounting has room.
ghost use Rattle.std.specs.Prelude.{◌≡◌, ◌+◌, ◌≤◌, ◌<◌, ◌^◌, length, map};
ghost use Rattle.bng_desk.specs.Allowing.{allowance_of, share_of};

use bng_shard::Shard;

/// A shard has so many numbers for terms at most (Acct-Session-Id, 12 hexadecimal digits).
const NUMBERS: u64 = 0xffff_ffff_ffff;

// What the shard with this number gets of so many, of so many shards.
fn share(free: u32, shards: u16, number: u16) -> u32
    requires some { 1 ≤ shards }
    ensures { result ≡ share_of free shards number }
{
    let shards = u32::from(shards);
    let left = free % shards;
    if u32::from(number) < left {
        free / shards + 1
    } else {
        free / shards
    }
}

/// How many terms may begin in a shard that has this number, of so many shards, where accounting has room for so many.
pub(crate) fn allowance(shard: &Shard, number: u16, free: u32, shards: u16) -> u32
    requires some { 1 ≤ shards }
    requires number { shard.now.number ≡ number }
    ensures allowance { result ≡ allowance_of free shards shard.now }
{
    let share = share(free, shards, number);
    let left = NUMBERS.saturating_sub(shard.begun());
    if u64::from(share) <= left {
        share
    } else {
        left as u32
    }
}

/// Writes down the allowances that the shards have.
pub(crate) fn note(shards: &[Shard], allowances: &mut Vec<u32>)
    requires { length allowances.old.items ≡ length shards.now }
    ensures { allowances.new.items ≡ map (λ v. v.allowance) shards.now }
{
    for (number, shard) in shards.iter().enumerate() {
        allowances[number] = shard.allowance();
    }
}
