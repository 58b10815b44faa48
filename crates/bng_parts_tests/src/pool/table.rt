//! A pool for one thread, call by call.
ghost use Rattle.std.specs.Prelude.{◌≡◌, length, IfOk};

use crate::asserts::assert_same;
use bng_base::{Claim, Ip4, Range};
use bng_pool::{PlainPool, PoolError};
use std::alloc::Global;
use std::test::Fail;

// Addresses by their last octet.
#[derive(Clone, Copy)]
enum Call {
    Has(u8),
    Claim(u16, u8),
    Scan(u16, u8),
    Look(u8),
    GiveBack(u8),
}

#[derive(Clone, Copy, PartialEq, Eq, Debug)]
enum Answer {
    Yes,
    // Also where the call may not be made.
    No,
    Took(Claim),
    Holder(Option<u16>),
}

fn address(octet: u8) -> Ip4 {
    Ip4(0x0a00_0000 + u32::from(octet))
}

// Two ranges, of three addresses and of one, for three shards.
fn open_two(alloc: Global) -> Result<PlainPool, PoolError>
    ensures { IfOk result (λ p. (length p.ranges ≡ 2) × (p.shards ≡ 3)) }
{
    let ranges = [
        Range {
            first: Ip4(0x0a00_0010),
            last: Ip4(0x0a00_0012),
        },
        Range {
            first: Ip4(0x0a00_0000),
            last: Ip4(0x0a00_0000),
        },
    ];
    PlainPool::open(alloc, &ranges, 3)
}

fn yes_or_no(yes: bool) -> Answer {
    if yes { Answer::Yes } else { Answer::No }
}

fn claim(pool: &mut PlainPool, shard: u16, a: Ip4) -> Answer
    requires { (length pool.old.ranges ≡ 2) × (pool.old.shards ≡ 3) }
    ensures { (length pool.new.ranges ≡ 2) × (pool.new.shards ≡ 3) }
{
    if shard < 3 && pool.has(a) {
        return Answer::Took(pool.claim(shard, a));
    }
    Answer::No
}

fn scan(pool: &mut PlainPool, shard: u16, range: u8) -> Answer
    requires { (length pool.old.ranges ≡ 2) × (pool.old.shards ≡ 3) }
    ensures { (length pool.new.ranges ≡ 2) × (pool.new.shards ≡ 3) }
{
    if shard < 3 && range < 2 {
        return Answer::Took(pool.scan(shard, range));
    }
    Answer::No
}

fn give_back(pool: &mut PlainPool, a: Ip4) -> Answer
    requires { (length pool.old.ranges ≡ 2) × (pool.old.shards ≡ 3) }
    ensures { (length pool.new.ranges ≡ 2) × (pool.new.shards ≡ 3) }
{
    match pool.look(a) {
        None => Answer::No,
        Some(_) => {
            pool.give_back(a);
            Answer::Yes
        }
    }
}

fn answer_to(pool: &mut PlainPool, call: Call) -> Answer
    requires { (length pool.old.ranges ≡ 2) × (pool.old.shards ≡ 3) }
    ensures { (length pool.new.ranges ≡ 2) × (pool.new.shards ≡ 3) }
{
    match call {
        Call::Has(octet) => yes_or_no(pool.has(address(octet))),
        Call::Claim(shard, octet) => claim(pool, shard, address(octet)),
        Call::Scan(shard, range) => scan(pool, shard, range),
        Call::Look(octet) => Answer::Holder(pool.look(address(octet))),
        Call::GiveBack(octet) => give_back(pool, address(octet)),
    }
}

const AT_0: Ip4 = Ip4(0x0a00_0000);

const AT_16: Ip4 = Ip4(0x0a00_0010);

const AT_17: Ip4 = Ip4(0x0a00_0011);

const AT_18: Ip4 = Ip4(0x0a00_0012);

const STEPS: &[(Call, Answer)] = &[
    (Call::Has(0), Answer::Yes),
    (Call::Has(1), Answer::No),
    (Call::Has(15), Answer::No),
    (Call::Has(16), Answer::Yes),
    (Call::Has(18), Answer::Yes),
    (Call::Has(19), Answer::No),
    (Call::Look(17), Answer::Holder(None)),
    (Call::Claim(2, 17), Answer::Took(Claim::Claimed(AT_17))),
    (Call::Claim(0, 17), Answer::Took(Claim::Held(AT_17))),
    (Call::Claim(2, 17), Answer::Took(Claim::Held(AT_17))),
    (Call::Claim(0, 19), Answer::No),
    (Call::Look(17), Answer::Holder(Some(2))),
    (Call::Look(16), Answer::Holder(None)),
    (Call::Look(19), Answer::Holder(None)),
    (Call::Scan(0, 0), Answer::Took(Claim::Claimed(AT_16))),
    (Call::Scan(1, 0), Answer::Took(Claim::Claimed(AT_18))),
    (Call::Scan(1, 0), Answer::Took(Claim::Exhausted(0))),
    (Call::Scan(1, 1), Answer::Took(Claim::Claimed(AT_0))),
    (Call::Scan(2, 1), Answer::Took(Claim::Exhausted(1))),
    (Call::GiveBack(17), Answer::Yes),
    (Call::GiveBack(17), Answer::No),
    (Call::Look(17), Answer::Holder(None)),
    (Call::Look(16), Answer::Holder(Some(0))),
    (Call::Look(18), Answer::Holder(Some(1))),
    (Call::Scan(1, 0), Answer::Took(Claim::Claimed(AT_17))),
    (Call::Look(17), Answer::Holder(Some(1))),
    (Call::Scan(0, 0), Answer::Took(Claim::Exhausted(0))),
];

#[test]
fn a_pool_for_one_thread_answers_as_a_table(rt: HostRuntime) -> Result<(), Fail> {
    let mut pool = open_two(rt.alloc())?;
    for (call, answer) in STEPS {
        assert_same(&rt, &answer_to(&mut pool, *call), answer);
    }
    Ok(())
}
