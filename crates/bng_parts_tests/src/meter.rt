//! Lists of packets with the colours that RFC 2697 gives them.
ghost use Rattle.std.specs.Prelude.{◌≡◌, ◌≤◌};

use crate::asserts::assert_same;
use bng_base::Rate;
use bng_meter::Colour::{Green, Red, Yellow};
use bng_meter::{Colour, Meter, red_packets_need_no_note};
use std::process::Abort;
use std::test::Fail;

// A meter that starts at 0.
fn meter(cir: u64, cbs: u64, ebs: u64) -> Meter
    ensures { result.last ≡ 0 }
{
    Meter::new(Rate { cir, cbs, ebs }, 0)
}

// A packet of so many octets at this moment has this colour.
fn takes(rt: &impl Abort, meter: &mut Meter, now: u64, octets: u32, colour: Colour)
    requires { meter.old.last ≤ now }
    ensures { meter.new.last ≡ now }
{
    assert_same(rt, &meter.take(now, octets), &colour);
}

#[test]
fn a_packet_is_green_then_yellow_then_red(rt: HostRuntime) -> Result<(), Fail> {
    let mut meter = meter(1000, 1500, 1500);
    takes(&rt, &mut meter, 0, 1500, Green);
    takes(&rt, &mut meter, 0, 1500, Yellow);
    takes(&rt, &mut meter, 0, 1500, Red);
    takes(&rt, &mut meter, 1499, 1500, Red);
    takes(&rt, &mut meter, 1500, 1500, Green);
    Ok(())
}

#[test]
fn a_token_comes_at_the_first_millisecond_that_reaches_it(rt: HostRuntime) -> Result<(), Fail> {
    let mut meter = meter(3, 1, 0);
    takes(&rt, &mut meter, 0, 1, Green);
    takes(&rt, &mut meter, 333, 1, Red);
    takes(&rt, &mut meter, 334, 1, Green);
    takes(&rt, &mut meter, 666, 1, Red);
    takes(&rt, &mut meter, 667, 1, Green);
    takes(&rt, &mut meter, 1000, 1, Green);
    Ok(())
}

// Takes the tokens of a packet, and forgets it where it is red.
fn take_or_forget(meter: &mut Meter, now: u64, octets: u32) -> Colour
    requires { meter.old.last ≤ now }
    ensures { meter.new.last ≤ now }
{
    let mut after = *meter;
    let colour = after.take(now, octets);
    if colour != Red {
        *meter = after;
    }
    colour
}

// A packet of one octet at this moment, that is forgotten where it is red, has this colour.
fn takes_or_forgets(rt: &impl Abort, meter: &mut Meter, now: u64, colour: Colour)
    requires { meter.old.last ≤ now }
    ensures { meter.new.last ≤ now }
{
    assert_same(rt, &take_or_forget(meter, now, 1), &colour);
}

// Of four packets two are red, and the last one of the others came at 334.
fn forgets_two(rt: &impl Abort, meter: &mut Meter)
    requires { meter.old.last ≡ 0 }
    ensures { meter.new.last ≤ 666 }
{
    takes_or_forgets(rt, meter, 0, Green);
    takes_or_forgets(rt, meter, 333, Red);
    takes_or_forgets(rt, meter, 334, Green);
    takes_or_forgets(rt, meter, 666, Red);
    assert_same(rt, &meter.last(), &334);
}

#[test]
fn a_red_packet_may_be_forgotten(rt: HostRuntime) -> Result<(), Fail> {
    red_packets_need_no_note();
    let mut meter = meter(3, 1, 0);
    forgets_two(&rt, &mut meter);
    takes_or_forgets(&rt, &mut meter, 667, Green);
    takes_or_forgets(&rt, &mut meter, 1000, Green);
    Ok(())
}

#[test]
fn tokens_fill_the_committed_bucket_and_then_the_excess_bucket(
    rt: HostRuntime,
) -> Result<(), Fail> {
    let mut meter = meter(1000, 1500, 1500);
    takes(&rt, &mut meter, 0, 1500, Green);
    takes(&rt, &mut meter, 0, 1500, Yellow);
    takes(&rt, &mut meter, 2000, 1500, Green);
    takes(&rt, &mut meter, 2000, 500, Yellow);
    takes(&rt, &mut meter, 2000, 1, Red);
    Ok(())
}

#[test]
fn a_day_of_silence_fills_both_buckets_at_any_rate(rt: HostRuntime) -> Result<(), Fail> {
    let rate = Rate {
        cir: u64::MAX,
        cbs: u64::MAX,
        ebs: 1500,
    };
    let mut meter = Meter::new(rate, 5);
    takes(&rt, &mut meter, 86_400_005, u32::MAX, Green);
    takes(&rt, &mut meter, (1 << 60) - 1, u32::MAX, Green);
    Ok(())
}
