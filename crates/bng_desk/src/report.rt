ghost use Rattle.std.specs.Prelude.{◌≡◌, ◌<◌, ◌≤◌, ◌++◌, codes, IfOk, OnOk, length, map, string_bytes};
ghost use Rattle.std.specs.List.{All, range_with_len};
ghost use Rattle.bng_schema.specs.Address.{address_text};
ghost use Rattle.bng_desk.specs.Causes.{causes, name_at};
ghost use Rattle.bng_desk.specs.Model.{traffic_by, traffic_under};
ghost use Rattle.bng_desk.specs.Report.{report_text, traffic_line, worker_line, worker_lines, profile_line, profile_lines, static_line, static_lines, drop_line, drop_lines, quantities};

use crate::drops::{CAUSES, name_of};
use crate::line::CircuitLine;
use crate::sums::{Sums, sent_under};
use arrayvec::ArrayVec;
use bng_base::{Book, Ip4, Profile};
use bng_shard::Shard;
use bng_steps::Traffic;
use std::alloc::{AllocError, Global};

/// The report: the octets that the Stops say, those that the terms carried that have no Stop yet, and both together; a line for each
/// worker, from 0, for each profile, with what was sent under it as the books of the shards say, and for each circuit; and the items
/// dropped by each cause. There is one traffic for each circuit.
pub(crate) fn report(
    alloc: Global,
    sums: &Sums,
    workers: &[Traffic],
    profiles: &[Profile],
    shards: &[Shard],
    circuits: &[CircuitLine],
    traffic: &[Traffic],
) -> Result<Vec<u8>, AllocError>
    requires few_profiles { length profiles.now ≤ 16 }
    requires few_shards { length shards.now ≤ 64 }
    requires books { All (λ v. length v.state.rules.profiles ≡ length profiles.now) shards.now }
    requires circuits { length traffic.now ≡ length circuits.now }
    ensures { IfOk result (λ text. text.items ≡ report_text sums.now.stopped sums.now.live sums.now.total workers.now profiles.now (map (traffic_under shards.now) (range_with_len 0 (length profiles.now))) circuits.now traffic.now sums.now.drops) }
{
    let totals = total_lines(alloc, sums, workers)?;
    let mut statics = String::new(alloc);
    push_static_lines(&mut statics, circuits, traffic)?;
    let mut drops = String::new(alloc);
    push_drop_lines(&mut drops, &sums.drops)?;
    let mut text = Vec::new(alloc);
    text.extend_from_slice(totals.as_bytes())?;
    push_profile_lines(alloc, &mut text, profiles, shards)?;
    text.extend_from_slice(statics.as_bytes())?;
    text.extend_from_slice(drops.as_bytes())?;
    Ok(text)
}

// The lines of the Stops, of the terms that are left and of both, and of the workers.
fn total_lines(alloc: Global, sums: &Sums, workers: &[Traffic]) -> Result<String, AllocError>
    ensures { IfOk result (λ text. string_bytes text ≡ traffic_line (codes "stopped") (traffic_by sums.now.stopped) ++ traffic_line (codes "live") (traffic_by sums.now.live) ++ traffic_line (codes "total") (traffic_by sums.now.total) ++ worker_lines 0 workers.now) }
{
    let mut text = String::new(alloc);
    push_line(&mut text, "stopped", octets_of(sums.stopped))?;
    push_line(&mut text, "live", octets_of(sums.live))?;
    push_line(&mut text, "total", octets_of(sums.total))?;
    push_worker_lines(&mut text, workers)?;
    Ok(text)
}

/// The octets of a book.
pub(crate) fn octets_of(book: Book) -> Traffic
    ensures { result ≡ traffic_by book }
{
    Traffic {
        input: book.input,
        output: book.output,
    }
}

fn push_line(text: &mut String, name: &str, carried: Traffic) -> Result<(), AllocError>
    ensures { OnOk result (string_bytes text.new ≡ string_bytes text.old ++ traffic_line name.now carried) }
{
    text.push_str(name)?;
    push_quantities(text, u128::from(carried.input), u128::from(carried.output))
}

fn push_worker_lines(text: &mut String, workers: &[Traffic]) -> Result<(), AllocError>
    ensures { OnOk result (string_bytes text.new ≡ string_bytes text.old ++ worker_lines 0 workers.now) }
{
    for (number, carried) in workers.iter().enumerate() {
        push_worker_line(text, number, *carried)?;
    }
    Ok(())
}

fn push_worker_line(text: &mut String, number: usize, carried: Traffic) -> Result<(), AllocError>
    ensures { OnOk result (string_bytes text.new ≡ string_bytes text.old ++ worker_line number carried) }
{
    write!(text, "worker {number}")?;
    push_quantities(text, u128::from(carried.input), u128::from(carried.output))
}

fn push_profile_lines(
    alloc: Global,
    text: &mut Vec<u8>,
    profiles: &[Profile],
    shards: &[Shard],
) -> Result<(), AllocError>
    requires few_profiles { length profiles.now ≤ 16 }
    requires few_shards { length shards.now ≤ 64 }
    requires books { All (λ v. length v.state.rules.profiles ≡ length profiles.now) shards.now }
    ensures { OnOk result (text.new.items ≡ text.old.items ++ profile_lines profiles.now (map (traffic_under shards.now) (range_with_len 0 (length profiles.now)))) }
{
    for (place, profile) in profiles.iter().enumerate() {
        let (input, output) = sent_under(shards, place as u8);
        push_profile_line(alloc, text, &profile.name, input, output)?;
    }
    Ok(())
}

fn push_profile_line(
    alloc: Global,
    text: &mut Vec<u8>,
    name: &ArrayVec<u8, 32>,
    input: u128,
    output: u128,
) -> Result<(), AllocError>
    ensures { OnOk result (text.new.items ≡ text.old.items ++ profile_line name.now.items (record { input = input; output = output })) }
{
    let mut sent = String::new(alloc);
    push_quantities(&mut sent, input, output)?;
    text.extend_from_slice(b"profile ")?;
    text.extend_from_slice(name.as_slice())?;
    text.extend_from_slice(sent.as_bytes())
}

fn push_static_lines(
    text: &mut String,
    circuits: &[CircuitLine],
    traffic: &[Traffic],
) -> Result<(), AllocError>
    requires { length traffic.now ≡ length circuits.now }
    ensures { OnOk result (string_bytes text.new ≡ string_bytes text.old ++ static_lines circuits.now traffic.now) }
{
    for (place, circuit) in circuits.iter().enumerate() {
        push_static_line(text, circuit.address, traffic[place])?;
    }
    Ok(())
}

fn push_static_line(text: &mut String, address: Ip4, carried: Traffic) -> Result<(), AllocError>
    ensures { OnOk result (string_bytes text.new ≡ string_bytes text.old ++ static_line address carried) }
{
    text.push_str("static ")?;
    push_address(text, address)?;
    push_quantities(text, u128::from(carried.input), u128::from(carried.output))
}

fn push_drop_lines(text: &mut String, drops: &[u64; CAUSES]) -> Result<(), AllocError>
    ensures { OnOk result (string_bytes text.new ≡ string_bytes text.old ++ drop_lines causes drops.now) }
{
    for (number, items) in drops.iter().enumerate() {
        push_drop_line(text, number, *items)?;
    }
    Ok(())
}

/// Appends octets in and out, and the end of the line.
pub(crate) fn push_quantities(
    text: &mut String,
    input: u128,
    output: u128,
) -> Result<(), AllocError>
    ensures { OnOk result (string_bytes text.new ≡ string_bytes text.old ++ quantities input output) }
{
    write!(text, " in={input} out={output}\n")
}

/// Appends an address.
pub(crate) fn push_address(text: &mut String, address: Ip4) -> Result<(), AllocError>
    ensures { OnOk result (string_bytes text.new ≡ string_bytes text.old ++ address_text address) }
{
    let number = address.0;
    let (first, second) = (number / 0x100_0000, number / 0x1_0000 % 256);
    let (third, fourth) = (number / 256 % 256, number % 256);
    write!(text, "{first}.{second}.{third}.{fourth}")
}

fn push_drop_line(text: &mut String, number: usize, items: u64) -> Result<(), AllocError>
    requires { number < CAUSES }
    ensures { OnOk result (string_bytes text.new ≡ string_bytes text.old ++ drop_line (name_at number) items) }
{
    let name = name_of(number);
    write!(text, "drop {name} {items}\n")
}
