//! Which worker's seat an item is for.
ghost use Rattle.std.specs.Prelude.{◌≡◌, ◌<◌, ◌≤◌, ◌+◌, ◌%◌, if◌then◌else◌};
ghost use Rattle.bng_steps.specs.Destinations.{fold_of_peer as peer_fold};
ghost use Rattle.bng_steps.specs.Seats.{IsCountedFrom, IsCountedFromRequest, IsSeat, counted_from_lead as lead_number, destination_sum, fold_of_address as address_fold, source_sum};

use crate::destination::fold_of_peer;
use bng_base::{Ip4, Item, ItemKind};
use bng_coa::{Lead, lead_of, request_in};

/// The seat of an item, of so many workers, from 0 on: a frame by its SOURCE_ADDR, a packet of the core by its destination, a
/// datagram of a tunnel by its sender, a verdict and a request for a change by the session number, or a request by the address,
/// that it names, a Tick and an End by the shard that it is for. It reads octets where they stand, whatever they are: an item that
/// is too short for them is on seat 0, and so is a request that leads nowhere.
pub fn seat_of(workers: u16, item: &Item) -> u16
    requires some { 1 ≤ workers }
    ensures is { IsSeat workers item.now result }
    ensures inside { result < workers }
{
    (counted_from(item) % u32::from(workers)) as u16
}

// The number that the seat is counted from.
fn counted_from(item: &Item) -> u32
    ensures { IsCountedFrom item.now.kind item.now result }
{
    match item.kind {
        ItemKind::Access(_) => sum_of_source(item.frame.payload()),
        ItemKind::Core => sum_of_destination(item.frame.payload()),
        ItemKind::Tunnel => fold_of_peer(item.from),
        ItemKind::Change => counted_from_request(item.frame.payload()),
        ItemKind::Verdict | ItemKind::Tick | ItemKind::End => u32::from(item.target),
    }
}

// The sum of the octets 7 to 12 of a frame, its SOURCE_ADDR.
fn sum_of_source(octets: &[u8]) -> u32
    ensures { result ≡ source_sum octets.now }
{
    if octets.len() < 12 {
        return 0;
    }
    let front = u32::from(octets[6]) + u32::from(octets[7]) + u32::from(octets[8]);
    front + u32::from(octets[9]) + u32::from(octets[10]) + u32::from(octets[11])
}

// The sum of the octets 17 to 20 of a packet, its destination.
fn sum_of_destination(octets: &[u8]) -> u32
    ensures { result ≡ destination_sum octets.now }
{
    if octets.len() < 20 {
        return 0;
    }
    u32::from(octets[16]) + u32::from(octets[17]) + u32::from(octets[18]) + u32::from(octets[19])
}

// What is counted from for a request for a change.
fn counted_from_request(octets: &[u8]) -> u32
    ensures { IsCountedFromRequest octets.now result }
{
    match request_in(octets) {
        Some(request) => counted_from_lead(lead_of(&request)),
        None => 0,
    }
}

// What is counted from for where a request leads.
fn counted_from_lead(lead: Lead) -> u32
    ensures { result ≡ lead_number lead }
{
    match lead {
        Lead::Session(number) => u32::from(number),
        Lead::Address(address) => fold_of_address(address),
        Lead::Nowhere => 0,
    }
}

// The sum of the octets of an address.
fn fold_of_address(address: Ip4) -> u32
    ensures { result ≡ address_fold address }
{
    let ip = address.0;
    ip / 16_777_216 + ip / 65_536 % 256 + ip / 256 % 256 + ip % 256
}
