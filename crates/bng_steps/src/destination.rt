//! Where an item leads by its octets and the rules.
ghost use Rattle.std.specs.Prelude.{◌≡◌, ◌<◌, ◌≤◌, ◌+◌, ◌%◌, ℕ};
ghost use Rattle.bng_l2tp_wire.specs.View.{control_of};
ghost use Rattle.bng_pppoe_wire.specs.View.{frame_of};
ghost use Rattle.bng_steps.specs.Destinations.{IsDestination, IsForDatagram, IsForLead, IsForNumbered, IsForRequest, IsForKind, IsForMessage, IsForNumber, IsForRead, IsForSession, IsForTarget, IsForFrame, fold_of, fold_of_peer as peer_fold};

use crate::rules::Rules;
use bng_base::{DropCause, Fate, Ip4, Item, ItemKind, Mac, Peer};
use bng_coa::{Lead, lead_of, request_in};
use bng_forward::{Arrived, frame_at, names_session, packet_from};
use bng_l2tp_wire::Control;
use bng_lns::{TunnelDatagram, datagram_of};
use bng_pppoe_wire::Pppoe;

/// Where an item leads.
#[derive(Clone, Copy, PartialEq, Eq, Debug)]
pub enum Destination {
    /// To no shard; it only has this fate.
    Loose(Fate),
    /// To the shard with this number.
    Stands(u16),
    /// To the shard that holds this address; where none does it only has this fate.
    Holder(Ip4, Fate),
}

/// Where an item leads: a frame that names a session to the shard of that number, another frame to the shard of its
/// SOURCE_ADDR, a packet of the core to the holder of its destination, a message of a tunnel to the shard of its Tunnel ID, or
/// without one to that of its sender, a PPP frame of a call to that of its Session ID, a request for a change to that of the session number
/// that it names, or to the holder of the address, a Tick and an End to the shard that it is for.
/// What is outside its grammar or leads to no shard is loose.
pub fn destination_of(rules: &Rules, item: &Item) -> Destination
    requires some { 1 ≤ rules.now.shards }
    ensures is { IsDestination rules.now item.now result }
    ensures inside { (n : ℕ) → result ≡ Destination.Stands n → n < rules.now.shards }
{
    match item.kind {
        ItemKind::Access(number) => port_destination(rules, number, item),
        ItemKind::Core => core_destination(rules, item),
        ItemKind::Tunnel => tunnel_destination(rules, item),
        ItemKind::Verdict => verdict_destination(rules, item.target),
        ItemKind::Change => request_destination(rules, item),
        ItemKind::Tick | ItemKind::End => target_destination(rules, item.target),
    }
}

// A verdict, by its session's number.
fn verdict_destination(rules: &Rules, session: u16) -> Destination
    ensures is { IsForSession rules.now session result }
    ensures inside { (n : ℕ) → result ≡ Destination.Stands n → n < rules.now.shards }
{
    let shard = session / 1024;
    let index = session % 1024;
    if shard < rules.shards && 1 <= index && index <= 1022 {
        Destination::Stands(shard)
    } else {
        Destination::Loose(Fate::Consumed)
    }
}

// A request for a change, by what it names.
fn request_destination(rules: &Rules, item: &Item) -> Destination
    ensures is { IsForRequest rules.now item.now result }
    ensures inside { (n : ℕ) → result ≡ Destination.Stands n → n < rules.now.shards }
{
    match request_in(item.frame.payload()) {
        Some(request) => lead_destination(rules, lead_of(&request)),
        None => Destination::Loose(Fate::Consumed),
    }
}

// Where a request leads.
fn lead_destination(rules: &Rules, lead: Lead) -> Destination
    ensures is { IsForLead rules.now lead result }
    ensures inside { (n : ℕ) → result ≡ Destination.Stands n → n < rules.now.shards }
{
    match lead {
        Lead::Session(number) => shard_of_number(rules, number),
        Lead::Address(address) => Destination::Holder(address, Fate::Consumed),
        Lead::Nowhere => Destination::Loose(Fate::Consumed),
    }
}

// By a session number.
fn shard_of_number(rules: &Rules, number: u16) -> Destination
    ensures is { IsForNumbered rules.now number result }
    ensures inside { (n : ℕ) → result ≡ Destination.Stands n → n < rules.now.shards }
{
    let shard = number / 1024;
    if shard < rules.shards {
        Destination::Stands(shard)
    } else {
        Destination::Loose(Fate::Consumed)
    }
}

fn target_destination(rules: &Rules, target: u16) -> Destination
    ensures is { IsForTarget rules.now target result }
    ensures inside { (n : ℕ) → result ≡ Destination.Stands n → n < rules.now.shards }
{
    if target < rules.shards {
        Destination::Stands(target)
    } else {
        Destination::Loose(Fate::Consumed)
    }
}

// A datagram of the core.
fn core_destination(rules: &Rules, item: &Item) -> Destination
    ensures is { IsForKind ItemKind.Core rules.now item.now result }
    ensures inside { (n : ℕ) → result ≡ Destination.Stands n → n < rules.now.shards }
{
    let arrived = Arrived {
        from: item.from,
        cut: item.cut,
        octets: item.frame.payload(),
    };
    match packet_from(rules.core_peer, &arrived) {
        Some(header) => Destination::Holder(header.dst, Fate::Dropped(DropCause::NoSession)),
        None => Destination::Loose(Fate::Dropped(DropCause::Malformed)),
    }
}

// A datagram of the access port with this number.
fn port_destination(rules: &Rules, number: u8, item: &Item) -> Destination
    requires some { 1 ≤ rules.now.shards }
    ensures is { IsForKind (ItemKind.Access number) rules.now item.now result }
    ensures inside { (n : ℕ) → result ≡ Destination.Stands n → n < rules.now.shards }
{
    let arrived = Arrived {
        from: item.from,
        cut: item.cut,
        octets: item.frame.payload(),
    };
    match frame_at(rules.access.as_slice(), number, &arrived) {
        Some(frame) => frame_destination(rules, &frame),
        None => Destination::Loose(Fate::Dropped(DropCause::Malformed)),
    }
}

// A frame that came to a port.
fn frame_destination(rules: &Rules, frame: &Pppoe<'_>) -> Destination
    requires some { 1 ≤ rules.now.shards }
    ensures is { IsForFrame rules.now (frame_of frame.now) result }
    ensures inside { (n : ℕ) → result ≡ Destination.Stands n → n < rules.now.shards }
{
    if !names_session(frame) {
        return Destination::Stands(fold(&frame.src) % rules.shards);
    }
    let shard = frame.session / 1024;
    let index = frame.session % 1024;
    if shard < rules.shards && 1 <= index && index <= 1022 {
        Destination::Stands(shard)
    } else {
        Destination::Loose(Fate::Dropped(DropCause::NoSession))
    }
}

// A datagram of the gateway's end for tunnels.
fn tunnel_destination(rules: &Rules, item: &Item) -> Destination
    requires some { 1 ≤ rules.now.shards }
    ensures is { IsForDatagram rules.now item.now result }
    ensures inside { (n : ℕ) → result ≡ Destination.Stands n → n < rules.now.shards }
{
    match datagram_of(item.cut, item.frame.payload()) {
        Some(datagram) => datagram_destination(rules, item.from, &datagram),
        None => Destination::Loose(Fate::Dropped(DropCause::Malformed)),
    }
}

// One that was read, from this sender.
fn datagram_destination(rules: &Rules, from: Peer, datagram: &TunnelDatagram<'_>) -> Destination
    requires some { 1 ≤ rules.now.shards }
    ensures is { IsForRead rules.now from datagram.now result }
    ensures inside { (n : ℕ) → result ≡ Destination.Stands n → n < rules.now.shards }
{
    match datagram {
        TunnelDatagram::Control(message) => message_destination(rules, from, message),
        TunnelDatagram::Data(message) => numbered_destination(rules, message.session),
    }
}

// A message of a tunnel, from this sender.
fn message_destination(rules: &Rules, from: Peer, message: &Control<'_>) -> Destination
    requires some { 1 ≤ rules.now.shards }
    ensures is { IsForMessage rules.now from (control_of message.now) result }
    ensures inside { (n : ℕ) → result ≡ Destination.Stands n → n < rules.now.shards }
{
    if message.tunnel == 0 {
        return Destination::Stands(shard_of(from, rules.shards));
    }
    numbered_destination(rules, message.tunnel)
}

// What names a shard by its number.
fn numbered_destination(rules: &Rules, number: u16) -> Destination
    ensures is { IsForNumber rules.now number result }
    ensures inside { (n : ℕ) → result ≡ Destination.Stands n → n < rules.now.shards }
{
    let shard = number / 1024;
    let index = number % 1024;
    if shard < rules.shards && 1 <= index && index <= 1022 {
        Destination::Stands(shard)
    } else {
        Destination::Loose(Fate::Dropped(DropCause::NoSession))
    }
}

// The shard, of so many, of a peer whose tunnel has no number yet.
fn shard_of(peer: Peer, shards: u16) -> u16
    requires some { 1 ≤ shards }
    ensures is { result ≡ peer_fold peer % shards }
    ensures inside { result < shards }
{
    (fold_of_peer(peer) % u32::from(shards)) as u16
}

// The sum of the octets of an address, and of a port.
pub fn fold_of_peer(peer: Peer) -> u32
    ensures { result ≡ peer_fold peer }
{
    let ip = peer.ip.0;
    ip / 16_777_216 + ip / 65_536 % 256 + ip / 256 % 256 + ip % 256 + u32::from(peer.port)
}

// The sum of a MAC's octets.
fn fold(mac: &Mac) -> u16
    ensures { result ≡ fold_of mac.now }
{
    let [a, b, c, d, e, f] = mac.0;
    u16::from(a) + u16::from(b) + u16::from(c) + u16::from(d) + u16::from(e) + u16::from(f)
}
