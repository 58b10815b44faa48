ghost use Rattle.std.specs.Prelude.{◌≡◌, ◌≤◌, ◌<◌, ℕ, List, Some, true, false, IfOk, IfNone, OnErr, OnSome};
ghost use mathlib.Core.Logic.{◌↔◌};
ghost use Rattle.bng_base.specs.Ipv4Grammar.{IsIpv4};
ghost use Rattle.bng_forward.specs.Meters.{IsRed, spent, with_input, with_output};
ghost use Rattle.bng_forward.specs.Packets.{IsPassedOn, MayPassUp, MayPassDown, fate_of, fate_with};
ghost use Rattle.bng_forward.specs.Fates.{UpFate, DownFate, Holders};

use crate::view::TermView;
use bng_base::{DropCause, Frame, Ipv4};
use bng_ipv4::{lower_ttl, read};
use bng_meter::{Colour, Meter};

// Whether a packet of so many octets passes the meter, if there is one, at this moment in milliseconds. Then its tokens
// are taken. Where it does not pass, the meter stays wholly as it was.
fn passes(meter: &mut Option<Meter>, now: u64, octets: u16) -> bool
    ensures red { (result ≡ false) ↔ IsRed meter.old now octets }
    ensures taken { result ≡ true → meter.new ≡ spent meter.old now octets }
    ensures kept { result ≡ false → meter.new ≡ meter.old }
{
    let Some(mut after) = *meter else {
        return true;
    };
    let moment = now.max(after.last());
    match after.take(moment, u32::from(octets)) {
        Colour::Green | Colour::Yellow => {
            *meter = Some(after);
            true
        }
        Colour::Red => false,
    }
}

// The packet of a live term, where it may pass. Then its tokens are taken of the term's input meter.
fn from_term(view: &mut TermView, now: u64, bytes: &[u8]) -> Result<Ipv4, DropCause>
    ensures fate { UpFate (Some (Some view.old)) now bytes.now (fate_of result) }
    ensures read { IfOk result (λ v. IsIpv4 v bytes.now) }
    ensures may { IfOk result (λ v. MayPassUp (Some (Some view.old)) now v) }
    ensures taken { IfOk result (λ v. view.new ≡ record view.old { input = spent view.old.input now v.total }) }
    ensures kept { OnErr result (view.new ≡ view.old) }
{
    if !view.opened {
        return Err(DropCause::NotOpen);
    }
    let Ok(packet) = read(bytes) else {
        return Err(DropCause::Malformed);
    };
    if packet.ttl < 2 {
        return Err(DropCause::Expired);
    }
    if packet.src != view.lease {
        return Err(DropCause::Spoofed);
    }
    if !passes(&mut view.input, now, packet.total) {
        return Err(DropCause::Exceeded);
    }
    Ok(packet)
}

// The packet of a session with this live term, or none, where it may pass.
fn from_session(term: &mut Option<TermView>, now: u64, bytes: &[u8]) -> Result<Ipv4, DropCause>
    ensures fate { UpFate (Some term.old) now bytes.now (fate_of result) }
    ensures read { IfOk result (λ v. IsIpv4 v bytes.now) }
    ensures may { IfOk result (λ v. MayPassUp (Some term.old) now v) }
    ensures taken { IfOk result (λ v. Some term.new ≡ with_input (Some term.old) now v.total) }
    ensures kept { OnErr result (term.new ≡ term.old) }
{
    match term {
        Some(view) => from_term(view, now, bytes),
        None => Err(DropCause::NotOpen),
    }
}

// The packet from the circuit, where it may pass.
pub(crate) fn from_circuit(
    found: &mut Option<Option<TermView>>,
    now: u64,
    bytes: &[u8],
) -> Result<Ipv4, DropCause>
    ensures fate { UpFate found.old now bytes.now (fate_of result) }
    ensures read { IfOk result (λ v. IsIpv4 v bytes.now) }
    ensures may { IfOk result (λ v. MayPassUp found.old now v) }
    ensures taken { IfOk result (λ v. found.new ≡ with_input found.old now v.total) }
    ensures kept { OnErr result (found.new ≡ found.old) }
{
    match found {
        Some(term) => from_session(term, now, bytes),
        None => Err(DropCause::NoSession),
    }
}

// Whether the subscriber of this term takes a packet of so many octets.
fn takes(term: &TermView, octets: u16) -> bool
    ensures long { (result ≡ false) ↔ (term.now.mru < octets) }
    ensures fits { result ≡ true → octets ≤ term.now.mru }
{
    octets <= term.mru
}

// Why the packet of the core that says this may not pass to this term, which holds its destination. Where it may, its
// tokens are taken of the term's output meter.
fn to_term(term: &mut TermView, now: u64, header: Ipv4) -> Option<DropCause>
    ensures fate { (holders : Holders) (bytes : List ℕ)
        → IsIpv4 header bytes → holders header.dst ≡ Some term.old → DownFate holders now bytes (fate_with result) }
    ensures may { IfNone result (MayPassDown (Some term.old) now header) }
    ensures taken { IfNone result (term.new ≡ record term.old { output = spent term.old.output now header.total }) }
    ensures kept { OnSome result (term.new ≡ term.old) }
{
    if !term.opened {
        return Some(DropCause::NotOpen);
    }
    if header.ttl < 2 {
        return Some(DropCause::Expired);
    }
    if !takes(term, header.total) {
        return Some(DropCause::TooBig);
    }
    if !passes(&mut term.output, now, header.total) {
        return Some(DropCause::Exceeded);
    }
    None
}

// Why the packet of the core that says this may not pass to the holder of its destination. Where it may, its tokens are
// taken of the holder's output meter.
pub(crate) fn obstacle(holder: &mut Option<TermView>, now: u64, header: Ipv4) -> Option<DropCause>
    ensures fate { (holders : Holders) (bytes : List ℕ)
        → IsIpv4 header bytes → holders header.dst ≡ holder.old → DownFate holders now bytes (fate_with result) }
    ensures may { IfNone result (MayPassDown holder.old now header) }
    ensures taken { IfNone result (holder.new ≡ with_output holder.old now header.total) }
    ensures kept { OnSome result (holder.new ≡ holder.old) }
{
    match holder {
        Some(view) => to_term(view, now, header),
        None => Some(DropCause::NoSession),
    }
}

// Makes of a packet the one that is to be sent: the octets past its total length are padding.
pub(crate) fn pass_on(header: Ipv4, packet: &mut Frame)
    requires is { IsIpv4 header packet.old.payload }
    requires alive { 2 ≤ header.ttl }
    ensures passed { IsPassedOn header packet.old.payload packet.new.payload }
    ensures headroom { packet.new.headroom ≡ packet.old.headroom }
{
    lower_ttl(packet);
    let padding = packet.payload().len() - usize::from(header.total);
    packet.cut_back(padding);
}
