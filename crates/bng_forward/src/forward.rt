ghost use Rattle.std.specs.Prelude.{◌≡◌, ◌≢◌};
ghost use Rattle.bng_base.specs.declared.ipv4.Ipv4.{Ipv4 as Header};
ghost use Rattle.bng_base.specs.declared.fate.Fate.{Fate as AnyFate};
ghost use Rattle.bng_base.specs.Ipv4Grammar.{IsIpv4};
ghost use Rattle.bng_forward.specs.Meters.{with_input, with_output};
ghost use Rattle.bng_forward.specs.Packets.{IsPassedOn, MayPassUp, MayPassDown};
ghost use Rattle.bng_forward.specs.Fates.{UpFate, DownFate, Holders, HasOwnSource};

use crate::packet::{from_circuit, obstacle, pass_on};
use crate::view::TermView;
use bng_base::{Fate, Frame, Ipv4};

/// Gives the packet of a subscriber, the information of a PPP frame, its fate at this moment in milliseconds. `found` is
/// the session of its circuit, if there is one, and the session's live term, if it has one. The fate is NoSession,
/// NotOpen, Malformed (outside the grammar of RFC 791 section 3.1), Expired (TTL 0 or 1), Spoofed (another source than the
/// lease), Exceeded (the term's input meter marks it Red, RFC 2697), the first of them that holds, else Forwarded. Where it
/// is Forwarded the frame is the packet to send: its TTL is one lower, its header checksum is computed again and the octets
/// past its total length are cut off; and its tokens are taken of the input meter. Else frame and meter are as before. A
/// moment before that of a meter's last packet counts as that one.
pub fn up(found: &mut Option<Option<TermView>>, now: u64, packet: &mut Frame) -> Fate
    ensures fate { UpFate found.old now packet.old.payload result }
    ensures only { (fate : AnyFate) → UpFate found.old now packet.old.payload fate → fate ≡ result }
    ensures forwarded { result ≡ Fate.Forwarded
        → (v : Header) × MayPassUp found.old now v × IsPassedOn v packet.old.payload packet.new.payload
        × (found.new ≡ with_input found.old now v.total) }
    ensures source { result ≡ Fate.Forwarded → HasOwnSource found.old packet.new.payload }
    ensures headroom { packet.new.headroom ≡ packet.old.headroom }
    ensures kept { result ≢ Fate.Forwarded → packet.new ≡ packet.old }
    ensures unspent { result ≢ Fate.Forwarded → found.new ≡ found.old }
{
    match from_circuit(found, now, packet.payload()) {
        Ok(header) => {
            pass_on(header, packet);
            Fate::Forwarded
        }
        Err(cause) => Fate::Dropped(cause),
    }
}

/// Gives a packet of the core, which was read as this header, its fate at this moment in milliseconds. `holder` is the term
/// that holds its destination, if there is one. The fate is NoSession, NotOpen, Expired (TTL 0 or 1), TooBig (longer than
/// the term's MRU), Exceeded (the term's output meter marks it Red, RFC 2697), the first of them that holds, else Forwarded;
/// a packet that cannot be read is Malformed before. Where it is Forwarded the frame is the packet to send, as `up` makes it, and its tokens are taken of
/// the output meter. Else frame and meter are as before.
pub fn down(holder: &mut Option<TermView>, now: u64, header: Ipv4, packet: &mut Frame) -> Fate
    requires { IsIpv4 header packet.old.payload }
    ensures fate { (holders : Holders) → holders header.dst ≡ holder.old → DownFate holders now packet.old.payload result }
    ensures only { (holders : Holders) → holders header.dst ≡ holder.old
        → (fate : AnyFate) → DownFate holders now packet.old.payload fate → fate ≡ result }
    ensures forwarded { result ≡ Fate.Forwarded
        → MayPassDown holder.old now header × IsPassedOn header packet.old.payload packet.new.payload
        × (holder.new ≡ with_output holder.old now header.total) }
    ensures headroom { packet.new.headroom ≡ packet.old.headroom }
    ensures kept { result ≢ Fate.Forwarded → packet.new ≡ packet.old }
    ensures unspent { result ≢ Fate.Forwarded → holder.new ≡ holder.old }
{
    match obstacle(holder, now, header) {
        Some(cause) => Fate::Dropped(cause),
        None => {
            pass_on(header, packet);
            Fate::Forwarded
        }
    }
}
