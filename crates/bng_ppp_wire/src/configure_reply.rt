ghost use Rattle.std.specs.Prelude.{◌≡◌, ◌≤◌, ◌+◌, ◌*◌, ◌++◌, ◌↔◌, IsTrue, length, filter};
ghost use Rattle.bng_base.specs.PppGrammar.{AreOptions, options_text};
ghost use Rattle.bng_ppp_wire.specs.View.{options_of, packet_of};
ghost use Rattle.bng_ppp_wire.specs.Listing.{names as has_type};
ghost use Rattle.bng_ppp_wire.specs.MadeOption.{all_made_of};
ghost use Rattle.bng_ppp_wire.specs.ConfigureReply.{IsRead, named_of};

use crate::code::{CONFIGURE_ACK, CONFIGURE_NAK, CONFIGURE_REJECT};
use crate::listing::{names, options};
use crate::made_option::{MadeOpt, put_made};
use crate::view::{Opt, Packet};
use arrayvec::ArrayVec;
use bng_base::{Frame, ROOM};

/// What a packet is to a Configure-Request that was sent.
#[derive(Drop)]
pub enum ConfigureReply<'a> {
    /// The Configure-Ack: it has the request's Identifier and exactly its options.
    Ack,
    /// A Configure-Nak with the request's Identifier, and the options that it lists.
    Nak(ArrayVec<Opt<'a>, 64>),
    /// A Configure-Reject with the request's Identifier, and the options that it lists: those of the request whose
    /// types it names, in the request's order and as they are.
    Reject(ArrayVec<Opt<'a>, 64>),
    /// No reply to the request.
    Other,
}

/// Reads a packet as a reply to the Configure-Request of this Identifier that asked for these options, at most 64
/// (RFC 1661 sections 5.2 to 5.4).
pub fn read_reply<'a>(id: u8, asked: &[MadeOpt], packet: &Packet<'a>) -> ConfigureReply<'a>
    requires { length asked.now ≤ 64 }
    ensures { IsRead (record { id = id; options = all_made_of asked.now }) (packet_of packet.now) result }
{
    if packet.id != id {
        return ConfigureReply::Other;
    }
    let Ok(found) = options(packet) else {
        return ConfigureReply::Other;
    };
    match packet.code {
        CONFIGURE_ACK if is_acked(asked, packet.body) => ConfigureReply::Ack,
        CONFIGURE_NAK => ConfigureReply::Nak(found),
        CONFIGURE_REJECT if is_part(asked, found.as_slice(), packet.body) => ConfigureReply::Reject(
            found,
        ),
        _ => ConfigureReply::Other,
    }
}

// Whether the octets list exactly the options that were asked for.
fn is_acked(asked: &[MadeOpt], body: &[u8]) -> bool
    requires { length asked.now ≤ 64 }
    ensures { IsTrue result ↔ AreOptions (all_made_of asked.now) body.now }
{
    let mut text = Frame::new();
    put_made(asked, &mut text);
    text.payload() == body
}

// Whether these options, of which the octets are the list, are those of the options that were asked for whose types
// they name.
fn is_part(asked: &[MadeOpt], options: &[Opt<'_>], body: &[u8]) -> bool
    requires few { length asked.now ≤ 64 }
    requires lists { AreOptions (options_of options.now) body.now }
    ensures { IsTrue result ↔ (options_of options.now ≡ named_of (all_made_of asked.now) (options_of options.now)) }
{
    let mut text = Frame::new();
    put_named(asked, options, &mut text);
    text.payload() == body
}

// Writes those of the options that were asked for whose types are named.
fn put_named(asked: &[MadeOpt], options: &[Opt<'_>], into: &mut Frame)
    requires empty { length into.old.payload ≡ 0 }
    requires headroom { into.old.headroom ≡ 64 }
    requires few { length asked.now ≤ 64 }
    ensures text { into.new.payload ≡ options_text (named_of (all_made_of asked.now) (options_of options.now)) }
    ensures again { AreOptions (all_made_of asked.now) (options_text (all_made_of asked.now)) }
{
    for option in asked {
        let value = option.value.as_slice();
        if names(options, option.kind) {
            into.put_back(&[option.kind, (2 + value.len()) as u8]);
            into.put_back(value);
        }
    }
}
