//! How the fields of a line are written.
ghost use Rattle.std.specs.Prelude.{◌≡◌, ◌≤◌, ◌++◌, ℕ, codes, length};
ghost use Rattle.std.specs.Fmt.{decimal};
ghost use Rattle.std.specs.List.{flat_map};
ghost use Rattle.hex.specs.Hex.{encode_lower};
ghost use Rattle.bng_spell.specs.Spelling.{Adds};
ghost use Rattle.bng_spell.specs.Fields.{address_text, peer_text, kind_text, role_text, claim_text, octets_text, numbers_text};
ghost use Rattle.bng_spell.specs.Parts.{part_text, parted_text};

use crate::block::{Block, put};
use crate::names::fate_name;
use bng_base::{Claim, Fate, Ip4, ItemKind, Peer, Role};
use bng_plant::Sink;
use itoa::Buffer;

/// How many octets are spelled at once.
const AT_ONCE: usize = 256;

/// What is written as a field.
#[derive(Clone, Copy)]
pub(crate) enum Part<'a> {
    Word(&'a str),
    Number(u64),
    Flag(bool),
    Kind(ItemKind),
    Role(Role),
    Peer(Peer),
    Claim(Claim),
    Fate(Fate),
    /// Octets of which there is always the same number.
    Fixed(&'a [u8]),
    /// Octets, or a dash for none.
    Octets(&'a [u8]),
    /// Numbers, or a dash for none.
    Numbers(&'a [u32]),
}

// Writes a text.
fn put_text<O: Sink>(out: &mut O, block: &mut Block, text: &str)
    ensures { Adds (O.told out.old) (O.told out.new) block.old block.new text.now }
{
    put(out, block, text.as_bytes());
}

// Writes a number in decimal digits.
fn put_number<O: Sink>(out: &mut O, block: &mut Block, number: u64)
    ensures { Adds (O.told out.old) (O.told out.new) block.old block.new (decimal number) }
{
    let mut buffer = Buffer::new();
    let text = buffer.format(number);
    put(out, block, text.as_bytes());
}

// Writes a few octets as hexadecimal digits.
fn put_few_digits<O: Sink>(out: &mut O, block: &mut Block, octets: &[u8])
    requires { length octets.now ≤ AT_ONCE }
    ensures { Adds (O.told out.old) (O.told out.new) block.old block.new (encode_lower octets.now) }
{
    let mut digits = [0; 512];
    let part = &mut digits[..2 * octets.len()];
    let _ = hex::encode_to_slice(octets, part);
    put(out, block, &digits[..2 * octets.len()]);
}

// Writes octets as hexadecimal digits.
fn put_digits<O: Sink>(out: &mut O, block: &mut Block, octets: &[u8])
    ensures { Adds (O.told out.old) (O.told out.new) block.old block.new (encode_lower octets.now) }
{
    let mut at = 0;
    while at < octets.len() {
        let next = octets.len().min(at + AT_ONCE);
        put_few_digits(out, block, &octets[at..next]);
        at = next;
    }
}

// Writes octets as hexadecimal digits, or a dash for none.
fn put_octets<O: Sink>(out: &mut O, block: &mut Block, octets: &[u8])
    ensures { Adds (O.told out.old) (O.told out.new) block.old block.new (octets_text octets.now) }
{
    if octets.is_empty() {
        put(out, block, b"-");
    } else {
        put_digits(out, block, octets);
    }
}

// Writes a text and a number.
fn put_numbered<O: Sink>(out: &mut O, block: &mut Block, text: &'static str, number: u64)
    ensures { Adds (O.told out.old) (O.told out.new) block.old block.new (text.now ++ decimal number) }
{
    put_text(out, block, text);
    put_number(out, block, number);
}

// Writes an address.
fn put_address<O: Sink>(out: &mut O, block: &mut Block, address: Ip4)
    ensures { Adds (O.told out.old) (O.told out.new) block.old block.new (address_text address) }
{
    put_number(out, block, u64::from(address.0 / 0x100_0000));
    put_numbered(out, block, ".", u64::from(address.0 / 0x1_0000 % 256));
    put_numbered(out, block, ".", u64::from(address.0 / 0x100 % 256));
    put_numbered(out, block, ".", u64::from(address.0 % 256));
}

// Writes a peer.
fn put_peer<O: Sink>(out: &mut O, block: &mut Block, peer: Peer)
    ensures { Adds (O.told out.old) (O.told out.new) block.old block.new (peer_text peer) }
{
    put_address(out, block, peer.ip);
    put_numbered(out, block, ":", u64::from(peer.port));
}

// Writes a text and an address.
fn put_addressed<O: Sink>(out: &mut O, block: &mut Block, text: &'static str, address: Ip4)
    ensures { Adds (O.told out.old) (O.told out.new) block.old block.new (text.now ++ address_text address) }
{
    put_text(out, block, text);
    put_address(out, block, address);
}

// Writes what was answered where an address was asked for.
fn put_claim<O: Sink>(out: &mut O, block: &mut Block, claim: Claim)
    ensures { Adds (O.told out.old) (O.told out.new) block.old block.new (claim_text claim) }
{
    match claim {
        Claim::NoClaim => put(out, block, b"-"),
        Claim::Claimed(address) => put_addressed(out, block, "claimed:", address),
        Claim::Held(address) => put_addressed(out, block, "held:", address),
        Claim::Exhausted(pool) => put_numbered(out, block, "exhausted:", u64::from(pool)),
    }
}

// Writes a kind.
fn put_kind<O: Sink>(out: &mut O, block: &mut Block, kind: ItemKind)
    ensures { Adds (O.told out.old) (O.told out.new) block.old block.new (kind_text kind) }
{
    match kind {
        ItemKind::Access(port) => put_numbered(out, block, "access", u64::from(port)),
        ItemKind::Core => put(out, block, b"core"),
        ItemKind::Tunnel => put(out, block, b"tunnel"),
        ItemKind::Verdict => put(out, block, b"verdict"),
        ItemKind::Change => put(out, block, b"change"),
        ItemKind::Tick => put(out, block, b"tick"),
        ItemKind::End => put(out, block, b"end"),
    }
}

// Writes a role.
fn put_role<O: Sink>(out: &mut O, block: &mut Block, role: Role)
    ensures { Adds (O.told out.old) (O.told out.new) block.old block.new (role_text role) }
{
    match role {
        Role::Access(port) => put_numbered(out, block, "access", u64::from(port)),
        Role::Core => put(out, block, b"core"),
        Role::Tunnel => put(out, block, b"tunnel"),
        Role::Auth => put(out, block, b"auth"),
        Role::Acct => put(out, block, b"acct"),
        Role::Coa => put(out, block, b"coa"),
        Role::Control => put(out, block, b"control"),
    }
}

// Writes numbers, a comma before each.
fn put_more_numbers<O: Sink>(out: &mut O, block: &mut Block, numbers: &[u32])
    ensures { Adds (O.told out.old) (O.told out.new) block.old block.new (flat_map (λ (m : ℕ). codes "," ++ decimal m) numbers.now) }
{
    for number in numbers {
        put_numbered(out, block, ",", u64::from(*number));
    }
}

// Writes numbers parted by commas, or a dash for none.
fn put_numbers<O: Sink>(out: &mut O, block: &mut Block, numbers: &[u32])
    ensures { Adds (O.told out.old) (O.told out.new) block.old block.new (numbers_text numbers.now) }
{
    let [first, more @ ..] = numbers else {
        put(out, block, b"-");
        return;
    };
    put_number(out, block, u64::from(*first));
    put_more_numbers(out, block, more);
}

// Writes a field.
fn put_part<O: Sink>(out: &mut O, block: &mut Block, part: Part)
    ensures { Adds (O.told out.old) (O.told out.new) block.old block.new (part_text part.entry) }
{
    match part {
        Part::Word(text) => put_text(out, block, text),
        Part::Number(number) => put_number(out, block, number),
        Part::Flag(true) => put(out, block, b"1"),
        Part::Flag(false) => put(out, block, b"0"),
        Part::Kind(kind) => put_kind(out, block, kind),
        Part::Role(role) => put_role(out, block, role),
        Part::Peer(peer) => put_peer(out, block, peer),
        Part::Claim(claim) => put_claim(out, block, claim),
        Part::Fate(fate) => put_text(out, block, fate_name(fate)),
        Part::Fixed(octets) => put_digits(out, block, octets),
        Part::Octets(octets) => put_octets(out, block, octets),
        Part::Numbers(numbers) => put_numbers(out, block, numbers),
    }
}

// Writes a field and a space.
fn put_parted<O: Sink>(out: &mut O, block: &mut Block, part: Part)
    ensures { Adds (O.told out.old) (O.told out.new) block.old block.new (parted_text part.entry) }
{
    put_part(out, block, part);
    put(out, block, b" ");
}

// Writes fields, a space behind each.
fn put_parts<O: Sink>(out: &mut O, block: &mut Block, parts: &[Part])
    ensures { Adds (O.told out.old) (O.told out.new) block.old block.new (flat_map parted_text parts.now) }
{
    for part in parts {
        put_parted(out, block, *part);
    }
}

/// Writes a line: fields, a space behind each, and a last one with the line's end.
pub(crate) fn put_line<O: Sink>(out: &mut O, block: &mut Block, parts: &[Part], last: Part)
    ensures { Adds (O.told out.old) (O.told out.new) block.old block.new (flat_map parted_text parts.now ++ (part_text last.entry ++ codes "\n")) }
{
    put_parts(out, block, parts);
    put_part(out, block, last);
    put(out, block, b"\n");
}
