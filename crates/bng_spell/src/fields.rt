//! Addresses, peers, claims and items in a text.
ghost use Rattle.std.specs.Prelude.{◌≡◌, ◌≢◌, ◌<◌, ◌≤◌, ◌/◌, ◌%◌, ◌^◌, ◌++◌, ◌∷◌, [], ℕ, List, codes, IsTrue, IfSome, IfNone};
ghost use Rattle.bng_spell.specs.Fields.{address_text, peer_text, claim_text};
ghost use Rattle.bng_spell.specs.Kept.{IsAddress, IsPeer, IsClaim};
ghost use Rattle.bng_spell.specs.Plain.{is_separator};
ghost use Rattle.bng_spell.specs.Standing.{Stands, Lacks};
ghost use Rattle.bng_spell.specs.Addresses.{address_once, peer_once, claim_once};

use crate::numbers::Number;
use crate::octets::Fixed;
use crate::piece::{Piece, Until, literal};
use bng_base::{Claim, Ip4, ItemKind, Peer};

/// A number up to this one, and a space.
pub(crate) type Spaced<const MOST: u64> = Until<Number<MOST>, 32>;

/// A number of 16 bits, and a space.
pub(crate) type Short = Until<Number<0xffff>, 32>;

/// A number of 64 bits, and a space.
pub(crate) type Long = Until<Number<0xffff_ffff_ffff_ffff>, 32>;

// A number up to 255, and a dot.
type Dotted = Until<Number<255>, 46>;

// An address as numbers, and a separator.
type AddressFields<const STOP: u8> = (Dotted, (Dotted, (Dotted, Until<Number<255>, STOP>)));

/// An address, and a separator.
#[derive(Clone, Copy)]
pub(crate) struct Address<const STOP: u8>(pub(crate) Ip4);

impl<const STOP: u8> Piece for Address<STOP> {
    ghost fits = { λ a. IsAddress a.0 × IsTrue (is_separator STOP) };

    ghost text = { λ a. address_text a.0 ++ STOP ∷ [] };

    ghost splits = { λ v w x y f g e. let r = address_once STOP v.0 w.0 x y f.1 f.0 g.0 e in (λ i. record { 0 = r.0 i }, r.1) };

    fn read(whole: &[u8], at: usize) -> Option<(Address<STOP>, usize)> {
        let (fields, next) = AddressFields::<STOP>::read(whole, at)?;
        let (first, (second, (third, fourth))) = fields;
        let address = joined(first.0.0, second.0.0, third.0.0, fourth.0.0);
        Some((Address(Ip4(address)), next))
    }
}

// The number of these octets, the first the most significant.
fn joined(first: u64, second: u64, third: u64, fourth: u64) -> u32
    requires first_octet { first < 256 }
    requires second_octet { second < 256 }
    requires third_octet { third < 256 }
    requires fourth_octet { fourth < 256 }
    ensures first { result / 2 ^ 24 ≡ first }
    ensures second { result / 2 ^ 16 % 256 ≡ second }
    ensures third { result / 2 ^ 8 % 256 ≡ third }
    ensures fourth { result % 256 ≡ fourth }
{
    let high = first * 0x100_0000 + second * 0x1_0000;
    (high + third * 0x100 + fourth) as u32
}

impl Piece for Peer {
    ghost fits = { IsPeer };

    ghost text = { λ p. peer_text p ++ 32 ∷ [] };

    ghost splits = { peer_once };

    fn read(whole: &[u8], at: usize) -> Option<(Peer, usize)> {
        let ((ip, port), next) = <(Address<58>, Short)>::read(whole, at)?;
        let peer = Peer {
            ip: ip.0,
            port: port.0.0 as u16,
        };
        Some((peer, next))
    }
}

impl Piece for Claim {
    ghost fits = { IsClaim };

    ghost text = { λ c. claim_text c ++ 10 ∷ [] };

    ghost splits = { claim_once };

    fn read(whole: &[u8], at: usize) -> Option<(Claim, usize)> {
        if let Some(next) = literal(whole, at, b"-\n") {
            return Some((Claim::NoClaim, next));
        }
        if let Some(at) = literal(whole, at, b"claimed:") {
            let (address, next) = Address::<10>::read(whole, at)?;
            return Some((Claim::Claimed(address.0), next));
        }
        if let Some(at) = literal(whole, at, b"held:") {
            let (address, next) = Address::<10>::read(whole, at)?;
            return Some((Claim::Held(address.0), next));
        }
        let at = literal(whole, at, b"exhausted:")?;
        let (pool, next) = Until::<Number<255>, 10>::read(whole, at)?;
        Some((Claim::Exhausted(pool.0.0 as u8), next))
    }
}

/// The fields of an item, with the separator behind its octets.
pub(crate) type ItemFields<B> = (
    Until<ItemKind, 32>,
    (
        Peer,
        (Until<bool, 32>, (Short, (Long, (Until<Fixed<16>, 32>, B)))),
    ),
);
