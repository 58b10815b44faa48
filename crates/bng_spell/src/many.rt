//! Lines that are repeated.
ghost use Rattle.std.specs.Prelude.{◌≡◌, ◌<◌, ◌≤◌, ◌^◌, ◌++◌, ◌∷◌, [], ℕ, List, length, IfSome, IfNone, IfOk};
ghost use Rattle.std.specs.Fmt.{decimal};
ghost use Rattle.bng_spell.specs.Standing.{Stands, Lacks};
ghost use Rattle.bng_spell.specs.Kept.{IsEntry, IsLoose, IsItem, IsOut};
ghost use Rattle.bng_spell.specs.Lines.{entry_line, loose_line, refused_line, out_line};
ghost use Rattle.bng_spell.specs.Many.{AreLines};
ghost use Rattle.bng_spell.specs.Codes.{some_suc, some_push};

use crate::fields::{ItemFields, Long, Short};
use crate::numbers::Number;
use crate::piece::{Piece, Until, literal};
use bng_base::{Claim, Entry, Fate, Frame, Item, Loose, Octets, OutRecord, Peer, Role};
use std::alloc::{AllocError, Global};

// The fields of an out.
type OutFields = (
    Short,
    (
        Short,
        (
            Short,
            (
                Until<Role, 32>,
                (Peer, (Until<bool, 32>, Until<Octets, 10>)),
            ),
        ),
    ),
);

/// What a line stands in: the shard of its journal, and the moment of its round in milliseconds.
#[derive(Clone, Copy)]
pub(crate) struct Within {
    pub(crate) shard: u64,
    pub(crate) moment: u64,
}

impl Within {
    fn own_shard(self) -> u64
        ensures is { result ≡ self.shard }
        ensures small { result < 2 ^ 64 }
    {
        self.shard
    }
}

/// A line that is repeated.
pub(crate) trait Line: Drop {
    ghost use Rattle.bng_spell.specs.declared.many.Within.{Within};

    ghost fits: { Within → Self → Type 0 };

    ghost text: { Within → Self → List ℕ };

    /// The line that stands at this place, and the place behind it.
    fn read_line(within: Within, whole: &[u8], at: usize) -> Option<(Self, usize)>
        requires { at ≤ length whole.now }
        ensures found { IfSome result (λ p. fits within p.0 × Stands whole.now at (text within p.0) p.1) }
        ensures none { IfNone result (Lacks (fits within) (text within) whole.now at) };

    ghost some: { (within : Within) (v : Self) → 0 < length (text within v) };
}

/// The lines that stand from this place on, and the place behind the last of them.
pub(crate) fn many<L: Line>(
    alloc: Global,
    within: Within,
    whole: &[u8],
    at: usize,
) -> Result<(Vec<L>, usize), AllocError>
    requires { at ≤ length whole.now }
    ensures { IfOk result (λ p. AreLines (L.fits within) (L.text within) whole.now at p.0.items p.1) }
{
    let mut lines = Vec::new(alloc);
    let mut next = at;
    while let Some((line, after)) = L::read_line(within, whole, next) {
        lines.push(line)?;
        next = after;
    }
    Ok((lines, next))
}

impl Line for Entry {
    ghost fits = { λ w e. IsEntry w.moment e };

    ghost text = { λ w e. entry_line w.shard e };

    ghost some = { λ _ v. some_suc _ };

    fn read_line(within: Within, whole: &[u8], at: usize) -> Option<(Entry, usize)> {
        let wanted = within.own_shard();
        let at = literal(whole, at, b"entry ")?;
        let (fields, next) = <(
            Long,
            (Short, (Short, ItemFields<(Until<Frame, 32>, Claim)>)),
        )>::read(whole, at)?;
        let (shard, (seat, (place, fields))) = fields;
        let (kind, (from, (cut, (target, (ask, (random, (frame, claim))))))) = fields;
        if shard.0.0 != wanted {
            return None;
        }
        let random = random.0.0;
        let entry = Entry {
            seat: seat.0.0 as u16,
            place: place.0.0 as u16,
            moment: within.moment,
            item: Item {
                kind: kind.0,
                from,
                frame: frame.0,
                cut: cut.0,
                random,
                target: target.0.0 as u16,
                ask: ask.0.0,
            },
            claim,
        };
        Some((entry, next))
    }
}

impl Line for Loose {
    ghost fits = { λ _. IsLoose };

    ghost text = { λ _. loose_line };

    ghost some = { λ _ v. some_suc _ };

    fn read_line(_: Within, whole: &[u8], at: usize) -> Option<(Loose, usize)> {
        let at = literal(whole, at, b"loose ")?;
        let (fields, next) = <(
            Short,
            (Short, ItemFields<(Until<Frame, 32>, Until<Fate, 10>)>),
        )>::read(whole, at)?;
        let (seat, (place, fields)) = fields;
        let (kind, (from, (cut, (target, (ask, (random, (frame, fate))))))) = fields;
        let random = random.0.0;
        let loose = Loose {
            seat: seat.0.0 as u16,
            place: place.0.0 as u16,
            item: Item {
                kind: kind.0,
                from,
                frame: frame.0,
                cut: cut.0,
                random,
                target: target.0.0 as u16,
                ask: ask.0.0,
            },
            fate: fate.0,
        };
        Some((loose, next))
    }
}

impl Line for Item {
    ghost fits = { λ _. IsItem };

    ghost text = { λ _. refused_line };

    ghost some = { λ _ v. some_suc _ };

    fn read_line(_: Within, whole: &[u8], at: usize) -> Option<(Item, usize)> {
        let at = literal(whole, at, b"refused ")?;
        let (fields, next) = ItemFields::<Until<Frame, 10>>::read(whole, at)?;
        let (kind, (from, (cut, (target, (ask, (random, frame)))))) = fields;
        let random = random.0.0;
        let item = Item {
            kind: kind.0,
            from,
            frame: frame.0,
            cut: cut.0,
            random,
            target: target.0.0 as u16,
            ask: ask.0.0,
        };
        Some((item, next))
    }
}

impl Line for OutRecord {
    ghost fits = { λ _. IsOut };

    ghost text = { λ _. out_line };

    ghost some = { λ _ v. some_suc _ };

    fn read_line(_: Within, whole: &[u8], at: usize) -> Option<(OutRecord, usize)> {
        let at = literal(whole, at, b"out ")?;
        let (fields, next) = OutFields::read(whole, at)?;
        let (shard, (seat, (place, (role, (to, (sent, frame)))))) = fields;
        let out = OutRecord {
            shard: shard.0.0 as u16,
            seat: seat.0.0 as u16,
            place: place.0.0 as u16,
            role: role.0,
            to,
            frame: frame.0,
            charge: None,
            sent: sent.0,
        };
        Some((out, next))
    }
}

impl Line for u32 {
    ghost fits = { λ _ n. n < 2 ^ 32 };

    ghost text = { λ _ n. decimal n ++ 44 ∷ [] };

    ghost some = { λ _ n. some_push (decimal n) 44 };

    fn read_line(_: Within, whole: &[u8], at: usize) -> Option<(u32, usize)> {
        let (number, next) = Until::<Number<0xffff_ffff>, 44>::read(whole, at)?;
        Some((number.0.0 as u32, next))
    }
}
