//! Pieces of a text: a field with the separator behind it, and one piece behind another.
ghost use Rattle.std.specs.Prelude.{◌≡◌, ◌≢◌, ◌≤◌, ◌==◌, ◌++◌, ◌∷◌, [], ℕ, List, length, position, IsTrue, IfSome, IfNone, drop};
ghost use Rattle.bng_spell.specs.Plain.{is_separator};
ghost use Rattle.bng_spell.specs.Standing.{Stands, Lacks};
ghost use Rattle.bng_spell.specs.Codes.{until_once, pair_once};

use crate::token::Token;

/// What can stand in a text, so that what follows it does not matter.
pub(crate) trait Piece: Drop {
    ghost fits: { Self → Type 0 };

    ghost text: { Self → List ℕ };

    /// What stands at this place, and the place behind it.
    fn read(whole: &[u8], at: usize) -> Option<(Self, usize)>
        requires { at ≤ length whole.now }
        ensures found { IfSome result (λ p. fits p.0 × Stands whole.now at (text p.0) p.1) }
        ensures none { IfNone result (Lacks fits text whole.now at) };

    ghost splits: { (v w : Self) (x y : List ℕ) → fits v → fits w → text v ++ x ≡ text w ++ y → (v ≡ w) × (x ≡ y) };
}

/// A field, up to the first of this separator and with it.
#[derive(Drop)]
pub(crate) struct Until<T: Token, const STOP: u8>(pub(crate) T);

impl<T: Token, const STOP: u8> Piece for Until<T, STOP> {
    ghost fits = { λ u. T.fits u.0 × IsTrue (is_separator STOP) };

    ghost text = { λ u. T.name u.0 ++ STOP ∷ [] };

    ghost splits = { λ v w x y f g e.
        let r = until_once STOP (T.name v.0) (T.name w.0) x y f.1 (T.plain v.0 f.0) (T.plain w.0 g.0) e in
        (λ i. record { 0 = T.injective v.0 w.0 f.0 g.0 r.0 i }, r.1) };

    fn read(whole: &[u8], at: usize) -> Option<(Until<T, STOP>, usize)> {
        if !is_separator(STOP) {
            return None;
        }
        let rest = rest_of(whole, at);
        let length = place_of(rest, STOP)?;
        let value = T::of(&rest[..length])?;
        Some((Until(value), at + length + 1))
    }
}

/// What stands from this place on.
pub(crate) fn rest_of(whole: &[u8], at: usize) -> &[u8]
    requires { at ≤ length whole.now }
    ensures { result.now ≡ drop at whole.now }
{
    &whole[at..]
}

/// The place of the first of this octet.
pub(crate) fn place_of(octets: &[u8], octet: u8) -> Option<usize>
    ensures { result ≡ position (λ c. c == octet) octets.now }
{
    octets.iter().position(|c| *c == octet)
}

// Whether an octet stands in no field.
fn is_separator(c: u8) -> bool
    ensures { result ≡ is_separator c }
{
    c < 45 || c == 46 || c == 58
}

impl<A: Piece, B: Piece> Piece for (A, B) {
    ghost fits = { λ p. A.fits p.0 × B.fits p.1 };

    ghost text = { λ p. A.text p.0 ++ B.text p.1 };

    ghost splits = { λ v w x y f g e.
        let r = pair_once A.fits A.text B.fits B.text A.splits B.splits v.0 w.0 v.1 w.1 x y f.0 g.0 f.1 g.1 e in
        (λ i. (r.0 i, r.1.0 i), r.1.1) };

    fn read(whole: &[u8], at: usize) -> Option<((A, B), usize)> {
        let (first, next) = A::read(whole, at)?;
        let (second, next) = B::read(whole, next)?;
        Some(((first, second), next))
    }
}

/// The place behind this text, where it stands at this one.
pub(crate) fn literal(whole: &[u8], at: usize, text: &[u8]) -> Option<usize>
    requires { at ≤ length whole.now }
    ensures found { IfSome result (λ next. Stands whole.now at text.now next) }
    ensures none { IfNone result ((rest : List ℕ) → drop at whole.now ≢ text.now ++ rest) }
{
    let rest = rest_of(whole, at);
    if rest.starts_with(text) {
        Some(at + text.len())
    } else {
        None
    }
}
