//! The laws of verdicts.
ghost use Rattle.std.specs.Prelude.{◌≡◌, ℕ, true, List, Option, Some};
ghost use Rattle.bng_radius_wire.specs.Codes.{access_accept};
ghost use Rattle.bng_radius_wire.specs.Grammar.{Packet, IsRadius};
ghost use Rattle.bng_verdict.specs.Verdicts.{Saying, IsVerdict};

/// Octets have one verdict: no two cases of the relation hold at once.
pub fn verdicts_are_one()
    ensures { (octets : List ℕ) (a b : Option Saying) → IsVerdict octets a → IsVerdict octets b → a ≡ b }
{}

/// A yes is said by an Access-Accept alone.
pub fn yes_is_an_accept()
    ensures { (octets : List ℕ) (v : Saying) → IsVerdict octets (Some v) → v.yes ≡ true
        → (p : Packet) × IsRadius p octets × (p.code ≡ access_accept) }
{}
