//! The law of grants.
ghost use Rattle.std.specs.Prelude.{◌≡◌, ℕ, List, Option};
ghost use Rattle.bng_grant.specs.Grants.{Gift, IsGrant};

/// Octets have one grant: the relation has at most one answer for them.
pub fn grants_are_one()
    ensures { (octets : List ℕ) (a b : Option Gift) → IsGrant octets a → IsGrant octets b → a ≡ b }
{}
