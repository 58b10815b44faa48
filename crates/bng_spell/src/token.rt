//! Fields: what stands between two separators.
ghost use Rattle.std.specs.Prelude.{◌≡◌, ◌≢◌, IfSome, IfNone, List, ℕ};
ghost use Rattle.bng_spell.specs.Plain.{ArePlain};

/// What a field tells.
pub(crate) trait Token: Drop {
    ghost fits: { Self → Type 0 };

    ghost name: { Self → List ℕ };

    /// What this field tells, if it is one.
    fn of(field: &[u8]) -> Option<Self>
        ensures found { IfSome result (λ v. fits v × (field.now ≡ name v)) }
        ensures none { IfNone result ((v : Self) → fits v → field.now ≢ name v) };

    ghost plain: { (v : Self) → fits v → ArePlain (name v) };

    ghost injective: { (v w : Self) → fits v → fits w → name v ≡ name w → v ≡ w };
}
