//! What is true of the texts themselves.
ghost use Rattle.std.specs.Prelude.{◌≡◌, ℕ, List, ◌++◌};
ghost use Rattle.std.specs.List.{AllByRecursion};
ghost use Rattle.bng_base.specs.declared.round.RoundRecord.{RoundRecord as Round};
ghost use Rattle.bng_spell.specs.Kept.{IsKept, IsKeptOpening};
ghost use Rattle.bng_spell.specs.Texts.{OpeningView, opening_text, round_text, trace_text, as_read};

/// No text of an opening begins another, and no text of a round does: where two texts begin alike, what they tell is the same, and
/// so is what follows. Two traces of the same text are the same opening and the same rounds.
pub fn one_form()
    ensures openings { (o p : OpeningView) (x y : List ℕ) → IsKeptOpening o → IsKeptOpening p → opening_text o ++ x ≡ opening_text p ++ y → (o ≡ p) × (x ≡ y) }
    ensures rounds { (r s : Round) (x y : List ℕ) → IsKept r → IsKept s → round_text r ++ x ≡ round_text s ++ y → (r ≡ s) × (x ≡ y) }
    ensures traces { (o p : OpeningView) (rs ss : List Round) → IsKeptOpening o → IsKeptOpening p → AllByRecursion IsKept rs → AllByRecursion IsKept ss → trace_text o rs ≡ trace_text p ss → (o ≡ p) × (rs ≡ ss) }
{}

/// A round is spelled as the same round without what its outs carry: whose packet that is is not in the text.
pub fn charges_are_not_spelled()
    ensures { (r : Round) → round_text (as_read r) ≡ round_text r }
{}
