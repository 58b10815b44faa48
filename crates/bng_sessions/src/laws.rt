// What holds of a shard's sessions, whoever changes them.
ghost use Rattle.std.specs.Prelude.{◌≡◌, ◌≢◌, ◌+◌, ◌∷◌, ℕ, Some, None};
ghost use Rattle.std.specs.List.{sum_by};
ghost use Rattle.bng_sessions.specs.Sessions.{Sessions, value_at, used, with_value, without};
ghost use Rattle.bng_base.specs.Listed.{Same};
ghost use Rattle.bng_sessions.specs.Listed.{values};

use crate::slotted::Slotted;

/// A session number has what was put there last, and every other number what it had.
pub fn numbers_keep_their_values<V: Slotted>()
    ensures put { (s : Sessions V) (n : ℕ) (v : V) → value_at (with_value s n v) n ≡ Some v }
    ensures others_put { (s : Sessions V) (n : ℕ) (v : V) (m : ℕ) → m ≢ n → value_at (with_value s n v) m ≡ value_at s m }
    ensures removed { (s : Sessions V) (n : ℕ) → value_at (without s n) n ≡ None }
    ensures others_removed { (s : Sessions V) (n m : ℕ) → m ≢ n → value_at (without s n) m ≡ value_at s m }
    ensures replaced { (s : Sessions V) (n : ℕ) (v : V) → with_value (without s n) n v ≡ with_value s n v }
{}

/// The list of values by rising number has a value more where one was put, and one less where one was removed. So each sum and
/// each count over the sessions rises and falls by that value alone, and so does the number of used slots.
pub fn lists_change_by_one<V: Slotted>()
    ensures put { (s : Sessions V) (n : ℕ) (v : V) → value_at s n ≡ None → Same (values (with_value s n v)) (v ∷ values s) }
    ensures removed { (s : Sessions V) (n : ℕ) (v : V) → value_at s n ≡ Some v → Same (values s) (v ∷ values (without s n)) }
    ensures sum_put { (s : Sessions V) (n : ℕ) (v : V) (f : V → ℕ) → value_at s n ≡ None → sum_by f (values (with_value s n v)) ≡ sum_by f (values s) + f v }
    ensures sum_removed { (s : Sessions V) (n : ℕ) (v : V) (f : V → ℕ) → value_at s n ≡ Some v → sum_by f (values (without s n)) + f v ≡ sum_by f (values s) }
    ensures used_put { (s : Sessions V) (n : ℕ) (v : V) → value_at s n ≡ None → used (with_value s n v) ≡ used s + 1 }
    ensures used_removed { (s : Sessions V) (n : ℕ) (v : V) → value_at s n ≡ Some v → used (without s n) + 1 ≡ used s }
{}
