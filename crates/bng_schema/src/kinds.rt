//! The ways to authenticate.
ghost use Rattle.std.specs.Prelude.{◌≡◌, ◌≢◌, ◌↔◌, [], ◌∷◌, IsTrue, IfSome, IfNone};
ghost use Rattle.arrayvec.specs.ArrayVec.{ArrayVec as Few};
ghost use Rattle.toml.specs.Data.{array, string};
ghost use Rattle.toml.specs.View.{view, items_view};
ghost use Rattle.bng_base.specs.declared.settings.AuthKind.{AuthKind as Kind};
ghost use Rattle.bng_schema.specs.Forms.{AreKinds, kind_text};
ghost use Rattle.bng_schema.specs.Rules.{HasWrongKinds};

use crate::keys::Form;
use arrayvec::ArrayVec;
use bng_base::AuthKind;
use toml::Value;

/// The ways to authenticate of a list of one or two of the texts `chap` and `pap`, none twice.
pub(crate) fn kinds_of(value: &Value) -> Option<ArrayVec<AuthKind, 2>>
    ensures found { IfSome result (λ k. AreKinds (view value.now) k) }
    ensures none { IfNone result ((k : Few Kind) → ¬ AreKinds (view value.now) k) }
{
    match value.as_array() {
        Some(list) => kinds_in(list.as_slice()),
        None => None,
    }
}

fn kinds_in(list: &[Value]) -> Option<ArrayVec<AuthKind, 2>>
    ensures found { IfSome result (λ k. AreKinds (array (items_view list.now)) k) }
    ensures none { IfNone result ((k : Few Kind) → ¬ AreKinds (array (items_view list.now)) k) }
{
    match list {
        [] => None,
        [only] => {
            let kind = kind_of(only)?;
            Some(one_kind(kind))
        }
        [first, second] => {
            let first = kind_of(first)?;
            let second = kind_of(second)?;
            if first == second {
                None
            } else {
                Some(two_kinds(first, second))
            }
        }
        _ => None,
    }
}

fn one_kind(kind: AuthKind) -> ArrayVec<AuthKind, 2>
    ensures { result.items ≡ kind ∷ [] }
{
    let mut kinds = ArrayVec::new();
    kinds.push(kind);
    kinds
}

/// The two, in this order.
pub fn two_kinds(first: AuthKind, second: AuthKind) -> ArrayVec<AuthKind, 2>
    ensures { result.items ≡ first ∷ second ∷ [] }
{
    let mut kinds = ArrayVec::new();
    kinds.push(first);
    kinds.push(second);
    kinds
}

// The text `chap` or `pap`.
fn kind_of(value: &Value) -> Option<AuthKind>
    ensures found { IfSome result (λ k. view value.now ≡ string (kind_text k)) }
    ensures none { IfNone result ((k : Kind) → view value.now ≢ string (kind_text k)) }
{
    match value.as_str() {
        Some("chap") => Some(AuthKind::Chap),
        Some("pap") => Some(AuthKind::Pap),
        _ => None,
    }
}

/// Where the form is a list of ways to authenticate: the value is none.
pub(crate) fn has_wrong_kinds(form: Form, value: &Value) -> bool
    ensures { IsTrue result ↔ HasWrongKinds form (view value.now) }
{
    match form {
        Form::KindList => kinds_of(value).is_none(),
        _ => false,
    }
}
