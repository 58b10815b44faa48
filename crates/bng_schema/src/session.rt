//! The number of a session.
ghost use Rattle.std.specs.Prelude.{◌≡◌, ◌≢◌, ◌≤◌, pos, IfSome, IfNone};
ghost use Rattle.bng_base.specs.declared.address.SessionNo.{SessionNo as Number};
ghost use Rattle.bng_schema.specs.Names.{IsSessionOf};

use bng_base::SessionNo;

/// The session of this number: of one of this many shards, with an index of 1 to 1,022.
pub(crate) fn session_of(number: i64, shards: u16) -> Option<SessionNo>
    requires { shards ≤ 64 }
    ensures found { IfSome result (λ s. (number ≡ pos s.0) × IsSessionOf shards s.0) }
    ensures none { IfNone result ((s : Number) → IsSessionOf shards s.0 → number ≢ pos s.0) }
{
    if number < 0 || number > 65_535 {
        return None;
    }
    let number = number as u16;
    let index = number % 1024;
    if number / 1024 < shards && 1 <= index && index <= 1022 {
        Some(SessionNo(number))
    } else {
        None
    }
}
