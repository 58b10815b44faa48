//! The sessions of a shard that have ended, and leave at the settlement.
ghost use Rattle.std.specs.Prelude.{◌≡◌, ◌<◌, length, vec_capacity};
ghost use Rattle.bng_steps.specs.Listing.{with_listed};
ghost use Rattle.bng_steps.specs.State.{leaves};

use crate::session::Session;
use bng_base::SessionNo;

// Lists the number of a session that has ended.
pub fn list_leaving(leaving: &mut Vec<SessionNo>, session: &Session)
    requires room { length leaving.old.items < vec_capacity leaving.old }
    ensures items { leaving.new.items ≡ with_listed leaves session.now leaving.old.items }
    ensures capacity { vec_capacity leaving.new ≡ vec_capacity leaving.old }
{
    if session.has_ended() {
        leaving.push_reserved(session.number);
    }
}
