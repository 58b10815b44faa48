//! Where the socket of a role stands.
ghost use Rattle.std.specs.Prelude.{◌<◌};
ghost use Rattle.bng_real.specs.Places.{IsOwn};

use bng_base::Role;

/// The place of Control, the first role that a turn reads.
pub(crate) const CONTROL: usize = 0;

/// The place of a role, which no other role has.
#[tactic(auto, using(crate::proofs::Roles::own))]
pub(crate) fn place_of(role: Role) -> usize
    ensures within { result < 262 }
    ensures own { IsOwn result role }
{
    match role {
        Role::Control => CONTROL,
        Role::Core => 1,
        Role::Auth => 2,
        Role::Acct => 3,
        Role::Tunnel => 4,
        Role::Coa => 5,
        Role::Access(port) => 6 + usize::from(port),
    }
}
