//! How long a term may last.
ghost use Rattle.std.specs.Prelude.{◌≡◌};
ghost use Rattle.bng_grant.specs.Grants.{gift};
ghost use Rattle.bng_steps.specs.Limits.{limits_of};

use bng_grant::Grant;
use bng_term::Limits;

/// For ever, and without Interims.
pub const NO_LIMITS: Limits = Limits {
    session_timeout: 0,
    idle_timeout: 0,
    interim: None,
};

/// As an Access-Accept says that gives this.
pub fn limits_of(grant: &Grant<'_>) -> Limits
    ensures { result ≡ limits_of (gift grant.now) }
{
    Limits {
        session_timeout: grant.session_timeout,
        idle_timeout: grant.idle_timeout,
        interim: grant.interim,
    }
}
