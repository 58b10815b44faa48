//! The order of terms: by session, and of one session by number.
ghost use Rattle.std.specs.Prelude.{◌≡◌};
ghost use Rattle.bng_acct.specs.Roster.{before};

use bng_base::TermId;

/// Whether a term comes before another.
pub(crate) fn is_before(s: TermId, t: TermId) -> bool
    ensures { result ≡ before s t }
{
    s.session.0 < t.session.0 || (s.session.0 == t.session.0 && s.serial < t.serial)
}
