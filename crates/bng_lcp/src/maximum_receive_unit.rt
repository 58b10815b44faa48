ghost use Rattle.std.specs.Prelude.{◌≡◌};
ghost use Rattle.bng_lcp.specs.Judgement.{is_mru_within as within};

use crate::option::LEAST_MRU;

/// Whether a Maximum-Receive-Unit is taken.
pub fn is_mru_within(limit: u16, mru: u16) -> bool
    ensures { result ≡ within limit mru }
{
    LEAST_MRU <= mru && mru <= limit
}
