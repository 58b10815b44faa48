ghost use Rattle.std.specs.Prelude.{◌≡◌};
ghost use Rattle.bng_lcp.specs.Judgement.{magic_from as magic_of};

/// A magic number of random octets, which is never 0.
pub fn magic_from(random: u32) -> u32
    ensures { result ≡ magic_of random }
{
    if random == 0 { 1 } else { random }
}
