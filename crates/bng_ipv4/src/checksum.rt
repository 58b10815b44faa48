ghost use Rattle.std.specs.Prelude.{◌≡◌, ◌≤◌, fold};
ghost use Rattle.bng_base.specs.Checksum.{end_around, words};

/// The one's complement sum of two words.
fn add(a: u16, b: u16) -> u16
    ensures { result ≡ end_around a b }
{
    let sum = u32::from(a) + u32::from(b);
    (sum % 65536 + sum / 65536) as u16
}

/// The one's complement sum of a start and the words of the octets.
pub(crate) fn sum_from(start: u16, bytes: &[u8]) -> u16
    ensures { result ≡ fold end_around start (words bytes.now) }
{
    let mut sum = start;
    let mut rest = bytes;
    while let [high, low, after @ ..] = rest {
        sum = add(sum, u16::from_be_bytes([*high, *low]));
        rest = after;
    }
    sum
}
