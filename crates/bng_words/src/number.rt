ghost use Rattle.std.specs.Prelude.{◌↔◌, IsTrue, ℕ};
ghost use Rattle.bng_words.specs.Meaning.{IsNumber};

/// Whether the text writes a number from 1 to this most in at most 13 decimal digits, without a sign.
pub(crate) fn is_number(text: &str, most: u64) -> bool
    ensures { IsTrue result ↔ ((n : ℕ) × IsNumber most text.now n) }
{
    if text.len() > 13 || text.as_bytes().first() == Some(&b'+') {
        return false;
    }
    match text.parse::<u64>() {
        Ok(n) => 1 <= n && n <= most,
        Err(_) => false,
    }
}
