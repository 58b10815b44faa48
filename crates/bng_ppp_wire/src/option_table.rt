//! Tables of the options that a control protocol negotiates. Adding an option is adding its row.
ghost use Rattle.std.specs.Prelude.{◌≡◌, find};
ghost use Rattle.bng_ppp_wire.specs.MadeOption.{made_of};
ghost use Rattle.bng_ppp_wire.specs.OptionTable.{number_of, is_good, row_of, suggestion_of};

use crate::made_option::{MadeOpt, made};

/// How many octets an option's data have, which are a number with its most significant octet first.
#[derive(Clone, Copy)]
pub enum Width {
    Two,
    Four,
}

/// Which numbers are taken.
#[derive(Clone, Copy)]
pub enum Good {
    /// From the first to the second.
    Within(u32, u32),
    /// All but these two.
    Neither(u32, u32),
    /// This one alone.
    Only(u32),
}

/// An option that is negotiated.
#[derive(Clone, Copy)]
pub struct OptionRow {
    /// Its Type.
    pub kind: u8,
    pub width: Width,
    pub good: Good,
    /// The number that a Configure-Nak suggests. Of two octets it has the lowest two.
    pub suggestion: u32,
    /// Whether a Configure-Nak lists it where the request leaves it out.
    pub must_be_named: bool,
}

impl Default for OptionRow {
    /// What fills the unused places of a table.
    fn default() -> OptionRow {
        OptionRow {
            kind: 0,
            width: Width::Four,
            good: Good::Only(0),
            suggestion: 0,
            must_be_named: false,
        }
    }
}

// The number that these data are.
pub(crate) fn number(width: Width, value: &[u8]) -> Option<u32>
    ensures { result ≡ number_of width value.now }
{
    match (width, value) {
        (Width::Two, [high, low]) => Some(u32::from(u16::from_be_bytes([*high, *low]))),
        (Width::Four, [a, b, c, d]) => Some(u32::from_be_bytes([*a, *b, *c, *d])),
        _ => None,
    }
}

// The row of an option of this type.
pub(crate) fn row_for(rows: &[OptionRow], kind: u8) -> Option<OptionRow>
    ensures { result ≡ row_of rows.now kind }
{
    rows.iter().copied().find(|row| row.kind == kind)
}

impl Good {
    // Whether a number is taken.
    pub(crate) fn takes(&self, number: u32) -> bool
        ensures { result ≡ is_good self.now number }
    {
        match *self {
            Good::Within(least, most) => least <= number && number <= most,
            Good::Neither(first, second) => !(number == first || number == second),
            Good::Only(right) => number == right,
        }
    }
}

impl OptionRow {
    // The option that it suggests.
    pub(crate) fn suggested(&self) -> MadeOpt
        ensures { made_of result ≡ suggestion_of self.now }
    {
        let [a, b, c, d] = self.suggestion.to_be_bytes();
        match self.width {
            Width::Two => made(self.kind, &[c, d]),
            Width::Four => made(self.kind, &[a, b, c, d]),
        }
    }
}
