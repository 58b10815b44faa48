ghost use Rattle.std.specs.Prelude.{◌≡◌, ◌≤◌, ◌+◌, ◌*◌, ◌++◌, length};
ghost use Rattle.bng_base.specs.PppGrammar.{AreOptions, options_text};
ghost use Rattle.bng_ppp_wire.specs.MadeOption.{made_of, all_made_of};

use arrayvec::ArrayVec;
use bng_base::{Frame, ROOM};

/// A configuration option that was made here: its Type and its Data.
#[derive(Drop)]
pub struct MadeOpt {
    pub kind: u8,
    pub value: ArrayVec<u8, 4>,
}

impl Default for MadeOpt {
    /// What fills the unused places of a list.
    fn default() -> MadeOpt {
        MadeOpt {
            kind: 0,
            value: ArrayVec::new(),
        }
    }
}

/// An option of these octets.
pub fn made(kind: u8, octets: &[u8]) -> MadeOpt
    requires { length octets.now ≤ 4 }
    ensures { made_of result ≡ record { kind = kind; value = octets.now } }
{
    let Ok(value) = ArrayVec::try_from(octets) else {
        unreachable!();
    };
    MadeOpt { kind, value }
}

/// Writes the options after what the frame has, as the body of a packet has them.
pub fn put_made(made: &[MadeOpt], into: &mut Frame)
    requires { into.old.headroom + length into.old.payload + 6 * length made.now ≤ ROOM }
    ensures text { into.new.payload ≡ into.old.payload ++ options_text (all_made_of made.now) }
    ensures headroom { into.new.headroom ≡ into.old.headroom }
    ensures short { length into.new.payload ≤ length into.old.payload + 6 * length made.now }
    ensures again { AreOptions (all_made_of made.now) (options_text (all_made_of made.now)) }
{
    for option in made {
        let value = option.value.as_slice();
        into.put_back(&[option.kind, (2 + value.len()) as u8]);
        into.put_back(value);
    }
}
