ghost use Rattle.std.specs.Prelude.{◌≡◌, ◌≤◌, ◌<◌, ◌^◌, length};
ghost use Rattle.bng_desk.specs.Causes.{name_at};
ghost use Rattle.bng_desk.specs.Counting.{plus, with_fate, Within};
ghost use Rattle.bng_desk.specs.Round.{with_refused};

use bng_base::{DropCause, Fate};

/// The names of the causes of drops, by number. The report tells them in this order.
const NAMES: [&str; CAUSES] = [
    "Malformed",
    "NoSession",
    "NotOpen",
    "Expired",
    "Spoofed",
    "TooBig",
    "Exceeded",
    "LinkFailed",
    "WantOfMemory",
];

/// How many causes there are.
pub const CAUSES: usize = 9;

/// The name of the cause with this number.
pub(crate) fn name_of(number: usize) -> &'static str
    requires { number < CAUSES }
    ensures name { result.now ≡ name_at number }
    ensures short { length result.now ≤ 20 }
{
    NAMES[number]
}

/// How many items were dropped, by the number of the cause.
#[derive(Clone, Copy)]
pub struct Drops {
    pub counts: [u64; CAUSES],
}

/// No item was dropped yet.
pub(crate) const NO_DROPS: Drops = Drops {
    counts: [0; CAUSES],
};

/// Counts an item with this fate.
pub(crate) fn count(drops: &mut Drops, fate: Fate)
    requires { Within (2 ^ 63) drops.old }
    ensures { drops.new ≡ with_fate drops.old fate }
{
    if let Fate::Dropped(cause) = fate {
        drops.counts[cause.number()] += 1;
    }
}

/// Counts so many items of a round that was not opened.
pub(crate) fn count_refused(drops: &mut Drops, items: usize)
    requires within { Within (2 ^ 62) drops.old }
    requires few { items ≤ 2 ^ 62 }
    ensures { drops.new ≡ plus drops.old (with_refused items) }
{
    drops.counts[DropCause::WantOfMemory.number()] += items as u64;
}
