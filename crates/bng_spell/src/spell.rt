//! How a trace is spelled.
ghost use Rattle.std.specs.Prelude.{◌≡◌, [], codes};
ghost use Rattle.bng_spell.specs.Spelling.{Spells, Adds};
ghost use Rattle.bng_spell.specs.Texts.{opening_text, opening_view, round_text};

use crate::block::{Block, close, put};
use crate::lines::{put_head, put_journals, put_loose_items, put_outs, put_refused_items};
use crate::parts::{Part, put_line};
use bng_base::{Opening, RoundRecord};
use bng_plant::{Sink, Wrote};

/// Writes the two lines of an opening. It takes no memory. Where the sink fails, a front of the text was written.
pub fn spell_opening<O: Sink>(opening: &Opening, out: &mut O) -> Wrote
    ensures { Spells (O.told out.old) (O.told out.new) (opening_text (opening_view opening.entry.now)) result }
{
    let mut block = Block::new();
    put_opening(out, &mut block, opening);
    close(out, &mut block)
}

/// Writes the lines of a round up to its `end`. It takes no memory. Where the sink fails, a front of the text was written. Whose
/// packet an out carries is not spelled.
pub fn spell_round<O: Sink>(round: &RoundRecord, out: &mut O) -> Wrote
    ensures { Spells (O.told out.old) (O.told out.new) (round_text round.now) result }
{
    let mut block = Block::new();
    put_round(out, &mut block, round);
    close(out, &mut block)
}

fn put_opening<O: Sink>(out: &mut O, block: &mut Block, opening: &Opening)
    ensures { Adds (O.told out.old) (O.told out.new) block.old block.new (opening_text (opening_view opening.entry.now)) }
{
    put(out, block, b"bng-trace 1\n");
    put_line(
        out,
        block,
        &[
            Part::Word("opened"),
            Part::Number(opening.now),
            Part::Number(opening.wall),
            Part::Fixed(&opening.seed),
        ],
        Part::Octets(opening.configuration),
    );
}

fn put_round<O: Sink>(out: &mut O, block: &mut Block, round: &RoundRecord)
    ensures { Adds (O.told out.old) (O.told out.new) block.old block.new (round_text round.now) }
{
    put_head(out, block, round);
    put_journals(out, block, round.journals.as_slice());
    put_loose_items(out, block, round.loose.as_slice());
    put_refused_items(out, block, round.refused.as_slice());
    put_outs(out, block, round.outs.as_slice());
    put(out, block, b"end\n");
}
