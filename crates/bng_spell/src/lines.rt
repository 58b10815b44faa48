//! How the lines of a round are written.
ghost use Rattle.std.specs.Prelude.{◌≡◌, ◌+◌, ◌++◌, ◌∷◌, [], ◌<◌, ◌^◌, ℕ, codes, length};
ghost use Rattle.std.specs.List.{flat_map};
ghost use Rattle.bng_spell.specs.Spelling.{Adds};
ghost use Rattle.bng_spell.specs.Lines.{head_line, entry_line, entry_lines, loose_line, refused_line, out_line};

use crate::block::Block;
use crate::parts::{Part, put_line};
use bng_base::{Entry, Item, Listed, Loose, OutRecord, RoundRecord};
use bng_plant::Sink;

// Writes the line of an entry of this shard.
fn put_entry<O: Sink>(out: &mut O, block: &mut Block, shard: u64, entry: &Entry)
    ensures { Adds (O.told out.old) (O.told out.new) block.old block.new (entry_line shard entry.now) }
{
    put_line(
        out,
        block,
        &[
            Part::Word("entry"),
            Part::Number(shard),
            Part::Number(u64::from(entry.seat)),
            Part::Number(u64::from(entry.place)),
            Part::Kind(entry.item.kind),
            Part::Peer(entry.item.from),
            Part::Flag(entry.item.cut),
            Part::Number(u64::from(entry.item.target)),
            Part::Number(entry.item.ask),
            Part::Fixed(&entry.item.random),
            Part::Octets(entry.item.frame.payload()),
        ],
        Part::Claim(entry.claim),
    );
}

// Writes the line of a loose item.
fn put_loose<O: Sink>(out: &mut O, block: &mut Block, loose: &Loose)
    ensures { Adds (O.told out.old) (O.told out.new) block.old block.new (loose_line loose.now) }
{
    put_line(
        out,
        block,
        &[
            Part::Word("loose"),
            Part::Number(u64::from(loose.seat)),
            Part::Number(u64::from(loose.place)),
            Part::Kind(loose.item.kind),
            Part::Peer(loose.item.from),
            Part::Flag(loose.item.cut),
            Part::Number(u64::from(loose.item.target)),
            Part::Number(loose.item.ask),
            Part::Fixed(&loose.item.random),
            Part::Octets(loose.item.frame.payload()),
        ],
        Part::Fate(loose.fate),
    );
}

// Writes the line of an item of a round that could not be opened.
fn put_refused<O: Sink>(out: &mut O, block: &mut Block, item: &Item)
    ensures { Adds (O.told out.old) (O.told out.new) block.old block.new (refused_line item.now) }
{
    put_line(
        out,
        block,
        &[
            Part::Word("refused"),
            Part::Kind(item.kind),
            Part::Peer(item.from),
            Part::Flag(item.cut),
            Part::Number(u64::from(item.target)),
            Part::Number(item.ask),
            Part::Fixed(&item.random),
        ],
        Part::Octets(item.frame.payload()),
    );
}

// Writes the line of an out.
fn put_out<O: Sink>(out: &mut O, block: &mut Block, sent: &OutRecord)
    ensures { Adds (O.told out.old) (O.told out.new) block.old block.new (out_line sent.now) }
{
    put_line(
        out,
        block,
        &[
            Part::Word("out"),
            Part::Number(u64::from(sent.shard)),
            Part::Number(u64::from(sent.seat)),
            Part::Number(u64::from(sent.place)),
            Part::Role(sent.role),
            Part::Peer(sent.to),
            Part::Flag(sent.sent),
        ],
        Part::Octets(sent.frame.as_slice()),
    );
}

// Writes the lines of the entries of a shard.
fn put_journal<O: Sink>(out: &mut O, block: &mut Block, shard: u64, journal: &[Entry])
    ensures { Adds (O.told out.old) (O.told out.new) block.old block.new (flat_map (entry_line shard) journal.now) }
{
    for entry in journal {
        put_entry(out, block, shard, entry);
    }
}

/// Writes the lines of the entries, by shard.
pub(crate) fn put_journals<O: Sink>(out: &mut O, block: &mut Block, journals: &[Listed<Entry>])
    ensures { Adds (O.told out.old) (O.told out.new) block.old block.new (entry_lines 0 journals.now) }
{
    for shard in 0..journals.len() {
        put_journal(out, block, shard as u64, journals[shard].as_slice());
    }
}

/// Writes the lines of the loose items.
pub(crate) fn put_loose_items<O: Sink>(out: &mut O, block: &mut Block, loose: &[Loose])
    ensures { Adds (O.told out.old) (O.told out.new) block.old block.new (flat_map loose_line loose.now) }
{
    for one in loose {
        put_loose(out, block, one);
    }
}

/// Writes the lines of the items of a round that could not be opened.
pub(crate) fn put_refused_items<O: Sink>(out: &mut O, block: &mut Block, refused: &[Item])
    ensures { Adds (O.told out.old) (O.told out.new) block.old block.new (flat_map refused_line refused.now) }
{
    for item in refused {
        put_refused(out, block, item);
    }
}

/// Writes the lines of the outs.
pub(crate) fn put_outs<O: Sink>(out: &mut O, block: &mut Block, outs: &[OutRecord])
    ensures { Adds (O.told out.old) (O.told out.new) block.old block.new (flat_map out_line outs.now) }
{
    for one in outs {
        put_out(out, block, one);
    }
}

/// Writes the first line of a round.
pub(crate) fn put_head<O: Sink>(out: &mut O, block: &mut Block, round: &RoundRecord)
    ensures { Adds (O.told out.old) (O.told out.new) block.old block.new (head_line round.now) }
{
    put_line(
        out,
        block,
        &[
            Part::Word("round"),
            Part::Number(round.number),
            Part::Number(round.moment),
            Part::Number(round.wall),
        ],
        Part::Numbers(round.allowances.as_slice()),
    );
}
