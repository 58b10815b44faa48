//! A block through which text goes to a sink.
ghost use Rattle.std.specs.Prelude.{◌≡◌, ◌≤◌, ◌+◌, ◌++◌, [], length, true, false};
ghost use Rattle.bng_spell.specs.Spelling.{Adds, Closes};

use bng_plant::{Sink, Wrote};
use std::marker::Model;

/// How many octets a block holds.
const BLOCK: usize = 8192;

/// Octets that are still to be written. Once the sink has failed nothing more is written, and what is put is dropped.
#[derive(Drop)]
pub(crate) struct Block {
    room: [u8; 8192],
    filled: usize,
    failed: bool,
}

impl Model for Block {
    ghost use Rattle.std.specs.Prelude.{◌≤◌, slice_range};
    ghost use Rattle.bng_spell.specs.Spelling.{Pending};

    ghost Value = { Pending };

    ghost view = { λ b. record { octets = slice_range b.room 0 b.filled; failed = b.failed } };

    ghost invariant = { λ b. b.filled ≤ 8192 };
}

impl Block {
    pub(crate) fn new() -> Block
        ensures octets { result.octets ≡ [] }
        ensures failed { result.failed ≡ false }
    {
        Block {
            room: [0; 8192],
            filled: 0,
            failed: false,
        }
    }

    fn has_failed(&self) -> bool
        ensures { result ≡ self.now.failed }
    {
        self.failed
    }

    fn as_slice(&self) -> &[u8]
        ensures { result.now ≡ self.now.octets }
    {
        &self.room[0..self.filled]
    }

    // For how many octets more there is room.
    fn room(&self) -> usize
        ensures { result + length self.now.octets ≡ BLOCK }
    {
        BLOCK - self.filled
    }

    fn clear(&mut self)
        ensures octets { self.new.octets ≡ [] }
        ensures failed { self.new.failed ≡ self.old.failed }
    {
        self.filled = 0;
    }

    fn fail(&mut self)
        ensures octets { self.new.octets ≡ [] }
        ensures failed { self.new.failed ≡ true }
    {
        self.filled = 0;
        self.failed = true;
    }

    // Appends a text for which there is room.
    fn push(&mut self, text: &[u8])
        requires { length self.old.octets + length text.now ≤ BLOCK }
        ensures octets { self.new.octets ≡ self.old.octets ++ text.now }
        ensures failed { self.new.failed ≡ self.old.failed }
    {
        let before = self.filled;
        self.filled += text.len();
        self.room[before..self.filled].copy_from_slice(text);
    }
}

// Writes what is pending.
fn flush<O: Sink>(out: &mut O, block: &mut Block)
    ensures adds { Adds (O.told out.old) (O.told out.new) block.old block.new [] }
    ensures empty { block.new.octets ≡ [] }
{
    if block.has_failed() {
        block.clear();
        return;
    }
    match out.write(block.as_slice()) {
        Wrote::Ok => block.clear(),
        Wrote::Failed => block.fail(),
    }
}

// Writes a text at once, behind which nothing is pending.
fn write_through<O: Sink>(out: &mut O, block: &mut Block, text: &[u8])
    requires { block.old.octets ≡ [] }
    ensures { Adds (O.told out.old) (O.told out.new) block.old block.new text.now }
{
    if block.has_failed() {
        return;
    }
    match out.write(text) {
        Wrote::Ok => {}
        Wrote::Failed => block.fail(),
    }
}

/// Puts a text behind what is pending, which is written first where the block has no room for it. A text longer than a block is
/// written at once.
pub(crate) fn put<O: Sink>(out: &mut O, block: &mut Block, text: &[u8])
    ensures { Adds (O.told out.old) (O.told out.new) block.old block.new text.now }
{
    if text.len() <= block.room() {
        block.push(text);
        return;
    }
    flush(out, block);
    if text.len() <= BLOCK {
        block.push(text);
    } else {
        write_through(out, block, text);
    }
}

/// Writes what is pending, and says whether all that was put was written.
pub(crate) fn close<O: Sink>(out: &mut O, block: &mut Block) -> Wrote
    ensures { Closes (O.told out.old) (O.told out.new) block.old result }
{
    flush(out, block);
    if block.has_failed() {
        Wrote::Failed
    } else {
        Wrote::Ok
    }
}
