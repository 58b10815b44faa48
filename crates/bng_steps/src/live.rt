//! What the terms of a shard that have no Stop yet carried, in all.
ghost use Rattle.std.specs.Prelude.{◌≡◌, ◌<◌, ◌^◌};
ghost use Rattle.bng_steps.specs.Live.{live_in};
ghost use Rattle.bng_steps.specs.TermRows.{rows_in};

use crate::terms::TermRow;
use bng_base::Book;

/// The octets and the packets of all these rows together, in each direction.
pub fn live(rows: &[TermRow]) -> Book
    requires input { (live_in (rows_in rows.now)).input < 2 ^ 64 }
    requires output { (live_in (rows_in rows.now)).output < 2 ^ 64 }
    requires input_packets { (live_in (rows_in rows.now)).input_packets < 2 ^ 64 }
    requires output_packets { (live_in (rows_in rows.now)).output_packets < 2 ^ 64 }
    ensures { result ≡ live_in (rows_in rows.now) }
{
    Book {
        input: rows.iter().map(|row| row.carried.input).sum(),
        output: rows.iter().map(|row| row.carried.output).sum(),
        input_packets: rows.iter().map(|row| row.carried.input_packets).sum(),
        output_packets: rows.iter().map(|row| row.carried.output_packets).sum(),
    }
}
