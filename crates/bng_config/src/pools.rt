//! The pools of addresses.
ghost use Rattle.std.specs.Prelude.{◌≡◌, ◌<◌, IfOk, IfErr};
ghost use Rattle.toml.specs.View.{view};
ghost use Rattle.bng_schema.specs.Keys.{entries};
ghost use Rattle.bng_schema.specs.Checks.{IsSound};
ghost use Rattle.bng_config.specs.Configuration.{AreEntries, IsPool};

use crate::fault::ConfigError;
use crate::values::{address_of, label_of};
use bng_base::{NamedRange, Range};
use bng_schema::{Field, Key, Table, entries_of};
use std::alloc::Global;
use toml::Value;

/// The pools of a document that breaks no rule.
pub(crate) fn pools_of(alloc: Global, document: &Value) -> Result<Vec<NamedRange>, ConfigError>
    requires { IsSound (view document.now) }
    ensures found { IfOk result (λ pools. AreEntries (view document.now) Table.Pool (IsPool (view document.now)) pools.items) }
    ensures memory { IfErr result (λ e. e ≡ ConfigError.OutOfMemory) }
{
    let count = entries_of(document, Table::Pool);
    let mut pools = Vec::new(alloc);
    for place in 0..count {
        let pool = pool_at(document, place);
        pools.push(pool)?;
    }
    Ok(pools)
}

fn pool_at(document: &Value, place: usize) -> NamedRange
    requires sound { IsSound (view document.now) }
    requires there { place < entries (view document.now) Table.Pool }
    ensures { IsPool (view document.now) place result }
{
    let name = label_of(document, Key::Of(Field::PoolName, place));
    let first = address_of(document, Key::Of(Field::PoolFirst, place));
    let last = address_of(document, Key::Of(Field::PoolLast, place));
    NamedRange {
        name,
        range: Range { first, last },
    }
}
