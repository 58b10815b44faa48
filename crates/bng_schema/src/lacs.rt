//! The L2TP access concentrators, which need a tunnel.
ghost use Rattle.std.specs.Prelude.{◌≡◌, ◌↔◌, IsTrue};
ghost use Rattle.toml.specs.View.{view};
ghost use Rattle.bng_schema.specs.Lacs.{IsUntunnelled};

use crate::find::{entries_of, value_of};
use crate::keys::{Key, Table};
use toml::Value;

/// There are L2TP access concentrators, and there is no tunnel.
pub(crate) fn breaks_lac(document: &Value, key: Key) -> bool
    ensures { IsTrue result ↔ IsUntunnelled (view document.now) key }
{
    match key {
        Key::Whole(table) => is_untunnelled(document, table),
        Key::Of(_, _) => false,
    }
}

fn is_untunnelled(document: &Value, table: Table) -> bool
    ensures { IsTrue result ↔ IsUntunnelled (view document.now) (Key.Whole table) }
{
    match table {
        Table::Lac => has_no_tunnel(document),
        _ => false,
    }
}

fn has_no_tunnel(document: &Value) -> bool
    ensures { IsTrue result ↔ IsUntunnelled (view document.now) (Key.Whole Table.Lac) }
{
    1 <= entries_of(document, Table::Lac) && value_of(document, Key::Whole(Table::Tunnel)).is_none()
}
