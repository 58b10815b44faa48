//! The grammar of the configuration: its tables and keys, what may stand at each, and the rules that a document may break.
//! `first_unknown` answers the first name that there is not, and `first_broken` the first rule that is broken, at the first
//! key at which it is; the readers answer what stands at a key.
#![tactic(auto)]

mod addresses;
mod circuits;
mod counts;
mod find;
mod first;
mod keys;
mod kinds;
mod lacs;
mod mac;
mod names;
mod numbers;
mod peer;
mod ranges;
mod rates;
mod repeats;
mod rule;
mod session;
mod table;
mod texts;
mod types;
mod unknown;
mod values;

pub use crate::find::{entries_of, integer_at, text_at, value_of};
pub use crate::first::first_broken;
pub use crate::keys::{Field, Form, Key, Table};
pub use crate::kinds::two_kinds;
pub use crate::numbers::{shards_of, terms_of};
pub use crate::repeats::known_text;
pub use crate::rule::{Rule, breaks};
pub use crate::table::{KeyEntry, TABLES, fields_of, is_listed, row_of};
pub use crate::unknown::{Unknown, first_unknown};
pub use crate::values::{
    address_at, addresses_at, kinds_at, label_at, mac_at, name_at, number_at, octets_at, peer_at,
    services_at, session_at,
};
