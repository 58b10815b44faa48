//! The configuration: what a TOML text says that the gateway serves by, over the grammar of `bng_schema`. `read` answers
//! what the text says, or the first rule that it breaks; the contract of `read` says the whole of it over the document.
#![tactic(auto)]

mod access;
mod changes;
mod circuits;
mod config;
mod ends;
mod fault;
mod gateway;
mod lacs;
mod pools;
mod profiles;
mod radius;
mod reading;
mod texts;
mod values;

pub use crate::config::Config;
pub use crate::fault::{ConfigError, Fault};
pub use crate::reading::read;
pub use crate::texts::{FaultText, fault_text};
