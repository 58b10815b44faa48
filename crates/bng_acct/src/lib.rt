//! Accounting (RFC 2866 and RFC 2869): the records of the terms, and the spool that keeps each until the server has it.
//!
//! A term is one authenticated use of a circuit. Its Start, its Interims and its Stop are formed by [`Spool::start`],
//! [`Spool::interim`] and [`Spool::stop`], handed out in the order in which they were formed by [`Spool::next`], each as
//! an Accounting-Request that is still to be numbered and signed, and kept until [`Spool::acked`]. `open` takes all the
//! memory that a spool needs. [`attributes`] and [`texts`] have what an Access-Request has in common with them.
#![tactic(auto)]

pub mod attributes;
mod facts;
mod held;
pub mod law;
mod line;
mod order;
mod queue;
mod record;
mod roster;
mod rules;
mod sheet;
mod sheets;
mod spares;
mod spool;
pub mod texts;
mod tree;

pub use crate::facts::{Moment, Record, RecordNo, StatusType, TermFacts};
pub use crate::held::Held;
pub use crate::rules::{AcctRules, SpoolError};
pub use crate::sheet::Sheet;
pub use crate::spool::Spool;
