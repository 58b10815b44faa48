//! A message on its way out.
use crate::message::Message;

/// A control message that goes out, with its numbers (RFC 2661 section 3.1).
#[derive(Drop)]
pub struct Outgoing {
    pub ns: u16,
    pub nr: u16,
    pub message: Message,
}
