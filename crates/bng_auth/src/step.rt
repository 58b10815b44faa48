//! What a packet of a peer asks for.
use crate::credentials::Credentials;
use crate::reply::Reply;

/// What is to be done at a packet of a peer.
#[derive(Drop)]
pub enum AuthStep {
    /// A question: is this the peer?
    Ask(Credentials),
    /// The first reply is sent again, to this packet.
    Again(Reply),
    /// The name is empty or longer than 128 octets, or the password is longer than 128 octets: a refusal is due, and
    /// nothing is asked.
    Refuse,
    /// Nothing: the packet is none that counts, or its question is open.
    Ignore,
}
