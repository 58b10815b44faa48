//! What is booked of an entry.
use bng_base::{Book, Entry, Fate};

/// What an entry came to: its fate before its sends, and what passed for it.
#[derive(Clone, Copy)]
pub struct Done {
    pub fate: Fate,
    pub passed: Book,
}

/// An entry, and what it came to. No value of it is made.
#[derive(Drop)]
pub struct Mark {
    pub entry: Entry,
    pub done: Done,
}
