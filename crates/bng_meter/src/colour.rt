//! The colours of RFC 2697.

/// What the meter marks a packet with. Green and Yellow pass, Red is dropped.
#[derive(Debug, Clone, Copy, PartialEq, Eq)]
pub enum Colour {
    Green,
    Yellow,
    Red,
}
