//! The profiles that subscribers are metered by, and a book of octets and packets for each.
//!
//! A profile is named by its place in the list that `Profiles::open` was given. `pass` counts a packet in the book of one
//! profile, input (from the subscriber) and output (towards the subscriber) apart, and `take_off` takes a packet off again
//! whose send failed. Each book holds exactly what passed and was not taken off, and no call changes another profile's
//! book.
#![tactic(auto)]

mod profiles;

pub use profiles::{ProfileError, Profiles};
