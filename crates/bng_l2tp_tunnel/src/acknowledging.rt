/// How a message that was heard is acknowledged (RFC 2661 section 5.8).
#[derive(Clone, Copy)]
pub enum Acknowledging {
    /// There is nothing to acknowledge.
    Never,
    /// By a message that goes out, and where none does by a ZLB.
    ByAny,
    /// By a ZLB.
    ByZlb,
}
