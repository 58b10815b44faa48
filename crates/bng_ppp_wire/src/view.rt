/// A PPP frame (RFC 1661 section 2): the number of its protocol, one of `protocol` or another, and all that follows.
#[derive(Clone, Copy)]
pub struct Ppp<'a> {
    pub protocol: u16,
    pub info: &'a [u8],
}

/// A packet of LCP, IPCP, PAP or CHAP (RFC 1661 section 5): its Code, one of `code` or another, its Identifier and what
/// stands after Length.
#[derive(Clone, Copy, Debug)]
pub struct Packet<'a> {
    pub code: u8,
    pub id: u8,
    pub body: &'a [u8],
}

/// A configuration option (RFC 1661 section 6): its Type and its Data.
#[derive(Clone, Copy)]
pub struct Opt<'a> {
    pub kind: u8,
    pub value: &'a [u8],
}

impl<'a> Default for Opt<'a> {
    fn default() -> Opt<'a> {
        Opt {
            kind: 0,
            value: &[],
        }
    }
}
