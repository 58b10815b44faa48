use arrayvec::ArrayVec;

/// A RADIUS packet (RFC 2865 section 3). `code` is one of `codes`, or another.
#[derive(Drop)]
pub struct Radius<'a> {
    pub code: u8,
    /// The Identifier, which pairs a reply with its request.
    pub id: u8,
    pub authenticator: [u8; 16],
    pub attributes: ArrayVec<Attribute<'a>, 64>,
}

/// An attribute (RFC 2865 section 5). `kind` is its type, one of `kinds` or another; the value has 253 octets at most.
#[derive(Clone, Copy)]
pub struct Attribute<'a> {
    pub kind: u8,
    pub value: &'a [u8],
}

impl<'a> Default for Attribute<'a> {
    fn default() -> Attribute<'a> {
        Attribute {
            kind: 0,
            value: &[],
        }
    }
}
