use bng_base::Mac;

/// A PPPoE frame (RFC 2516 section 4): of the discovery stage (EtherType 8863) or of the session stage (8864), with its
/// CODE, one of `code` or another, its SESSION_ID and the LENGTH octets after its header.
#[derive(Clone, Copy)]
pub struct Pppoe<'a> {
    pub dst: Mac,
    pub src: Mac,
    pub discovery: bool,
    pub code: u8,
    pub session: u16,
    pub payload: &'a [u8],
}

/// A tag of a discovery frame (RFC 2516 section 4): its TAG_TYPE, one of `kind` or another, and its TAG_VALUE.
#[derive(Clone, Copy)]
pub struct Tag<'a> {
    pub kind: u16,
    pub value: &'a [u8],
}

impl<'a> Default for Tag<'a> {
    fn default() -> Tag<'a> {
        Tag {
            kind: 0,
            value: &[],
        }
    }
}
