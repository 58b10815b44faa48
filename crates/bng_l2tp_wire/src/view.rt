use arrayvec::ArrayVec;

/// An AVP (RFC 2661 section 4.1). `kind` is its Attribute Type, of the module `kind` where `vendor`, its Vendor ID, is 0, or
/// another. `value` has 1,017 octets at most; with `hidden` it is not what the AVP says, but hides it (section 4.3).
#[derive(Clone, Copy)]
pub struct Avp<'a> {
    /// M: who does not know the AVP ends the call or the tunnel.
    pub mandatory: bool,
    /// H: the value is hidden.
    pub hidden: bool,
    /// The four reserved bits, 0 to 15. They are written as 0, and an AVP that has another value is to be treated as one that
    /// is not known.
    pub reserved: u8,
    pub vendor: u16,
    pub kind: u16,
    pub value: &'a [u8],
}

impl<'a> Default for Avp<'a> {
    fn default() -> Avp<'a> {
        Avp {
            mandatory: false,
            hidden: false,
            reserved: 0,
            vendor: 0,
            kind: 0,
            value: &[],
        }
    }
}

/// A control message (RFC 2661 section 3.1). One without AVPs is a ZLB, which only acknowledges (section 5.8).
#[derive(Drop)]
pub struct Control<'a> {
    /// The receiver's Tunnel ID, 0 where it is not known yet.
    pub tunnel: u16,
    /// The receiver's Session ID, 0 in a message of the tunnel.
    pub session: u16,
    /// The number of this message.
    pub ns: u16,
    /// The number of the message that is expected next.
    pub nr: u16,
    pub avps: ArrayVec<Avp<'a>, 64>,
}

/// A data message (RFC 2661 section 3.1): the receiver's Tunnel ID and Session ID, and a PPP frame without Address and Control.
#[derive(Clone, Copy)]
pub struct Data<'a> {
    pub tunnel: u16,
    pub session: u16,
    pub ppp: &'a [u8],
}
