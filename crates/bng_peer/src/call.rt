//! What a subscriber sends over L2TP: its PPP frames in data messages of its call (RFC 2661 section 5.4).
use crate::asking::Asking;
use crate::subscriber::Subscriber;
use bng_base::{Frame, Written};
use bng_l2tp_wire::Data;

impl Subscriber {
    /// The next data message that it sends, to this tunnel of the gateway.
    pub(crate) fn data_message(&mut self, tunnel: u16) -> Option<Frame> {
        let ppp = self.next_ppp()?;
        let message = Data {
            tunnel,
            session: self.session,
            ppp: ppp.payload(),
        };
        let mut frame = Frame::new();
        match message.write(&mut frame) {
            Written::Done | Written::Full => {}
        }
        Some(frame)
    }

    fn next_ppp(&mut self) -> Option<Frame> {
        if let Some(reply) = self.reply() {
            return Some(reply);
        }
        if self.asking != Asking::ToSend {
            return None;
        }
        self.request()
    }
}
