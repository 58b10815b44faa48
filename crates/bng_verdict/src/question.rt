use bng_auth::Credentials;
use bng_base::{Circuit, SessionNo};

/// The number of a question: of which session it is, and which of its shard's questions, from 1 on.
#[derive(Clone, Copy, PartialEq, Eq, Debug)]
pub struct QuestionNo {
    pub session: SessionNo,
    pub ask: u64,
}

/// The question of a session: is this the peer that it says it is? The circuit is that of the session.
#[derive(Drop)]
pub struct AuthAsk {
    pub number: QuestionNo,
    pub circuit: Circuit,
    pub credentials: Credentials,
}
