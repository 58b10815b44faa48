/// What a bind answers.
#[derive(Clone, Copy, PartialEq, Eq, Debug)]
pub enum Bound {
    Ok,
    Failed,
}

/// What a send answers. Sent says that the system took the datagram, and nothing of its arrival.
#[derive(Clone, Copy, PartialEq, Eq, Debug)]
pub enum Sending {
    Sent,
    Failed,
}

/// What a source of seeds answers.
#[derive(Clone, Copy, PartialEq, Eq, Debug)]
pub enum Seeded {
    Seed([u8; 32]),
    Failed,
}

/// Why a file was not read.
#[derive(Clone, Copy, PartialEq, Eq, Debug)]
pub enum FileError {
    Failed,
    OutOfMemory,
}

/// What a trace answers.
#[derive(Clone, Copy, PartialEq, Eq, Debug)]
pub enum Noted {
    Ok,
    Failed,
}

/// What a write answers: all octets were appended, or a front of them.
#[derive(Clone, Copy, PartialEq, Eq, Debug)]
pub enum Wrote {
    Ok,
    Failed,
}
