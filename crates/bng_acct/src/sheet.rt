use crate::facts::Record;

/// A record that is open, and whether it was handed out.
#[derive(Drop)]
pub struct Sheet {
    pub record: Record,
    pub handed: bool,
}
