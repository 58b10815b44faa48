/// How the reading of a role ended: at its number, at an empty answer, or at a failed one.
#[derive(Clone, Copy)]
pub enum ReadEnd {
    Full,
    Dry,
    Broken,
}
