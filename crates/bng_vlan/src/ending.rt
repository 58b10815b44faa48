/// How the reading of a trunk ended: with no answer that ends it, with Empty, or with Failed.
#[derive(Clone, Copy, PartialEq, Eq, Debug)]
pub enum Ending {
    Stopped,
    Dry,
    Broken,
}
