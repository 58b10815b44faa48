/// A round without its lists: its number, its moment in milliseconds and its second on the wall.
#[derive(Clone, Copy)]
pub struct Head {
    pub number: u64,
    pub moment: u64,
    pub wall: u64,
}
