// A round entered together: an order of it, and what a list of orders does, defined.
#![tactic(auto)]

// An order of a round: who coordinates, how many bytes, where they go and the bytes; of which file, and for which club.
#[derive(Clone, Copy)]
pub struct Order {
    pub coordinator: u8,
    pub length: u8,
    pub offset: u16,
    pub bytes: [u8; 8],
    pub file: u8,
    pub club: u8,
}
