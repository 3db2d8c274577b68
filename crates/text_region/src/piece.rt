// The name of a placed text.

/// A text that lies in a region: the block, by its class and its number there. A region gives it out when it places the text, and takes it
/// back when the text is freed. Anyone can make a piece of two numbers, so each call that takes one requires it to be live.
#[derive(Drop)]
pub struct Piece {
    /// The class of the block.
    pub class: u8,
    /// Its number among the blocks of the class, from 0.
    pub number: u32,
}
