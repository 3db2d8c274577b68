//! Texts of up to 32 MiB in blocks that are used again.
//!
//! `class` has the 85 classes of block sizes, `piece` the name of a placed text, `shelf` the blocks of one class,
//! `length` how the length of a text is kept there, and `region` the blocks of all classes: it places, reads and frees
//! texts, and counts the blocks that are in use and that were ever made. `laws` says that as many blocks were made as were
//! ever in use at once.
#![tactic(auto)]

mod class;
mod laws;
mod length;
mod piece;
mod region;
mod shelf;

pub use class::class_of;
pub use laws::made_is_the_peak;
pub use piece::Piece;
pub use region::Region;
