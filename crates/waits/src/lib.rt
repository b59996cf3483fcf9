// How long a train waits for the blocks, and the block named, by the free times of a sheet and the beginnings of a hold record.
#![tactic(auto)]

mod block;
mod wait;

pub use block::block_named;
pub use wait::{later, longest_wait};
