// The pixels of a block of a drawn solid: the window of layers that their heights lie in, and each pixel's slopes at its
// visible sample, with the words that the block has.
#![tactic(auto)]

pub mod block;
pub mod pixels;
