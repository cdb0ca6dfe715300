// Blocks for the examples.
use scan::{Block, Lengths};
use std::alloc::Global;
use std::test::Fail;

// A block of these values, of spacing 1.
pub(crate) fn block(heap: Global, sides: [u32; 3], values: &[u16]) -> Result<Block, Fail> {
    Ok(Block::new(sides.into(), [1; 3].into(), values.to_vec(heap)?)?)
}
