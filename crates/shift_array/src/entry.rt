//! The entries of a shift array.

// A distinct held height, and how many held heights are level with it. There is no `==` of entries: it would compare the bits
// of heights, and not heights.
#[derive(Clone, Copy, Debug)]
pub struct Entry<H> {
    pub height: H,
    pub number: u32,
}
