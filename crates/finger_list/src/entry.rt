//! The entries of a finger list.

// A distinct held height, how many held heights are level with it, and the entries above and below it in the order. The links are
// indices, since the entries lie in memory of a fixed size that is lent: no entry can own the next one without a heap.
// There is no `==`, since it would compare the bits and not the heights.
#[derive(Clone, Copy)]
pub struct Entry<H> {
    pub height: H,
    pub number: u32,
    pub next: usize,
    pub prev: usize,
}
