//! What tell answers.
// The count of a cell and the number of cells in its window.
#[derive(Clone, Copy, PartialEq, Eq, Debug)]
pub struct Told {
    pub count: u32,
    pub cells: u32,
}
