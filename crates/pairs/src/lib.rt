//! Laws of the counts of a height grid: how they add up, and how large they are.
#![tactic(auto)]

ghost use Rattle.pairs.specs.Pairs.{CountsAddUp, CountsBounded, PairsInOrder};

use heights::height::Height;

// The law that the counts of a grid add up to its cells, its pairs in reach and its level pairs in reach, at any type of
// height.
pub fn counts_add_up<H: Height>()
    ensures { CountsAddUp H.Height.not_higher }
{}

// The law that no count of a grid is larger than the grid, and that all together are at most its square, at any type of height.
pub fn counts_are_bounded<H: Height>()
    ensures { CountsBounded H.Height.not_higher }
{}

// The law that the pairs of cells of a grid are of two different cells, the earlier in reading order first.
pub fn pairs_are_in_order()
    ensures { PairsInOrder }
{}
