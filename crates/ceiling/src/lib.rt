//! Laws about the steps of finger lists over the sweep of a height grid.
#![tactic(auto)]

ghost use Rattle.ceiling.specs.Laws.{EqualSteps, SameSteps, Ceiling};

use heights::height::Height;

// Over all rows of a grid the mileages of finger lists sum up to at most 4 r + 1 times the grid's roughness.
pub fn ceiling_holds<H: Height>()
    ensures { Ceiling H.Height.not_higher }
{}

// The same row of two grids whose cells compare alike takes finger lists equal steps.
pub fn equal_steps_hold<H: Height, K: Height>()
    ensures { EqualSteps H.Height.not_higher K.Height.not_higher }
{}

// The same row of one grid takes any two finger lists the same steps, bare or under a layer.
pub fn same_steps_hold<H: Height>()
    ensures { SameSteps H.Height.not_higher }
{}
