//! Laws of two height grids, maybe with different types of height, whose cells compare alike: what is the same in both, and how
//! such grids are made.
#![tactic(auto)]

ghost use Rattle.agreement.specs.Ranking.{CountsAgree, NearestAgree, TotalsAgree, AlikeAltered, AlikeOpened};

use heights::height::Height;

// The laws that each cell of grids that are alike has the same window, count, share and nearest higher cell in both, and that
// the counts together and the level pairs are the same, at any two types of height.
pub fn grids_rank_alike<H: Height, G: Height>()
    ensures counts { CountsAgree H.Height.not_higher G.Height.not_higher }
    ensures nearest { NearestAgree H.Height.not_higher G.Height.not_higher }
    ensures totals { TotalsAgree H.Height.not_higher G.Height.not_higher }
{}

// The laws that lists of heights that compare alike give grids that are alike, and that such grids stay alike where one cell is
// altered in both and the new heights compare alike with all others, at any two types of height.
pub fn grids_stay_alike<H: Height, G: Height>()
    ensures opened { AlikeOpened H.Height.not_higher G.Height.not_higher }
    ensures changed { AlikeAltered H.Height.not_higher G.Height.not_higher }
{}
