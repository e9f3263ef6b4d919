//! Whole metres and binary32 numbers in calls.
ghost use Rattle.conversion.specs.Calls.{SameOrder, ConvertedMatch};

// The laws that whole metres compare as their binary32 numbers do, and that calls in whole metres match the converted calls.
#[tactic(auto, using(crate::proofs::Orders::same_order, crate::proofs::Matches::converted_match))]
pub fn converted_calls_match()
    ensures order { SameOrder }
    ensures calls { ConvertedMatch }
{}
