//! Heights in whole metres, stored again as binary32 numbers.
#![tactic(auto)]

pub mod call;
pub mod law;
pub mod pattern;
pub mod store;

pub use call::convert_call;
pub use law::converted_calls_match;
pub use pattern::float_pattern;
pub use store::store_as_float;
