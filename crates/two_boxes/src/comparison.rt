//! How the comparison of two boxes ends.

// How it ends. An enum of its own, since in an `Option` nothing would say what `None` is.
#[derive(Clone, Copy, PartialEq, Eq, Debug)]
pub enum Comparison {
    // the lists are not equally long, or there is no counter, or no room for all answers; nothing was done
    NotComparable,
    // after each call the answers were equal less the steps, and so were the counts on record
    Agree,
    // so it was before the call with this number, and not after it
    Differ { call: usize },
}
