//! The layers that ask questions of a call.
// Which layer denies a call.
#[derive(Clone, Copy, PartialEq, Eq, Debug)]
pub enum Layer {
    Reader,
    Kind,
    Counter,
    Console,
    Box,
}
