//! Denials of the box.
ghost use Rattle.std.specs.Prelude.{◌≡◌};
ghost use Rattle.siting_box.specs.Denials.{number, layer};

use grid::Place;
use heights::layer::Layer;

// Why a call was denied.
#[derive(Clone, Copy, PartialEq, Eq, Debug)]
pub enum Denial<C> {
    NoPlan,
    Sizes,
    TooFewRecords,
    Outside,
    StoredLength,
    Unread { cause: C, at: Place },
    NoRowLeft,
    TooFewPlaces,
    NotSwept,
    RowsLeft,
}

impl<C: Copy> Denial<C> {
    // The number of the question that was answered no.
    // A `match`, since a variant that holds a cause has no number of its own.
    pub fn number(self) -> u8
        ensures { result ≡ number self }
    {
        match self {
            Denial::NoPlan => 1,
            Denial::Sizes => 2,
            Denial::TooFewRecords => 3,
            Denial::Outside => 4,
            Denial::StoredLength => 5,
            Denial::Unread { .. } => 6,
            Denial::NoRowLeft => 7,
            Denial::TooFewPlaces => 8,
            Denial::NotSwept => 9,
            Denial::RowsLeft => 10,
        }
    }

    // The layer that asked it.
    pub fn layer(self) -> Layer
        ensures { result ≡ layer self }
    {
        match self {
            Denial::StoredLength => Layer::Reader,
            Denial::Unread { .. } => Layer::Kind,
            Denial::TooFewPlaces => Layer::Counter,
            _ => Layer::Box,
        }
    }
}
