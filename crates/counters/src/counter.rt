//! The interface of a counter.
ghost use Rattle.std.specs.Prelude.{◌≡◌, ℕ, ◌≤◌};
ghost use Rattle.counters.specs.Held.{up_to};
ghost use Rattle.counters.specs.Calls.{View, Did, Put, Take, ask, begun, refusal_number, refusal_layer};

use heights::height::Height;
use heights::layer::Layer;

// Why a counter refuses a call: it has no place left, or it holds no such height.
#[derive(Clone, Copy, PartialEq, Eq, Debug)]
pub enum Refusal {
    Full = 11,
    Missing = 12,
}

impl Refusal {
    // The number of the question that was answered no.
    pub fn number(self) -> u8
        ensures { result ≡ refusal_number self }
    {
        self as u8
    }

    // The layer that asked it.
    pub fn layer(self) -> Layer
        ensures { result ≡ refusal_layer self }
    {
        Layer::Counter
    }
}

// What ask tells: how many held heights are not higher, and its steps.
#[derive(Clone, Copy, PartialEq, Eq, Debug)]
pub struct Asked {
    pub count: u32,
    pub steps: u64,
}

// A counter of heights over memory that is lent to it.
pub trait Counter {
    type Kind: Height;

    // what a counter shows
    ghost view: { Self → View Self.Kind };

    // its memory is in order: so it is from begin on, and every call keeps it so; whoever makes a counter says that it is so too
    ghost sound: { Self → Type 0 };

    // How many heights it can hold.
    fn places(&self) -> usize
        ensures told { result ≡ (view self.now).places }
        ensures most { result ≤ 1048576 };

    // The sum of the steps told since begin, or since it was made where there was none.
    fn mileage(&self) -> u64
        ensures { result ≡ (view self.now).mileage };

    // Empties the counter; a row begins, whose first height put and first height asked are given.
    fn begin(&mut self, first: Self::Kind, asked: Self::Kind)
        ensures begins { view self.new ≡ begun (view self.old) first asked }
        ensures sound { sound self.new };

    // Adds a height and tells the steps.
    fn put(&mut self, height: Self::Kind) -> Result<u64, Refusal>
        ensures done { sound self.old → Put Self.Kind.Height.not_higher (view self.old) height result (view self.new) }
        ensures sound { sound self.old → sound self.new };

    // Removes one height level with the given one and tells the steps.
    fn take(&mut self, height: Self::Kind) -> Result<u64, Refusal>
        ensures done { sound self.old → Take Self.Kind.Height.not_higher (view self.old) height result (view self.new) }
        ensures sound { sound self.old → sound self.new };

    // Tells how many held heights are not higher than the given one, and the steps.
    fn ask(&mut self, height: Self::Kind) -> Asked
        ensures done { sound self.old → Did Self.Kind.Height.not_higher (view self.old) (ask height) result.steps (view self.new) }
        ensures count { sound self.old → result.count ≡ up_to Self.Kind.Height.not_higher (view self.old).held height }
        ensures sound { sound self.old → sound self.new };
}
