//! The interface of a height kind.
ghost use Rattle.std.specs.Prelude.{◌≡◌, ℕ, ◌≤◌, Bool, List, Result};
ghost use Rattle.heights.specs.Order.{Preorder};
ghost use Rattle.heights.specs.Exact.{exactly};

// Why stored bytes are no height: they are not as many as the kind stores, or the kind names a cause. An enum of its own, since in an
// `Option` of a cause nothing would say what `None` is.
#[derive(Clone, Copy, PartialEq, Eq, Debug)]
pub enum Unread<C> {
    Length,
    Cause(C),
}

// A type of height with its order, "not higher than". Two laws are all that it asks; `Ord` also asks for three more traits and an
// equality, by which level heights would be equal.
pub trait Height: Copy {
    // whether the first height is not higher than the second
    ghost not_higher: { Self → Self → Bool };

    // Whether this height is not higher than the other.
    fn is_not_higher(self, other: Self) -> bool
        ensures { result ≡ not_higher self other };

    // any two heights compare, and the order is transitive
    ghost ordered: { Preorder not_higher };
}

// A height kind: heights that are stored in a fixed number of bytes.
pub trait HeightKind: Height {
    // How many bytes store a height.
    const WIDTH: usize;

    // Why so many bytes may be no height.
    type Cause: Copy;

    // how many bytes store a height
    ghost wide: { ℕ };

    // what so many bytes read as: a height, or the cause for not reading
    ghost reads: { List ℕ → Result Self Self.Cause };

    // The constant WIDTH.
    fn stored_width() -> usize
        ensures { result ≡ wide };

    // The height that the bytes store.
    fn read(bytes: &[u8]) -> Result<Self, Unread<Self::Cause>>
        ensures { result ≡ exactly wide reads bytes.now };

    // a stored height has 1 to 255 bytes
    ghost narrow: { (1 ≤ wide) × (wide ≤ 255) };
}
