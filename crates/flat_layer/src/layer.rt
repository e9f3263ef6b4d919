//! The layer and how it is made.
ghost use Rattle.std.specs.Prelude.{◌≡◌};
ghost use Rattle.flat_layer.specs.Layers.{layer_view, LayerSound};
ghost use Rattle.counters.specs.Fingers.{by_fingers};

use crate::remembered::Remembered;
use counters::counter::Counter;

// A counter below, and the height last asked since begin with its answer.
#[derive(Drop)]
pub struct FlatLayer<C: Counter> {
    pub(crate) counter: C,
    pub(crate) last: Option<Remembered<C::Kind>>,
}

impl<C: Counter> FlatLayer<C> {
    // A layer that remembers nothing over a counter, whatever that one did before.
    pub fn over(counter: C) -> FlatLayer<C>
        ensures view { layer_view C.Counter result ≡ C.Counter.view counter }
        ensures sound { C.Counter.sound counter → LayerSound C.Kind.Height.not_higher C.Counter result }
        ensures below { result.counter ≡ counter }
    {
        FlatLayer {
            counter,
            last: None,
        }
    }

    // The counter below.
    pub fn into_inner(self) -> C
        ensures below { result ≡ self.counter }
        ensures fingers { by_fingers (layer_view C.Counter self).rule ≡ by_fingers (C.Counter.view result).rule }
    {
        self.counter
    }
}
