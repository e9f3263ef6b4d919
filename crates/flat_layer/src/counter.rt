//! The layer as a counter.
ghost use Rattle.std.specs.Prelude.{◌≡◌, Some};
ghost use Rattle.counters.specs.Held.{up_to};
ghost use Rattle.counters.specs.Calls.{Did, ask};
ghost use Rattle.flat_layer.specs.Memory.{recalled, Flat};
ghost use Rattle.flat_layer.specs.Layers.{layer_view, LayerSound};

use crate::layer::FlatLayer;
use crate::remembered::Remembered;
use counters::counter::{Asked, Counter, Refusal};

impl<C: Counter> Counter for FlatLayer<C> {
    type Kind = C::Kind;

    ghost view = { layer_view C.Counter };

    ghost sound = { LayerSound C.Kind.Height.not_higher C.Counter };

    // How many heights it can hold.
    fn places(&self) -> usize {
        self.counter.places()
    }

    // The sum of the steps told since begin.
    fn mileage(&self) -> u64 {
        self.counter.mileage()
    }

    // Empties the counter below and forgets the height last asked.
    fn begin(&mut self, first: C::Kind, asked: C::Kind) {
        self.counter.begin(first, asked);
        self.last = None;
    }

    // Adds a height below and corrects the remembered answer.
    fn put(&mut self, height: C::Kind) -> Result<u64, Refusal> {
        let steps = self.counter.put(height)?;
        let places = self.counter.places();
        self.last = self.last.map(|asked| asked.after_put(height, places));
        Ok(steps)
    }

    // Removes a height below and corrects the remembered answer.
    fn take(&mut self, height: C::Kind) -> Result<u64, Refusal> {
        let steps = self.counter.take(height)?;
        self.last = self.last.map(|asked| asked.after_take(height));
        Ok(steps)
    }

    // Tells the remembered answer at a height level with the one last asked; else asks below.
    fn ask(&mut self, height: C::Kind) -> Asked
        ensures done { LayerSound C.Kind.Height.not_higher C.Counter self.old → Did C.Kind.Height.not_higher (layer_view C.Counter self.old) (ask height) result.steps (layer_view C.Counter self.new) }
        ensures count { LayerSound C.Kind.Height.not_higher C.Counter self.old → result.count ≡ up_to C.Kind.Height.not_higher (layer_view C.Counter self.old).held height }
        ensures sound { LayerSound C.Kind.Height.not_higher C.Counter self.old → LayerSound C.Kind.Height.not_higher C.Counter self.new }
        ensures flat { Flat (recalled C.Kind.Height.not_higher height self.old.last) self.old.counter result self.new.counter }
        ensures remembers { self.new.last ≡ Some (record { height = height; count = result.count }) }
    {
        let asked = match self.last.filter(|asked| asked.is_level(height)) {
            Some(asked) => Asked {
                count: asked.count,
                steps: 0,
            },
            None => self.counter.ask(height),
        };
        let count = asked.count;
        self.last = Some(Remembered { height, count });
        asked
    }
}
