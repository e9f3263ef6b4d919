//! What a layer remembers: the height last asked and its answer.
ghost use Rattle.std.specs.Prelude.{◌≡◌, ◌≤◌, Some};
ghost use Rattle.heights.specs.Order.{level};
ghost use Rattle.flat_layer.specs.Memory.{after_put, after_take};

use heights::height::Height;

// A height that was asked, and how many held heights are not higher.
#[derive(Clone, Copy)]
pub(crate) struct Remembered<H> {
    pub(crate) height: H,
    pub(crate) count: u32,
}

impl<H: Height> Remembered<H> {
    // Whether the answer counts a height.
    fn counts(self, height: H) -> bool
        ensures { result ≡ H.Height.not_higher height self.height }
    {
        height.is_not_higher(self.height)
    }

    // Whether a height is level with the remembered one.
    pub(crate) fn is_level(self, height: H) -> bool
        ensures { result ≡ level H.Height.not_higher self.height height }
    {
        self.height.is_not_higher(height) && self.counts(height)
    }

    // What is remembered after a height was put: one more if the answer counts it, and never more than the places.
    pub(crate) fn after_put(mut self, height: H, places: usize) -> Remembered<H>
        requires { places ≤ 1048576 }
        ensures { Some result ≡ after_put H.Height.not_higher height places (Some self) }
    {
        if self.counts(height) {
            self.count = self.count.saturating_add(1).min(places as u32);
        }
        self
    }

    // What is remembered after a height was taken: one less if the answer counted it.
    pub(crate) fn after_take(mut self, height: H) -> Remembered<H>
        ensures { Some result ≡ after_take H.Height.not_higher height (Some self) }
    {
        if self.counts(height) {
            self.count = self.count.saturating_sub(1);
        }
        self
    }
}
