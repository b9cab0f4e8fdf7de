// What a call refuses with.
ghost use Rattle.std.specs.Prelude.{◌≡◌};
ghost use Rattle.refusal.specs.Refusals.{Refusal};

use crate::Layer;

// A fault stands for the layer where the refusal arose, and its number.
pub trait Fault {
    ghost refusal: { Self → Refusal };

    fn layer(&self) -> Layer
        ensures { result ≡ (refusal self.now).0 };

    fn number(&self) -> u8
        ensures { result ≡ (refusal self.now).1 };
}
