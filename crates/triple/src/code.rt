// The layer and the number that a fault of a store stands for.
ghost use Rattle.triple.specs.Faults.{code};

use crate::fault::StoreFault;
use refusal::{Fault, Layer};

impl Fault for StoreFault {
    ghost refusal = { code };

    fn number(&self) -> u8 {
        match self {
            StoreFault::NoSubject => 7,
            StoreFault::NoObject => 8,
            StoreFault::Present => 10,
            StoreFault::FullNode => 11,
            StoreFault::FullStore => 12,
            StoreFault::Absent => 13,
        }
    }

    fn layer(&self) -> Layer {
        Layer::Store
    }
}
