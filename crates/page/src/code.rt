// The layer and the number that a fault of a page stands for.
ghost use Rattle.page.specs.Faults.{code};

use crate::fault::PageFault;
use refusal::{Fault, Layer};

impl Fault for PageFault {
    ghost refusal = { λ fault. (code fault).0 };

    fn number(&self) -> u8 {
        match self {
            PageFault::Short => 18,
            PageFault::OtherCount => 19,
            PageFault::Fan(_) => 20,
            PageFault::Length => 21,
            PageFault::Add(_) => 22,
            PageFault::SmallBuffer => 23,
        }
    }

    fn layer(&self) -> Layer {
        Layer::Page
    }
}
