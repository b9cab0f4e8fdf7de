// The layer and the number that a fault of a validator stands for.
ghost use Rattle.validate.specs.Faults.{code};

use crate::fault::ValidatorFault;
use refusal::{Fault, Layer};

impl Fault for ValidatorFault {
    ghost refusal = { code };

    fn number(&self) -> u8 {
        match self {
            ValidatorFault::NoSubject | ValidatorFault::NoNode => 7,
            ValidatorFault::NoObject => 8,
            ValidatorFault::Literal => 9,
            ValidatorFault::NoLabel => 14,
            ValidatorFault::FewStrata => 15,
            ValidatorFault::NoStratification => 16,
            ValidatorFault::ShortTable => 17,
            ValidatorFault::Store(fault) => fault.number(),
        }
    }

    fn layer(&self) -> Layer {
        match self {
            ValidatorFault::Store(fault) => fault.layer(),
            _ => Layer::Validator,
        }
    }
}
