// How a call on a validator can fail.
ghost use Rattle.std.specs.Prelude.{◌≡◌};
ghost use Rattle.validate.specs.declared.fault.ValidatorFault.TheVariants.{Store};

use thiserror::Error;
use triple::StoreFault;

#[derive(Clone, Copy, PartialEq, Eq, Debug, Error)]
pub enum ValidatorFault {
    #[error("the subject is not a node of the store")]
    NoSubject,
    #[error("the object is not a node of the store")]
    NoObject,
    #[error("the subject is a literal")]
    Literal,
    #[error("there is no such node")]
    NoNode,
    #[error("there is no such label")]
    NoLabel,
    #[error("there are fewer strata than labels")]
    FewStrata,
    #[error("the strata are no stratification")]
    NoStratification,
    #[error("the table has fewer bytes than pairs")]
    ShortTable,
    #[error("{0}")]
    Store(StoreFault),
}

impl From<StoreFault> for ValidatorFault {
    ghost from_gives = { λ fault r. r ≡ Store fault };

    fn from(fault: StoreFault) -> ValidatorFault {
        ValidatorFault::Store(fault)
    }
}
