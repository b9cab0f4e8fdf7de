// A call on a validator, and its answer, each as a value.
ghost use Rattle.std.specs.Prelude.{◌≡◌};
ghost use Rattle.validate.specs.Faults.{code};
ghost use Rattle.replay.specs.Runs.{lent, proposed};
ghost use Rattle.replay.specs.declared.call.Answer.TheVariants.{Refused};

use refusal::{Fault, Layer};
use triple::Triple;
use validate::ValidatorFault;

// The first `given` of the strata are proposed, all of them if it is more than there are; the table has `room` bytes.
// An array and a count: scripts keep calls as values that they copy. The kit's `ArrayVec` is not `Copy`,
// and by a slice each list of calls would borrow the strata from a second list, which its maker has to keep.
#[derive(Clone, Copy, PartialEq, Eq, Debug)]
pub struct Sweep {
    pub strata: [u8; 33],
    pub given: u8,
    pub room: u16,
}

impl Sweep {
    pub(crate) fn proposed(&self) -> &[u8]
        ensures { result.now ≡ proposed self.now }
    {
        let given = usize::from(self.given).min(self.strata.len());
        &self.strata[..given]
    }
}

#[derive(Clone, Copy, PartialEq, Eq, Debug)]
pub enum Call {
    Add(Triple),
    Withdraw(Triple),
    Look(u16, u8),
    Held(u16, u8),
    Sweep(Sweep),
}

impl Call {
    /// How many bytes the table of the call takes.
    pub fn room(&self) -> u16
        ensures { result ≡ lent self.now }
    {
        match self {
            Call::Sweep(sweep) => sweep.room,
            _ => 0,
        }
    }
}

// A refusal has its layer and its number. No Result: the calls give four types, so it would hold these cases one level deeper.
#[derive(Clone, Copy, PartialEq, Eq, Debug)]
pub enum Answer {
    Accepted,
    Verdict(bool),
    Held(Option<bool>),
    Pairs(usize),
    Refused(Layer, u8),
}

impl From<ValidatorFault> for Answer {
    ghost from_gives = { λ fault r. r ≡ Refused (code fault).0 (code fault).1 };

    fn from(fault: ValidatorFault) -> Answer {
        Answer::Refused(fault.layer(), fault.number())
    }
}
