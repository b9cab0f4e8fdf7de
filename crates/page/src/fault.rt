// How loading or saving a page can fail.
ghost use Rattle.std.specs.Prelude.{◌≡◌};
ghost use Rattle.page.specs.declared.fault.PageFault.TheVariants.{Add};

use thiserror::Error;
use validate::ValidatorFault;

// An entry of a page, counted from 0, with the whole fault of its add.
#[derive(Clone, Copy, PartialEq, Eq, Debug)]
pub struct Entry {
    pub at: usize,
    pub fault: ValidatorFault,
}

#[derive(Clone, Copy, PartialEq, Eq, Debug, Error)]
pub enum PageFault {
    #[error("the page is too short for its nodes")]
    Short,
    #[error("the page is of another number of nodes")]
    OtherCount,
    #[error("node {0} has a fan above 12")]
    Fan(u16),
    #[error("the length of the page does not fit its fans")]
    Length,
    #[error("entry {at} was refused: {fault}", at = .0.at, fault = .0.fault)]
    Add(Entry),
    #[error("the buffer is too short for the page")]
    SmallBuffer,
}

impl From<Entry> for PageFault {
    ghost from_gives = { λ entry r. r ≡ Add entry };

    fn from(entry: Entry) -> PageFault {
        PageFault::Add(entry)
    }
}
