// The parts of a mask, from the largest to the smallest: the mask itself down to 0.
ghost use Rattle.std.specs.Prelude.{◌≡◌, Some};
ghost use Rattle.std.specs.Iterator.{at_most};
ghost use Rattle.masks.specs.Submasks.{after, Gives};

#[derive(Clone, Debug, Drop)]
pub(crate) struct Submasks {
    whole: usize,
    next: Option<usize>,
}

impl Submasks {
    pub(crate) fn of(whole: usize) -> Submasks
        ensures whole { result.whole ≡ whole }
        ensures first { result.next ≡ Some whole }
    {
        Submasks {
            whole,
            next: Some(whole),
        }
    }
}

impl Iterator for Submasks {
    type Item = usize;

    ghost next_gives = { Gives };

    ghost remaining = { λ s. at_most (after s.next) };

    fn next(&mut self) -> Option<usize> {
        let mask = self.next?;
        self.next = if mask == 0 {
            None
        } else {
            Some((mask - 1) & self.whole)
        };
        Some(mask)
    }
}
