// Random calls, some of them to be refused.
use model::{Book, strata};
use replay::{Call, Sweep};
use triple::Triple;

// A sequence of numbers that looks random.
#[derive(Drop)]
pub(crate) struct Source {
    pub(crate) state: u32,
}

impl Source {
    pub(crate) fn below(&mut self, bound: u16) -> u16 {
        self.state = self.state.wrapping_mul(1664525).wrapping_add(1013904223);
        ((self.state >> 16) % u32::from(bound).max(1)) as u16
    }

    pub(crate) fn byte(&mut self, bound: u8) -> u8 {
        (self.below(u16::from(bound)) & 0xff) as u8
    }

    // One node in 16 is not in the store.
    fn node(&mut self, book: &Book) -> u16 {
        match self.below(16) {
            0 => book.nodes.saturating_add(self.below(2)),
            _ => self.below(book.nodes),
        }
    }

    // Every schema here has four labels; one label in 16 is missing.
    fn label(&mut self) -> u8 {
        match self.below(16) {
            0 => 4u8.saturating_add(self.byte(2)),
            _ => self.byte(4),
        }
    }

    fn triple(&mut self, book: &Book) -> Triple {
        Triple {
            subject: self.node(book),
            property: self.byte(4),
            object: self.node(book),
        }
    }

    // A triple that the book has, if it has any.
    fn present(&mut self, book: &Book) -> Triple {
        let at = self.below((book.triples.len() & 0x0fff) as u16);
        match book.triples.get(usize::from(at)) {
            Some(triple) => *triple,
            None => self.triple(book),
        }
    }

    // Most sweeps propose a stratification and have room.
    fn sweep(&mut self, book: &Book) -> Sweep {
        let shift = self.byte(4);
        let mut proposed = [0; 33];
        for (byte, stratum) in proposed.iter_mut().zip(strata(book.references.as_slice())) {
            *byte = stratum.saturating_add(shift);
        }
        let mut given = 33;
        let mut room = (book.held.marks().len() & 0xffff) as u16;
        match self.below(12) {
            0 => given = self.byte(6),
            1 => proposed[usize::from(self.byte(4) & 3)] = self.byte(40),
            2 => proposed[usize::from(self.byte(4) & 3)] = 0,
            3 => room = room.saturating_sub(1),
            4 => room = room.saturating_add(5),
            _ => {}
        }
        Sweep {
            strata: proposed,
            given,
            room,
        }
    }

    // With more triples than `crowd` a withdrawal stands in place of an add.
    pub(crate) fn call(&mut self, book: &Book, crowd: usize) -> Call {
        let crowded = book.triples.len() > crowd;
        match self.below(48) {
            0..=15 if crowded => Call::Withdraw(self.present(book)),
            0..=15 => Call::Add(self.triple(book)),
            16 | 17 => Call::Add(self.present(book)),
            18 | 19 | 20 => Call::Withdraw(self.present(book)),
            21 | 22 => Call::Withdraw(self.triple(book)),
            23..=31 => Call::Look(self.node(book), self.label()),
            32..=46 => Call::Held(self.node(book), self.label()),
            _ => Call::Sweep(self.sweep(book)),
        }
    }
}
