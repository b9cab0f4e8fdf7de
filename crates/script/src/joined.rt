// Items of a list by their `Debug` texts, parted by blanks.
use std::fmt;

// With what stands where there is no item.
#[derive(Clone, Copy)]
pub struct Joined<'a, T> {
    pub items: &'a [T],
    pub none: &'static str,
}

impl<T: fmt::Debug> fmt::Display for Joined<'_, T> {
    fn fmt<W: fmt::Write>(&self, f: &mut fmt::Formatter<W>) -> fmt::Result {
        let Some((first, rest)) = self.items.split_first() else {
            return f.write_str(self.none);
        };
        write!(f, "{first:?}")?;
        for item in rest {
            write!(f, " {item:?}")?;
        }
        Ok(())
    }
}
