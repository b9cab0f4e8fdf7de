// The plain check of a node: a recursion over every split of its arcs.
use draft::{ShapeRow, TripleRow};
use tables::LawfulTables;
use triple::Store;
use values::ValueTest;

// Each call goes to a row with a smaller number or has fewer arcs left, so no chain of calls is longer.
const DEEPEST: u16 = 4000;

// A node with its arcs; a mask has a bit for each of them.
#[derive(Drop)]
struct Splits<'a> {
    tables: &'a LawfulTables,
    typing: &'a [u8],
    arcs: [(u8, u16); 12],
}

// The next smaller part of a mask; after the empty one comes the whole.
fn next_part(part: u16, mask: u16) -> u16 {
    part.wrapping_sub(1) & mask
}

fn part_count(mask: u16) -> u32 {
    1 << mask.count_ones()
}

impl Splits<'_> {
    // Whether the mask is one arc, with its property in the set and its object of the label.
    fn admits(&self, set: u8, label: u8, mask: u16) -> bool {
        if mask.count_ones() != 1 {
            return false;
        }
        // No `usize::from` takes a u32.
        let Some((property, object)) = self.arcs.get(mask.trailing_zeros() as usize) else {
            return false;
        };
        let Some(properties) = self.tables.sets().get(usize::from(set)) else {
            return false;
        };
        let start = usize::from(*object).saturating_mul(self.tables.definitions().len());
        let place = start.saturating_add(usize::from(label));
        properties.contains(*property) && matches!(self.typing.get(place), Some(1))
    }

    // Whether the arcs of the mask meet the row.
    #[cycle(meets_meets_each_meets_times)]
    fn meets(&self, depth: u16, row: u8, mask: u16) -> bool {
        if depth == 0 {
            return false;
        }
        match self.tables.triples().get(usize::from(row)).copied() {
            None => false,
            Some(TripleRow::Empty) => mask == 0,
            Some(TripleRow::Arc(set, label)) => self.admits(set, label, mask),
            Some(TripleRow::Each(a, b)) => self.meets_each(depth - 1, a, b, mask),
            Some(TripleRow::Some(a, b)) => {
                self.meets(depth - 1, a, mask) || self.meets(depth - 1, b, mask)
            }
            Some(TripleRow::Times(a, least, most)) => {
                self.meets_times(depth - 1, a, least, most, mask)
            }
        }
    }

    // Whether some part of the mask meets the one row and the rest the other.
    #[cycle(meets_meets_each_meets_times)]
    fn meets_each(&self, depth: u16, a: u8, b: u8, mask: u16) -> bool {
        if depth == 0 {
            return false;
        }
        let mut part = mask;
        // Timed: a closure for each part would be timed too.
        for _ in 0..part_count(mask) {
            if self.meets(depth - 1, a, part) && self.meets(depth - 1, b, mask ^ part) {
                return true;
            }
            part = next_part(part, mask);
        }
        false
    }

    // Whether the mask splits into parts that meet the row, as many as the bounds allow.
    #[cycle(meets_meets_each_meets_times)]
    fn meets_times(&self, depth: u16, row: u8, least: u8, most: Option<u8>, mask: u16) -> bool {
        if depth == 0 || (most == Some(0) && mask != 0) {
            return false;
        }
        if mask == 0 {
            return least == 0 || self.meets(depth - 1, row, 0);
        }
        let fewer = most.map(|most| most.saturating_sub(1));
        let first = mask & mask.wrapping_neg();
        let mut part = mask;
        // Timed: a closure for each part would be timed too.
        for _ in 0..part_count(mask) {
            if part & first != 0
                && self.meets(depth - 1, row, part)
                && self.meets_times(depth - 1, row, least.saturating_sub(1), fewer, mask ^ part)
            {
                return true;
            }
            part = next_part(part, mask);
        }
        false
    }

    // Whether the shape row holds at the node.
    fn holds<V: ValueTest>(&self, depth: u16, row: u8, values: &V, node: u16, whole: u16) -> bool {
        if depth == 0 {
            return false;
        }
        match self.tables.shapes().get(usize::from(row)).copied() {
            None => false,
            Some(ShapeRow::Value(test)) => values.holds(node, test),
            Some(ShapeRow::Hood(e)) => self.meets(DEEPEST, e, whole),
            Some(ShapeRow::And(a, b)) => {
                self.holds(depth - 1, a, values, node, whole)
                    && self.holds(depth - 1, b, values, node, whole)
            }
            Some(ShapeRow::Or(a, b)) => {
                self.holds(depth - 1, a, values, node, whole)
                    || self.holds(depth - 1, b, values, node, whole)
            }
            Some(ShapeRow::Not(a)) => !self.holds(depth - 1, a, values, node, whole),
        }
    }
}

// Whether the node satisfies the label's definition under the typing.
pub fn satisfies_by_splits<'a, S: Store, V: ValueTest>(
    tables: &'a LawfulTables,
    store: &S,
    values: &V,
    typing: &'a [u8],
    node: u16,
    label: u8,
) -> bool {
    let Some(row) = tables.definitions().get(usize::from(label)) else {
        return false;
    };
    let mut arcs = [(0, 0); 12];
    let mut whole = 0u16;
    for (slot, place) in arcs.iter_mut().zip(0..12u8) {
        if let Some(arc) = store.arc(node, place) {
            *slot = arc;
            whole = whole.wrapping_mul(2) | 1;
        }
    }
    let splits = Splits {
        tables,
        typing,
        arcs,
    };
    splits.holds(DEEPEST, *row, values, node, whole)
}
