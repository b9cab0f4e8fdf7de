// The worked cases, and the comparison with all splits.
ghost use Rattle.std.specs.Prelude.{◌<◌, max};

use crate::cases::{schema, store, typing, values};
use crate::splits::meets;
use draft::TripleRow;
use node_check::{Checker, Scratch};
use std::test::Fail;

// Whether node 0 with these objects satisfies HOOD of a row.
fn answer(triples: &[TripleRow], hood: u8, objects: &[u16], scratch: &mut Scratch) -> Option<bool> {
    let Ok(tables) = schema(triples, hood) else {
        return None;
    };
    let Ok(store) = store(objects) else {
        return None;
    };
    let table = typing(&tables, &store, scratch);
    let values = values();
    let mut check = Checker {
        tables: &tables,
        store: &store,
        values: &values,
        scratch,
    };
    Some(check.satisfies(&table, 0, 0))
}

#[test]
fn an_arc_may_serve_either_row(rt: HostRuntime) {
    let rows = [
        TripleRow::Arc(0, 1),
        TripleRow::Arc(0, 2),
        TripleRow::Times(1, 0, None),
        TripleRow::Each(0, 2),
    ];
    let mut scratch = Scratch::new();
    assert_eq!(rt; answer(&rows, 3, &[3, 7], &mut scratch), Some(true));
    assert_eq!(rt; answer(&rows, 3, &[7, 3], &mut scratch), Some(true));
    assert_eq!(rt; answer(&rows, 3, &[7, 8], &mut scratch), Some(false));
    assert_eq!(rt; answer(&rows, 3, &[1, 2, 3, 8], &mut scratch), Some(true));
}

#[test]
fn two_or_three_arcs(rt: HostRuntime) {
    let rows = [TripleRow::Arc(0, 1), TripleRow::Times(0, 2, Some(3))];
    let mut scratch = Scratch::new();
    assert_eq!(rt; answer(&rows, 1, &[1], &mut scratch), Some(false));
    assert_eq!(rt; answer(&rows, 1, &[1, 2], &mut scratch), Some(true));
    assert_eq!(rt; answer(&rows, 1, &[1, 2, 3], &mut scratch), Some(true));
    assert_eq!(rt; answer(&rows, 1, &[1, 2, 3, 4], &mut scratch), Some(false));
}

#[test]
fn missing_nodes_and_labels(rt: HostRuntime) -> Result<(), Fail> {
    let mut scratch = Scratch::new();
    let Ok(tables) = schema(&[TripleRow::Empty], 0) else {
        return Err(Fail::new("refused"));
    };
    let Ok(store) = store(&[]) else {
        return Err(Fail::new("no store"));
    };
    let values = values();
    let mut check = Checker {
        tables: &tables,
        store: &store,
        values: &values,
        scratch: &mut scratch,
    };
    assert!(rt; check.satisfies(&[], 9, 0));
    assert!(rt; !check.satisfies(&[], 10, 0));
    assert!(rt; !check.satisfies(&[], 9, 3));
    assert!(rt; !check.satisfies(&[], 9, 255));
    Ok(())
}

// Pseudo-random numbers.
#[derive(Drop)]
struct Source {
    state: u32,
}

impl Source {
    fn below(&mut self, bound: u8) -> u8
        ensures { result < max bound 1 }
    {
        self.state = self.state.wrapping_mul(1664525).wrapping_add(1013904223);
        let [_, _, _, high] = self.state.to_le_bytes();
        high % bound.max(1)
    }

    // A row that names rows below r.
    fn row(&mut self, r: u8) -> TripleRow {
        let kinds = if r == 0 { 3 } else { 8 };
        match self.below(kinds) {
            0 => TripleRow::Empty,
            1 => TripleRow::Arc(0, 1),
            2 => TripleRow::Arc(0, 2),
            3 | 4 => TripleRow::Each(self.below(r), self.below(r)),
            5 => TripleRow::Some(self.below(r), self.below(r)),
            _ => {
                let least = self.below(2);
                let most = if self.below(2) == 0 {
                    None
                } else {
                    Some(least.wrapping_add(self.below(3)))
                };
                TripleRow::Times(self.below(r), least, most)
            }
        }
    }

    // Three different nodes.
    fn objects(&mut self) -> [u16; 3] {
        let first = u16::from(self.below(10));
        let second = first + 1 + u16::from(self.below(4));
        let third = second + 1 + u16::from(self.below(4));
        [first % 10, second % 10, third % 10]
    }
}

#[test]
fn as_by_all_splits(rt: HostRuntime) {
    let mut scratch = Scratch::new();
    let mut met = 0u32;
    for case in 0..300u32 {
        let mut source = Source {
            state: case.wrapping_mul(2654435761),
        };
        let rows = [source.row(0), source.row(1), source.row(2), source.row(3)];
        let objects = source.objects();
        let count = source.below(4);
        let chosen = [count > 0, count > 1, count > 2];
        let low = objects.map(|object| object <= 4);
        let expected = meets(5, &rows, 3, chosen, [low, [true, true, true]]);
        let given = answer(&rows, 3, &objects[..usize::from(count)], &mut scratch);
        assert_eq!(rt; given, Some(expected));
        met = met.saturating_add(u32::from(expected));
    }
    assert!(rt; 60 < met && met < 240, "the cases are mixed");
}
