// The plain sweep: every pair of a stratum is checked again in every round, until a round takes nothing out.
use node_check::{Checker, Scratch};
use tables::LawfulTables;
use triple::Store;
use values::ValueTest;

// Puts every pair of the stratum in.
fn raise(labels: usize, strata: &[u8], stratum: u8, table: &mut [u8]) {
    let labels = strata.iter().take(labels).cycle();
    for (byte, own) in table.iter_mut().zip(labels) {
        if *own == stratum {
            *byte = 1;
        }
    }
}

// Checks every pair of the label that is in; says whether one was taken out.
fn narrow<S: Store, V: ValueTest>(
    tables: &LawfulTables,
    store: &S,
    values: &V,
    label: u8,
    table: &mut [u8],
    scratch: &mut Scratch,
) -> bool {
    let labels = tables.definitions().len();
    let mut check = Checker {
        tables,
        store,
        values,
        scratch,
    };
    let mut taken = false;
    for node in 0..store.node_count() {
        let place = usize::from(node)
            .saturating_mul(labels)
            .saturating_add(usize::from(label));
        if table.get(place).copied() == Some(1) && !check.satisfies(table, node, label) {
            if let Some(byte) = table.get_mut(place) {
                *byte = 0;
            }
            taken = true;
        }
    }
    taken
}

// One round over the labels of the stratum; says whether a pair was taken out.
fn narrow_stratum<S: Store, V: ValueTest>(
    tables: &LawfulTables,
    store: &S,
    values: &V,
    strata: &[u8],
    stratum: u8,
    table: &mut [u8],
    scratch: &mut Scratch,
) -> bool {
    let mut taken = false;
    for (label, own) in (0..32u8).zip(strata) {
        if *own == stratum && narrow(tables, store, values, label, table, scratch) {
            taken = true;
        }
    }
    taken
}

// Takes pairs of the stratum out until all that are left are satisfied; each round but the last takes one of at most 8,192.
fn settle<S: Store, V: ValueTest>(
    tables: &LawfulTables,
    store: &S,
    values: &V,
    strata: &[u8],
    stratum: u8,
    table: &mut [u8],
    scratch: &mut Scratch,
) {
    for _ in 0..8193 {
        if !narrow_stratum(tables, store, values, strata, stratum, table, scratch) {
            return;
        }
    }
}

// Writes the maximal typing, a byte for each pair, and answers how many pairs it has.
pub fn sweep_by_rounds<S: Store, V: ValueTest>(
    tables: &LawfulTables,
    store: &S,
    values: &V,
    strata: &[u8],
    table: &mut [u8],
    scratch: &mut Scratch,
) -> usize {
    table.fill(0);
    for stratum in 1..=32u8 {
        raise(tables.definitions().len(), strata, stratum, table);
        settle(tables, store, values, strata, stratum, table, scratch);
    }
    table.iter().filter(|byte| **byte == 1).count()
}
