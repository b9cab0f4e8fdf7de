// Sweeps of whole houses.
use crate::cases::Case;
use crate::houses::{House, TESTS};
use crate::report::{Measured, print_measured};
use crate::rounds::sweep_by_rounds;
use crate::timing::{CallTime, ROUNDS};
use anyhow::anyhow;
use chain::ChainStore;
use node_check::Scratch;
use rows::RowStore;
use schema::Schema;
use std::time::Instant;
use triple::Store;
use validate::Validate;
use validator::Validator;
use values::{TermTable, ValueTest};

// A byte for each pair of 256 nodes and 8 labels.
pub const TABLE: usize = 2048;

#[derive(Clone, Copy)]
enum StoreKind {
    Chain,
    Rows,
}

// The part of a table that a house has pairs for.
fn pairs<'a>(table: &'a mut [u8; TABLE], nodes: u16, labels: usize) -> &'a mut [u8] {
    let size = usize::from(nodes).saturating_mul(labels).min(TABLE);
    &mut table[0..size]
}

pub fn strata_of(schema: &Schema) -> anyhow::Result<[u8; 32]> {
    let mut strata = [0; 32];
    match schema.strata(&mut strata) {
        Ok(_) => Ok(strata),
        Err(_) => Err(anyhow!("there are too many labels")),
    }
}

// The time of a sweep by a new validator, and how many pairs it found.
pub fn time_sweep<S: Store + Drop, V: ValueTest + Drop>(
    rt: &HostRuntime,
    schema: Schema,
    store: S,
    values: V,
    table: &mut [u8],
) -> anyhow::Result<(CallTime, usize)> {
    let strata = strata_of(&schema)?;
    let mut validator = Validator::new(schema, store, values);
    let start = Instant::now(rt)?;
    let answer = validator.sweep(&strata, table);
    let time = start.elapsed(rt)?;
    match answer {
        Ok(count) => Ok((CallTime::of(time, 1), count)),
        Err(_) => Err(anyhow!("a sweep is refused")),
    }
}

// The time of the plain sweep, and how many pairs it found.
fn time_plain<S: Store, V: ValueTest>(
    rt: &HostRuntime,
    schema: &Schema,
    store: &S,
    values: &V,
    table: &mut [u8],
    scratch: &mut Scratch,
) -> anyhow::Result<(CallTime, usize)> {
    let strata = strata_of(schema)?;
    let start = Instant::now(rt)?;
    let count = sweep_by_rounds(schema.tables(), store, values, &strata, table, scratch);
    Ok((CallTime::of(start.elapsed(rt)?, 1), count))
}

// One round: both sweeps of the house, over a store that has no triple yet.
fn sweep_round<S: Store + Drop>(
    rt: &HostRuntime,
    house: House,
    empty: S,
    values: TermTable,
    scratch: &mut Scratch,
) -> anyhow::Result<Measured> {
    let mut store = empty;
    house.fill(&mut store)?;
    let schema = house.schema()?;
    let labels = schema.label_count();
    let mut expected = [0; TABLE];
    let table = pairs(&mut expected, house.nodes(), labels);
    let (plain, known) = time_plain(rt, &schema, &store, &values, table, scratch)?;
    let mut found = [0; TABLE];
    let table = pairs(&mut found, house.nodes(), labels);
    let (time, count) = time_sweep(rt, schema, store, values, table)?;
    Ok(Measured {
        time,
        plain,
        yes: count,
        same: count == known && found == expected,
    })
}

fn measure(rt: &HostRuntime, house: House, kind: StoreKind) -> anyhow::Result<Measured> {
    let terms = house.terms();
    let values = TermTable::new(&terms, &TESTS);
    let mut scratch = Scratch::new();
    let mut best = Measured::NONE;
    for _ in 0..ROUNDS {
        let round = match kind {
            StoreKind::Chain => {
                let store = ChainStore::new(house.nodes());
                sweep_round(rt, house, store, values, &mut scratch)?
            }
            StoreKind::Rows => {
                let mut lent = [None; 1024];
                let store = RowStore::new(&mut lent, house.nodes());
                sweep_round(rt, house, store, values, &mut scratch)?
            }
        };
        best = best.and(round);
    }
    Ok(best)
}

pub fn run_sweep(rt: &HostRuntime, case: Case) -> anyhow::Result<()> {
    let (house, kind) = match case {
        Case::SweepRows => (House::Day, StoreKind::Rows),
        Case::SweepLine => (House::Line, StoreKind::Chain),
        Case::SweepLineRows => (House::Line, StoreKind::Rows),
        Case::SweepRing => (House::Ring, StoreKind::Chain),
        Case::SweepCrowd => (House::Crowd, StoreKind::Chain),
        _ => (House::Day, StoreKind::Chain),
    };
    print_measured(rt, case.name(), measure(rt, house, kind)?)
}
