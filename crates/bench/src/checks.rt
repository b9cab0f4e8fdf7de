// One check of a node, for nodes with 0 to 12 arcs.
use crate::cases::Case;
use crate::houses::{TESTS, put_alike};
use crate::report::{Measured, print_measured};
use crate::schemas;
use crate::splits::satisfies_by_splits;
use crate::timing::{Work, time_both};
use chain::ChainStore;
use node_check::{Checker, Scratch};
use schema::Schema;
use tables::LawfulTables;
use values::{Term, TermKind, TermTable};

// Four nodes that have the same arcs, and the twelve objects.
const NODES: u16 = 16;

const TERMS: [Term; 16] = [Term {
    kind: TermKind::Iri,
}; 16];

// Every node has both labels.
const TYPING: [u8; 32] = [1; 32];

fn satisfies_by_masks(
    tables: &LawfulTables,
    store: &ChainStore,
    values: &TermTable,
    node: u16,
    scratch: &mut Scratch,
) -> bool {
    let mut check = Checker {
        tables,
        store,
        values,
        scratch,
    };
    check.satisfies(&TYPING, node, 0)
}

// The first four nodes are asked about in turn.
#[derive(Drop)]
struct ByMasks<'a> {
    schema: &'a Schema,
    store: &'a ChainStore,
    scratch: Scratch,
}

impl Work for ByMasks<'_> {
    fn call(&mut self, turn: u16) -> bool {
        let values = TermTable::new(&TERMS, &TESTS);
        let tables = self.schema.tables();
        satisfies_by_masks(tables, self.store, &values, turn % 4, &mut self.scratch)
    }
}

#[derive(Drop)]
struct BySplits<'a> {
    schema: &'a Schema,
    store: &'a ChainStore,
}

impl Work for BySplits<'_> {
    fn call(&mut self, turn: u16) -> bool {
        let values = TermTable::new(&TERMS, &TESTS);
        let tables = self.schema.tables();
        satisfies_by_splits(tables, self.store, &values, &TYPING, turn % 4, 0)
    }
}

// The properties of the arcs, from the first on.
fn properties(case: Case, fan: u16) -> [u8; 12] {
    match case {
        Case::CheckTypical => [2, 1, 1, 1, 1, 1, 1, 1, 1, 1, 1, 1],
        Case::CheckNested => [1, 2, 1, 2, 1, 2, 1, 2, 1, 2, 1, 2],
        Case::CheckUnadmitted => {
            let mut properties = [1; 12];
            if let Some(last) = properties.get_mut(usize::from(fan.saturating_sub(1))) {
                *last = 3;
            }
            properties
        }
        _ => [1; 12],
    }
}

fn schema(case: Case) -> anyhow::Result<Schema> {
    match case {
        Case::CheckTypical => schemas::typical(),
        Case::CheckNested => schemas::nested(),
        _ => schemas::overlap(),
    }
}

fn measure(rt: &HostRuntime, case: Case, fan: u16) -> anyhow::Result<Measured> {
    let schema = schema(case)?;
    let mut store = ChainStore::new(NODES);
    put_alike(&mut store, 4, fan, properties(case, fan))?;
    let mut by_masks = ByMasks {
        schema: &schema,
        store: &store,
        scratch: Scratch::new(),
    };
    let mut by_splits = BySplits {
        schema: &schema,
        store: &store,
    };
    let (library, plain) = time_both(rt, &mut by_masks, &mut by_splits)?;
    let answer = library.answer();
    Ok(Measured {
        time: library.best,
        plain: plain.best,
        yes: usize::from(answer == Some(true)),
        same: answer.is_some() && answer == plain.answer(),
    })
}

pub fn run_checks(rt: &HostRuntime, case: Case) -> anyhow::Result<()> {
    let name = case.name();
    for half in 0..7u16 {
        let fan = half * 2;
        let label = format!(in rt.alloc(); "{name}, {fan} arcs")?;
        let measured = measure(rt, case, fan)?;
        print_measured(rt, label.as_str(), measured)?;
    }
    Ok(())
}
