// A house once it is described: its store, and what a program does over it.
use crate::command::StoreKind;
use crate::description::Description;
use chain::ChainStore;
use rows::RowStore;
use triple::Store;

// What a program does with a house once it is described.
pub trait RunOver {
    // Carries out the lines behind the description over the house's store, which is still empty.
    fn run_over<S: Store + Drop>(&self, store: S, house: &mut Description) -> anyhow::Result<()>;
}

// Makes the store of a house that is described, and does over it what the program does.
pub fn run_described<R: AllocGlobal, P: RunOver>(
    rt: &R,
    program: &P,
    house: &mut Description,
) -> anyhow::Result<()> {
    match house.store.unwrap_or(StoreKind::Chain(0)) {
        StoreKind::Chain(nodes) => program.run_over(ChainStore::new(nodes), house),
        StoreKind::Rows(nodes, count) => {
            let mut rows = vec![in rt.alloc(); None; usize::from(count)]?;
            program.run_over(RowStore::new(rows.as_mut_slice(), nodes), house)
        }
    }
}
