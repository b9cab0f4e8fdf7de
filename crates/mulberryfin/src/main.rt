// Runs a script over a house graph, and prints what each call answers.
#![tactic(auto)]

use script::{
    Description, OpenHouse, RunOver, Session, carry_out_text, list, read_script, run_described,
};
use std::convert::Infallible;
use triple::Store;
use values::{TermTable, ValueTest};

// What is done over a store: the calls, of which there may be none, and at the end the store is listed.
#[derive(Drop)]
struct Calls<'r, 'a> {
    rt: &'r HostRuntime,
    text: &'a str,
    first: Option<usize>,
}

impl RunOver for Calls<'_, '_> {
    fn run_over<S: Store + Drop>(&self, store: S, house: &mut Description) -> anyhow::Result<()> {
        let mut store = store;
        let values = TermTable::new(house.terms.as_slice(), house.tests.as_slice());
        self.run_calls(&mut store, &values, &mut house.session)?;
        list(self.rt, &store)
    }
}

impl Calls<'_, '_> {
    fn run_calls<S: Store, V: ValueTest>(
        &self,
        store: &mut S,
        values: &V,
        session: &mut Session,
    ) -> anyhow::Result<()> {
        let Some(first) = self.first else {
            return Ok(());
        };
        let mut open = OpenHouse {
            store,
            values,
            session,
        };
        carry_out_text(self.rt, &mut open, self.text, first)?;
        Ok(())
    }
}

fn read_and_run(rt: &HostRuntime) -> anyhow::Result<()> {
    let text = read_script(rt)?;
    let text = text.as_str();
    let mut house = Description::new(rt.alloc());
    let first = carry_out_text::<_, Infallible, _>(rt, &mut house, text, 0)?;
    run_described(rt, &Calls { rt, text, first }, &mut house)
}

fn main(rt: HostRuntime) -> anyhow::Result<()> {
    read_and_run(&rt)
}
