// Looks, beside a sweep of the whole house.
use crate::cases::Case;
use crate::houses::{House, TESTS};
use crate::report::{Measured, print_measured};
use crate::sweeps::{TABLE, time_sweep};
use crate::timing::{CallTime, ROUNDS};
use anyhow::anyhow;
use chain::ChainStore;
use std::time::Instant;
use triple::{Store, Triple};
use validate::Validate;
use validator::Validator;
use values::TermTable;

type ChainValidator<'a> = Validator<ChainStore, TermTable<'a>>;

// The running time of the first show's feature: two triples away from the show.
const RUNNING_TIME: Triple = Triple {
    subject: 128,
    property: 4,
    object: 180,
};

// The verdict on node 0 and label 0 by a sweep of a new validator, with or without the running time.
fn time_whole(
    rt: &HostRuntime,
    house: House,
    values: TermTable,
    complete: bool,
) -> anyhow::Result<(CallTime, bool)> {
    let mut store = house.chain_store()?;
    if !complete && store.take(RUNNING_TIME).is_err() {
        return Err(anyhow!("the running time is missing"));
    }
    let schema = house.schema()?;
    let mut table = [0; TABLE];
    let (time, _) = time_sweep(rt, schema, store, values, &mut table)?;
    Ok((time, table[0] == 1))
}

// Edits the running time, in or out, and looks at the first show; with the edit timed or not.
fn time_look(
    rt: &HostRuntime,
    validator: &mut ChainValidator,
    complete: bool,
    with_edit: bool,
) -> anyhow::Result<(CallTime, Option<bool>)> {
    let early = Instant::now(rt)?;
    let edit = if complete {
        validator.add(RUNNING_TIME)
    } else {
        validator.withdraw(RUNNING_TIME)
    };
    let late = Instant::now(rt)?;
    let verdict = validator.look(0, 0);
    let start = if with_edit { early } else { late };
    let time = CallTime::of(start.elapsed(rt)?, 1);
    match edit {
        Ok(()) => Ok((time, verdict.ok())),
        Err(_) => Ok((time, None)),
    }
}

// A look, refused or not, beside a sweep of the whole house.
fn beside(look: (CallTime, Option<bool>), whole: (CallTime, bool)) -> Measured {
    let (time, verdict) = look;
    let (plain, expected) = whole;
    Measured {
        time,
        plain,
        yes: usize::from(expected),
        same: verdict == Some(expected),
    }
}

fn measure_edit(rt: &HostRuntime, with_edit: bool) -> anyhow::Result<Measured> {
    let terms = House::Day.terms();
    let values = TermTable::new(&terms, &TESTS);
    let mut validator = Validator::new(House::Day.schema()?, House::Day.chain_store()?, values);
    let _ = validator.look(0, 0);
    let mut best = Measured::NONE;
    for round in 0..2 * ROUNDS {
        let complete = round % 2 == 1;
        let whole = time_whole(rt, House::Day, values, complete)?;
        let look = time_look(rt, &mut validator, complete, with_edit)?;
        best = best.and(beside(look, whole));
    }
    Ok(best)
}

// A look at node 0 by a new validator.
fn time_first_look(
    rt: &HostRuntime,
    house: House,
    values: TermTable,
) -> anyhow::Result<(CallTime, Option<bool>)> {
    let mut validator = Validator::new(house.schema()?, house.chain_store()?, values);
    let start = Instant::now(rt)?;
    let verdict = validator.look(0, 0);
    let time = CallTime::of(start.elapsed(rt)?, 1);
    Ok((time, verdict.ok()))
}

fn measure_ring(rt: &HostRuntime) -> anyhow::Result<Measured> {
    let terms = House::Ring.terms();
    let values = TermTable::new(&terms, &TESTS);
    let mut best = Measured::NONE;
    for _ in 0..ROUNDS {
        let whole = time_whole(rt, House::Ring, values, true)?;
        let look = time_first_look(rt, House::Ring, values)?;
        best = best.and(beside(look, whole));
    }
    Ok(best)
}

pub fn run_look(rt: &HostRuntime, case: Case) -> anyhow::Result<()> {
    let measured = match case {
        Case::LookRing => measure_ring(rt)?,
        Case::EditAndLook => measure_edit(rt, true)?,
        _ => measure_edit(rt, false)?,
    };
    print_measured(rt, case.name(), measured)
}
