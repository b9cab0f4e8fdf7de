// Measures the library beside a plain second implementation; without an argument it lists its cases.
#![tactic(auto)]

mod cases;
mod checks;
mod houses;
mod looks;
mod report;
mod rounds;
mod schemas;
mod splits;
mod sweeps;
mod timing;

use anyhow::anyhow;
use cases::Case;
use checks::run_checks;
use looks::run_look;
use report::print_head;
use std::env;
use sweeps::run_sweep;
use timing::ROUNDS;

fn list(rt: &HostRuntime) -> anyhow::Result<()> {
    println!(rt; "the cases: `run` measures them all, `run NAME` those whose names begin so")?;
    for case in Case::ALL {
        let name = case.name();
        let text = case.text();
        let plain = case.plain();
        println!(rt; "{name:<26}{text}; plain: {plain}")?;
    }
    Ok(())
}

fn measure(rt: &HostRuntime, case: Case) -> anyhow::Result<()> {
    match case {
        Case::CheckTypical | Case::CheckNested | Case::CheckOverlap | Case::CheckUnadmitted => {
            run_checks(rt, case)
        }
        Case::LookAfterEdit | Case::EditAndLook | Case::LookRing => run_look(rt, case),
        _ => run_sweep(rt, case),
    }
}

// The cases whose names begin with the text.
fn measure_some(rt: &HostRuntime, begin: &str) -> anyhow::Result<()> {
    print_head(rt, ROUNDS)?;
    for case in Case::ALL {
        if case.name().starts_with(begin) {
            measure(rt, case)?;
        }
    }
    Ok(())
}

fn list_or_measure(rt: &HostRuntime) -> anyhow::Result<()> {
    let mut args = env::args(rt)?;
    let _program = args.next();
    match args.next() {
        None => list(rt),
        Some(word) if word.as_str() == "run" => match args.next() {
            None => measure_some(rt, ""),
            Some(begin) => measure_some(rt, begin.as_str()),
        },
        Some(_) => Err(anyhow!(
            "the first argument is `run`, and the second the begin of a case's name"
        )),
    }
}

fn main(rt: HostRuntime) -> anyhow::Result<()> {
    list_or_measure(&rt)
}
