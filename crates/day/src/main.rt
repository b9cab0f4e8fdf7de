// Runs a script over a house graph, and prints what each call answers.
#![tactic(auto)]

mod answer;
mod batch;
mod call_answer;
mod call_lines;
mod command;
mod day;
mod failure;
mod listing;
mod pages;
mod store_calls;
mod tally;

use command::is_house;
use script::{read_line, read_script};
use store_calls::run_lines;

// The lines of one house are held at a time.
fn read_and_run(rt: &HostRuntime) -> anyhow::Result<()> {
    let text = read_script(rt)?;
    let mut house = Vec::new(rt.alloc());
    for (index, line) in text.lines().enumerate() {
        let Some(line) = read_line(index, line) else {
            continue;
        };
        if is_house(&line) {
            run_lines(rt, house.as_slice())?;
            println!(rt; "house: a new house")?;
            house.clear();
        } else {
            house.push(line)?;
        }
    }
    run_lines(rt, house.as_slice())
}

fn main(rt: HostRuntime) -> anyhow::Result<()> {
    read_and_run(&rt)
}
