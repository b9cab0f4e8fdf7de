// What is printed of a line, and of a store at the end.
use crate::answer::Answer;
use crate::line::Line;
use crate::trouble::Trouble;
use crate::view::sorted_arcs;
use std::fmt;
use triple::Store;

// Prints what a line answered, or why it was not carried out.
pub fn tell<R: Print, O, A: fmt::Display + Drop, F: fmt::Display + Drop>(
    rt: &R,
    line: &Line<O>,
    res: Result<A, Trouble<F>>,
) -> anyhow::Result<()> {
    let text = line.text;
    match res {
        Ok(answer) => println!(rt; "{text}: {answer}")?,
        Err(Trouble::Unreadable(expected)) => {
            let number = line.number;
            println!(rt; "line {number}: {text}: expected {expected}; nothing was done")?;
        }
        Err(Trouble::Failed(failure)) => println!(rt; "{text}: {failure}; nothing was done")?,
        Err(Trouble::NoMemory(error)) => return Err(error.into()),
    }
    Ok(())
}

// The whole store, node by node.
pub fn list<R: Print + AllocGlobal, S: Store>(rt: &R, store: &S) -> anyhow::Result<()> {
    let nodes = store.node_count();
    let total = store.total();
    let capacity = store.capacity();
    println!(rt; "store: {nodes} nodes, {total} of {capacity} triples")?;
    for node in 0..nodes {
        let arcs = Answer::Arcs(sorted_arcs(rt.alloc(), store, node)?);
        println!(rt; "node {node}: {arcs}")?;
    }
    Ok(())
}
