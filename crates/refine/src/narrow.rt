// Takes out of a table, at one stratum, the wanted pairs that are not satisfied, until all that are left are.
ghost use Rattle.std.specs.Prelude.{◌≡◌, ℕ, ◌<◌, ◌≤◌};
ghost use Rattle.shapes.specs.Lists.{Member};
ghost use Rattle.refine.specs.Narrowing.{Fits, Narrowed, Stable, Visited, Passed, Marked};

use crate::check::NodeCheck;
use crate::due::Due;
use crate::write::write_where;

const MAX_NODES: usize = triple::MAX_NODES as usize;

// Marks every node that has an arc to the object; one that is marked already is not asked.
fn mark_leading<C: NodeCheck>(check: &C, object: u16, marks: &mut [bool; MAX_NODES])
    ensures { Marked (λ n. (p : ℕ) × Member (p, object) ((C.NodeCheck.graph check.now).arcs n)) (C.NodeCheck.graph check.now).nodes marks.old marks.new }
{
    let nodes = usize::from(check.node_count());
    write_where(&mut marks[..nodes], true, |node, marked| {
        marked || check.leads_to(node as u16, object)
    });
}

// Checks one node and takes its mark away; where a byte is cleared, marks the nodes that lead to it.
fn narrow_node<C: NodeCheck>(
    check: &mut C,
    due: &Due,
    node: u16,
    marks: &mut [bool; MAX_NODES],
    typing: &mut [u8],
) -> bool
    requires node_bound { node < (C.NodeCheck.graph check.old).nodes }
    requires fits { Fits (C.NodeCheck.schema check.old) (C.NodeCheck.graph check.old) due.now typing.old }
    ensures kept { (C.NodeCheck.schema check.new ≡ C.NodeCheck.schema check.old) × (C.NodeCheck.graph check.new ≡ C.NodeCheck.graph check.old) }
    ensures change { Visited (C.NodeCheck.schema check.old) (C.NodeCheck.graph check.old) due.now result marks.old marks.new typing.old typing.new node }
{
    marks[usize::from(node)] = false;
    if !due.is_in(node, &typing[due.row(node)]) {
        return false;
    }
    let found = check.satisfied(typing, node);
    let cleared = due.clear(node, &found, &mut typing[due.row(node)]);
    if cleared {
        mark_leading(check, node, marks);
    }
    cleared
}

// Checks every marked node once; says whether a byte was cleared.
fn narrow_marked<C: NodeCheck>(
    check: &mut C,
    due: &Due,
    marks: &mut [bool; MAX_NODES],
    typing: &mut [u8],
) -> bool
    requires { Fits (C.NodeCheck.schema check.old) (C.NodeCheck.graph check.old) due.now typing.old }
    ensures kept { (C.NodeCheck.schema check.new ≡ C.NodeCheck.schema check.old) × (C.NodeCheck.graph check.new ≡ C.NodeCheck.graph check.old) }
    ensures change { Passed (C.NodeCheck.schema check.old) (C.NodeCheck.graph check.old) due.now result marks.old marks.new typing.old typing.new (C.NodeCheck.graph check.old).nodes }
{
    let mut cleared = false;
    // By number, not over the marks: the check of a node marks others.
    for node in 0..check.node_count() {
        if marks[usize::from(node)] {
            cleared |= narrow_node(check, due, node, marks, typing);
        }
    }
    cleared
}

// Takes out what is not satisfied until every due pair that is left is.
pub(crate) fn narrow<C: NodeCheck>(check: &mut C, due: &Due, typing: &mut [u8])
    requires { Fits (C.NodeCheck.schema check.old) (C.NodeCheck.graph check.old) due.now typing.old }
    ensures kept { (C.NodeCheck.schema check.new ≡ C.NodeCheck.schema check.old) × (C.NodeCheck.graph check.new ≡ C.NodeCheck.graph check.old) }
    ensures change { Narrowed (C.NodeCheck.schema check.old) (C.NodeCheck.graph check.old) due.now typing.old typing.new }
    ensures after { Stable (C.NodeCheck.schema check.old) (C.NodeCheck.graph check.old) due.now typing.new }
{
    let mut marks = [true; MAX_NODES];
    while narrow_marked(check, due, &mut marks, typing) {}
}
