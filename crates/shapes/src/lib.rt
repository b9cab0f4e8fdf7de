// What a schema means: the theorems about typings, each on the contract of a function.
#![tactic(auto)]

ghost use Rattle.shapes.specs.Cases.{Cases};
ghost use Rattle.shapes.specs.Claims.{Greatest, StrataFree, Decided, Local, OrderFree, ReachedOnly, EditLocal, Refined, Stratifiable};

/// The typing up to a stratum is correct, and has every correct typing that agrees with it below.
pub fn greatest_stands()
    ensures { Greatest }
{}

/// The maximal typing is the same for every two stratifications.
pub fn strata_free_stands()
    ensures { StrataFree }
{}

/// A table shows the maximal typing.
pub fn decided_stands()
    ensures { Decided }
{}

/// Graphs that agree on a set of pairs closed under leaning have the same verdicts there.
pub fn local_stands()
    ensures { Local }
{}

/// The order of the arcs does not matter.
pub fn order_free_stands()
    ensures { OrderFree }
{}

/// A verdict rests on the nodes of the pairs reached by leaning alone.
pub fn reached_only_stands()
    ensures { ReachedOnly }
{}

/// A change at a node leaves the verdicts of every node that does not reach it.
pub fn edit_local_stands()
    ensures { EditLocal }
{}

/// Taking out what is not satisfied keeps the typing, and ends at it.
pub fn refined_stands()
    ensures { Refined }
{}

/// A schema can be stratified exactly if no negated reference lies on a cycle.
pub fn stratifiable_stands()
    ensures { Stratifiable }
{}

/// The worked cases come out as their table says.
pub fn cases_stand()
    ensures { Cases }
{}
