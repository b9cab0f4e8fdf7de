// How one node is checked against all labels, for a graph and a schema.
ghost use Rattle.std.specs.Prelude.{◌≡◌, ℕ, ◌≤◌, Decides};
ghost use Rattle.shapes.specs.Expr.{Schema};
ghost use Rattle.shapes.specs.Lists.{Member};
ghost use Rattle.shapes.specs.Typing.{Graph};
ghost use Rattle.refine.specs.Tables.{Checked};

// What a call leaves as it was stands in each `kept`: it speaks of two states, so no type can hold it.
pub trait NodeCheck {
    ghost schema: { Self → Schema };

    ghost graph: { Self → Graph };

    fn node_count(&self) -> u16
        ensures value { result ≡ (graph self.now).nodes }
        ensures bound { result ≤ 256 };

    fn label_count(&self) -> u8
        ensures value { result ≡ (schema self.now).labels }
        ensures bound { result ≤ 32 };

    // Which labels' definitions the node satisfies under the typing that the table shows, by label.
    fn satisfied(&mut self, typing: &[u8], node: u16) -> [bool; 32]
        ensures value { Checked (schema self.old) (graph self.old) typing.now node result }
        ensures kept { (schema self.new ≡ schema self.old) × (graph self.new ≡ graph self.old) };

    // Whether the node has an arc to the object.
    fn leads_to(&self, node: u16, object: u16) -> bool
        ensures { Decides result ((p : ℕ) × Member (p, object) ((graph self.now).arcs node)) };
}
