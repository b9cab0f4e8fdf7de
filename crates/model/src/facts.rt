// What is known of each node by itself, as lists of yes and no.

#[derive(Drop)]
pub struct Facts {
    pub literals: Vec<bool>,
    // all tests of node 0, then all tests of node 1, and so on
    pub passes: Vec<bool>,
    pub tests: usize,
}

impl Facts {
    pub fn literal(&self, node: u16) -> bool {
        self.literals
            .get(usize::from(node))
            .copied()
            .unwrap_or(false)
    }

    pub fn holds(&self, node: u16, test: u16) -> bool {
        let row = usize::from(node).saturating_mul(self.tests);
        let at = row.saturating_add(usize::from(test));
        usize::from(test) < self.tests && self.passes.get(at).copied().unwrap_or(false)
    }
}
