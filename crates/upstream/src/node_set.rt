// Sets of nodes: a bit for each of 256.
ghost use Rattle.std.specs.Prelude.{◌≡◌, ℕ, ◌<◌, ◌⊎◌, ◌↔◌, IsNone, IfSome};
ghost use Rattle.upstream.specs.Nodes.{Has, unfilled};

#[derive(Clone, Copy)]
pub(crate) struct NodeSet {
    words: [u64; 4],
}

impl NodeSet {
    pub(crate) const NONE: NodeSet = NodeSet { words: [0; 4] };

    pub(crate) fn insert(&mut self, node: u16)
        requires { node < 256 }
        ensures change { (n : ℕ) → Has self.new n ↔ (Has self.old n ⊎ (n ≡ node)) }
        ensures fuller { ¬ Has self.old node → unfilled self.new < unfilled self.old }
    {
        self.words[usize::from(node / 64)] |= 1 << (node % 64);
    }

    // A node of this set that the other lacks.
    pub(crate) fn first_outside(&self, other: &NodeSet) -> Option<u16>
        ensures some { IfSome result (λ n. (n < 256) × Has self.now n × ¬ Has other.now n) }
        ensures none { IsNone result → (n : ℕ) → Has self.now n → Has other.now n }
    {
        for (place, &word) in self.words.iter().enumerate() {
            let left = word & !other.words[place];
            if left != 0 {
                return Some(64 * place as u16 + left.trailing_zeros() as u16);
            }
        }
        None
    }
}
