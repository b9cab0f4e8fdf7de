// The memory of the chain store: 512 cells, and for each subject the chain of cells that hold its arcs.
ghost use Rattle.std.specs.Prelude.{◌≡◌, ℕ, ◌+◌, ◌<◌, ◌≤◌, true, false, length, slice_index};
ghost use Rattle.triple.specs.Arcs.{distinct, inside};
ghost use Rattle.triple.specs.Stores.{total};
ghost use Rattle.chain.specs.Links.{chain_at, arcs_of, on_chain, shared};

use crate::cells::{Cell, Chain};
use arrayvec::ArrayVec;

// How many triples there is room for.
pub(crate) const CELLS: u16 = 512;

// The cells on no chain are in `free`, and the next to be used is its last. Memory is fixed, so cells are linked by number.
#[derive(Drop)]
pub struct ChainStore {
    pub(crate) nodes: u16,
    pub(crate) chains: [Chain; 256],
    pub(crate) cells: [Cell; 512],
    pub(crate) free: ArrayVec<u16, 512>,
    ghost small: { nodes ≤ 256 },
    ghost counted: { length free.items + total nodes (arcs_of chains cells) ≡ 512 },
    ghost few: { (n : ℕ) → (chain_at chains n).fan ≤ 12 },
    ghost past: { (n : ℕ) → nodes ≤ n → (chain_at chains n).fan ≡ 0 },
    ghost apart: { (n : ℕ) → distinct (arcs_of chains cells n) ≡ true },
    ghost within: { (n : ℕ) → inside nodes (arcs_of chains cells n) ≡ true },
    ghost linked: { (n c : ℕ) → on_chain chains cells n c ≡ true → c < 512 },
    ghost own: { (n m c : ℕ) → shared chains cells n m c ≡ false },
    ghost spare: { (i : ℕ) → i < length free.items → slice_index free.items i < 512 },
    ghost unused: { (i n : ℕ) → i < length free.items → on_chain chains cells n (slice_index free.items i) ≡ false },
    ghost unlike: { (i j : ℕ) → (i < length free.items) × (j < length free.items) × (slice_index free.items i ≡ slice_index free.items j) → i ≡ j },
}
