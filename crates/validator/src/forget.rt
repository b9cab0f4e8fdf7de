// Which verdicts an edit drops.
ghost use Rattle.std.specs.Prelude.{ℕ, ◌*◌, ◌<◌, ◌≤◌, Bool, ◌↔◌, length};
ghost use Rattle.shapes.specs.Bytes.{byte_typing};
ghost use Rattle.shapes.specs.Leaning.{Reaches};
ghost use Rattle.shapes.specs.Typing.{In};
ghost use Rattle.upstream.specs.Search.{graph_of};
ghost use Rattle.validator.specs.Marks.{Forgot};

use crate::memory::PAIRS;
use triple::Store;
use upstream::upstream;

// Clears the bytes of the marked nodes.
fn forget_marked(labels: usize, marks: &[bool; 256], held: &mut [u8])
    requires { length held.old ≤ 256 * labels }
    ensures { Forgot (length held.old) labels marks.now held.old held.new }
{
    for (place, byte) in held.iter_mut().enumerate() {
        if marks[place / labels] {
            *byte = 0;
        }
    }
}

// Drops the verdicts of every node that reaches the subject by triples, and no other.
pub(crate) fn forget_upstream<S: Store>(
    store: &S,
    labels: usize,
    subject: u16,
    held: &mut [u8; PAIRS],
)
    requires few { labels ≤ 32 }
    requires within { subject < S.Store.nodes store.now }
    ensures { (passes : ℕ → ℕ → Bool) (n l : ℕ) → In (byte_typing (S.Store.nodes store.now) labels held.new) n l ↔ (In (byte_typing (S.Store.nodes store.now) labels held.old) n l × ¬ Reaches (graph_of (S.Store.nodes store.now) (S.Store.arcs store.now) passes) subject n) }
{
    store.lawful();
    let mut marks = [false; 256];
    upstream(store, subject, &mut marks);
    let size = usize::from(store.node_count()) * labels;
    forget_marked(labels, &marks, &mut held[..size]);
}
