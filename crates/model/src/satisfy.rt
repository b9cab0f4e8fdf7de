// Whether a node satisfies a definition, by trying every split of its arcs.
use crate::facts::Facts;
use crate::pairs::Pairs;
use draft::{Draft, ShapeRow, TripleRow};

// A node with its arcs, under a typing.
#[derive(Clone, Copy)]
pub(crate) struct Node<'d, 'a> {
    pub(crate) draft: Draft<'d>,
    pub(crate) facts: &'a Facts,
    pub(crate) typing: &'a Pairs,
    pub(crate) node: u16,
    pub(crate) arcs: &'a [(u8, u16)],
}

// A triple row; so many parts that each meet a row; a number of such parts between two bounds.
#[derive(Clone, Copy)]
enum Goal {
    Row(u8),
    Parts(u8, u8),
    Between(u8, u8, u8),
}

// A goal is met, or not; or if either of two is; or if the arcs split between two, the first of which takes none or at
// least the given ones.
#[derive(Clone, Copy)]
enum Step {
    Known(bool),
    Either(Goal, Goal),
    Split(u16, Goal, Goal),
}

// Past so many steps down a goal is not met; no draft of the tests needs as many.
const MOST_STEPS: u8 = 250;

// Past the chosen arcs and the least, a further part would be empty.
fn enough(chosen: u16, least: u8, most: Option<u8>) -> u8 {
    let arcs = (chosen.count_ones() & 0xff) as u8;
    most.unwrap_or(255).min(least.max(arcs))
}

// The lowest of the chosen bits.
fn first_of(chosen: u16) -> u16 {
    chosen & !chosen.wrapping_sub(1)
}

fn between(row: u8, least: u8, most: u8) -> Step {
    if least > most {
        return Step::Known(false);
    }
    let more = Goal::Between(row, least.saturating_add(1), most);
    Step::Either(Goal::Parts(row, least), more)
}

impl<'d, 'a> Node<'d, 'a> {
    // Whether exactly one arc is chosen, and it is admitted. An arc's bit is 1 for the first, 2 for the next, and so on.
    fn is_single(&self, chosen: u16, set: u8, label: u8) -> bool {
        let Some(properties) = self.draft.sets.get(usize::from(set)) else {
            return false;
        };
        if !chosen.is_power_of_two() {
            return false;
        }
        self.arcs.get(chosen.trailing_zeros() as usize).is_some_and(|(property, object)| {
            properties.contains(*property) && self.typing.has(*object, label)
        })
    }

    fn row_step(&self, row: u8, chosen: u16) -> Step {
        match self.draft.triples.get(usize::from(row)).copied() {
            None => Step::Known(false),
            Some(TripleRow::Empty) => Step::Known(chosen == 0),
            Some(TripleRow::Arc(set, label)) => Step::Known(self.is_single(chosen, set, label)),
            Some(TripleRow::Each(a, b)) => Step::Split(0, Goal::Row(a), Goal::Row(b)),
            Some(TripleRow::Some(a, b)) => Step::Either(Goal::Row(a), Goal::Row(b)),
            Some(TripleRow::Times(a, least, most)) => {
                between(a, least, enough(chosen, least, most))
            }
        }
    }

    fn step(&self, goal: Goal, chosen: u16) -> Step {
        match goal {
            Goal::Row(row) => self.row_step(row, chosen),
            Goal::Parts(_, 0) => Step::Known(chosen == 0),
            // the order of the parts is free: the first that is not empty has the first arc
            Goal::Parts(row, parts) => Step::Split(
                first_of(chosen),
                Goal::Row(row),
                Goal::Parts(row, parts.saturating_sub(1)),
            ),
            Goal::Between(row, least, most) => between(row, least, most),
        }
    }

    // Whether the chosen arcs meet the goal.
    fn meets(&self, depth: u8, goal: Goal, chosen: u16) -> bool {
        if depth == 0 {
            return false;
        }
        match self.step(goal, chosen) {
            Step::Known(met) => met,
            Step::Either(a, b) => {
                self.meets(depth - 1, a, chosen) || self.meets(depth - 1, b, chosen)
            }
            Step::Split(taken, a, b) => {
                for part in 0..=chosen {
                    if part & chosen == part
                        && (part == 0 || part & taken == taken)
                        && self.meets(depth - 1, a, part)
                        && self.meets(depth - 1, b, chosen ^ part)
                    {
                        return true;
                    }
                }
                false
            }
        }
    }

    fn all_arcs(&self) -> u16 {
        self.arcs.iter().fold(0, |all, _| all << 1 | 1)
    }

    // Whether the node satisfies the shape row.
    pub(crate) fn satisfies(&self, depth: u8, row: u8) -> bool {
        if depth == 0 {
            return false;
        }
        match self.draft.shapes.get(usize::from(row)).copied() {
            None => false,
            Some(ShapeRow::Value(test)) => self.facts.holds(self.node, test),
            Some(ShapeRow::Hood(triple)) => {
                self.meets(MOST_STEPS, Goal::Row(triple), self.all_arcs())
            }
            Some(ShapeRow::And(a, b)) => {
                self.satisfies(depth - 1, a) && self.satisfies(depth - 1, b)
            }
            Some(ShapeRow::Or(a, b)) => {
                self.satisfies(depth - 1, a) || self.satisfies(depth - 1, b)
            }
            Some(ShapeRow::Not(a)) => !self.satisfies(depth - 1, a),
        }
    }
}
