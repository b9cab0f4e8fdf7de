// An independent way: arcs meet a triple row by trying every assignment of the arcs to parts.
use draft::TripleRow;

// The arcs that an assignment gives to a part; the code has a digit in base `parts` for each arc.
fn part(chosen: [bool; 3], parts: u8, code: u16, which: u8) -> [bool; 3] {
    let base = u16::from(parts.max(1));
    let mut given = chosen;
    let mut rest = code;
    for is_given in given.iter_mut() {
        *is_given = *is_given && rest % base == u16::from(which);
        rest /= base;
    }
    given
}

fn none(chosen: [bool; 3]) -> bool {
    !chosen.contains(&true)
}

// Whether one arc alone is chosen, and it is admitted.
fn one(chosen: [bool; 3], admitted: [bool; 3]) -> bool {
    let count = chosen.iter().filter(|is_chosen| **is_chosen).count();
    count == 1
        && chosen
            .iter()
            .zip(&admitted)
            .any(|(is_chosen, is_admitted)| *is_chosen && *is_admitted)
}

// How many assignments of three arcs to parts there are; at most four parts.
fn assignments(parts: u8) -> u16 {
    u16::from(parts.clamp(1, 4)).saturating_pow(3)
}

// Whether the chosen arcs meet a row; admitted[l] are the arcs whose object has the label l. A chain of rows is followed `depth` rows down.
// By loops: through closures the recursion would be a cycle of six functions, each with a measure of its own.
pub(crate) fn meets(
    depth: u8,
    rows: &[TripleRow],
    row: u8,
    chosen: [bool; 3],
    admitted: [[bool; 3]; 2],
) -> bool {
    if depth == 0 || usize::from(row) >= rows.len() {
        return false;
    }
    match rows[usize::from(row)] {
        TripleRow::Empty => none(chosen),
        TripleRow::Arc(_, label) => one(chosen, admitted[usize::from(label % 2)]),
        TripleRow::Each(a, b) => {
            for code in 0..8 {
                if meets(depth - 1, rows, a, part(chosen, 2, code, 0), admitted)
                    && meets(depth - 1, rows, b, part(chosen, 2, code, 1), admitted)
                {
                    return true;
                }
            }
            false
        }
        TripleRow::Some(a, b) => {
            meets(depth - 1, rows, a, chosen, admitted)
                || meets(depth - 1, rows, b, chosen, admitted)
        }
        TripleRow::Times(a, least, most) => {
            for parts in least..most.unwrap_or(4).min(4) + 1 {
                if parts == 0 && none(chosen) {
                    return true;
                }
                for code in 0..assignments(parts) {
                    let mut all = parts > 0;
                    for which in 0..parts {
                        let own = part(chosen, parts, code, which);
                        all = all && meets(depth - 1, rows, a, own, admitted);
                    }
                    if all {
                        return true;
                    }
                }
            }
            false
        }
    }
}
