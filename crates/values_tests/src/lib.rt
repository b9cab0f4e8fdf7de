// Tests of the term table and the answer sheet, at and past the ends of their tables.
#![tactic(auto)]

#[cfg(test)]
mod tests {
    use std::process::Abort;
    use values::{AnswerSheet, Term, TermKind, TermTable, Test, ValueTest};

    const TERMS: [Term; 9] = [
        Term {
            kind: TermKind::Iri,
        },
        Term {
            kind: TermKind::Blank,
        },
        Term {
            kind: TermKind::Text,
        },
        Term {
            kind: TermKind::Whole(0),
        },
        Term {
            kind: TermKind::Whole(-1),
        },
        Term {
            kind: TermKind::Whole(i32::MIN),
        },
        Term {
            kind: TermKind::Whole(i32::MAX),
        },
        Term {
            kind: TermKind::Whole(1),
        },
        Term {
            kind: TermKind::Whole(-2),
        },
    ];

    const TESTS: [Test; 11] = [
        Test::Iri,
        Test::Blank,
        Test::Literal,
        Test::Text,
        Test::Whole(-1, 0),
        Test::Whole(i32::MIN, i32::MAX),
        Test::Whole(i32::MAX, i32::MIN),
        Test::Whole(i32::MIN, -2),
        Test::Node(2, 4),
        Test::Node(0, 65535),
        Test::Node(5, 5),
    ];

    // A row for each node, the last past the terms: an x for each test that holds, the last column past the tests.
    const HOLDING: [[u8; 12]; 10] = [
        *b"x........x..",
        *b".x.......x..",
        *b"..xx....xx..",
        *b"..x.xx..xx..",
        *b"..x.xx..xx..",
        *b"..x..x.x.xx.",
        *b"..x..x...x..",
        *b"..x..x...x..",
        *b"..x..x.x.x..",
        *b"............",
    ];

    // The rows are the nodes from 0 on, the columns the tests.
    fn assert_holding<V: ValueTest, const N: usize>(rt: &impl Abort, values: &V, rows: &[[u8; N]]) {
        for (row, node) in rows.iter().zip(0..) {
            for (mark, test) in row.iter().zip(0..) {
                assert_eq!(rt; values.holds(node, test), *mark == b'x');
            }
        }
    }

    fn assert_literals<V: ValueTest>(rt: &impl Abort, values: &V, marks: &[u8]) {
        for (mark, node) in marks.iter().zip(0..) {
            assert_eq!(rt; values.literal(node), *mark == b'x');
        }
    }

    #[test]
    fn each_term_and_test(rt: HostRuntime) {
        assert_holding(&rt, &TermTable::new(&TERMS, &TESTS), &HOLDING);
    }

    #[test]
    fn literal_terms(rt: HostRuntime) {
        let table = TermTable::new(&TERMS, &TESTS);
        assert_literals(&rt, &table, b"..xxxxxxx.");
        assert_eq!(rt;
            [
                table.literal(65535),
                table.holds(65535, 9),
                table.holds(0, 65535),
            ],
            [false; 3]
        );
    }

    #[test]
    fn empty_tables(rt: HostRuntime) {
        let no_terms = TermTable::new(&[], &TESTS);
        let no_tests = TermTable::new(&TERMS, &[]);
        assert_eq!(rt;
            [
                no_terms.literal(0),
                no_terms.holds(0, 9),
                no_tests.holds(0, 0),
            ],
            [false; 3]
        );
    }

    #[test]
    fn last_node_and_test(rt: HostRuntime) {
        let terms = [Term {
            kind: TermKind::Iri,
        }; 65536];
        let tests = [Test::Node(65535, 65535); 65536];
        let table = TermTable::new(&terms, &tests);
        assert_eq!(rt;
            [
                table.holds(65535, 65535),
                table.holds(65534, 65535),
                table.literal(65535),
            ],
            [true, false, false]
        );
    }

    // Three tests; the last row is cut after its second byte, and only 1 is a yes.
    #[test]
    fn sheet_rows(rt: HostRuntime) {
        let sheet = AnswerSheet::new(&[1, 0, 2, 255], &[1, 0, 1, 0, 1, 2, 255, 1], 3);
        let rows = [*b"x.x...", *b".x....", *b".x....", *b"......"];
        assert_holding(&rt, &sheet, &rows);
        assert_literals(&rt, &sheet, b"x....");
        assert_eq!(rt;
            [sheet.literal(65535), sheet.holds(65535, 65535)],
            [false; 2]
        );
    }

    #[test]
    fn sheet_tables_end_apart(rt: HostRuntime) {
        let few_literals = AnswerSheet::new(&[1], &[0, 1], 1);
        assert_eq!(rt;
            [few_literals.literal(1), few_literals.holds(1, 0)],
            [false, true]
        );
        let no_answers = AnswerSheet::new(&[0, 1], &[], 1);
        assert_eq!(rt;
            [no_answers.literal(1), no_answers.holds(1, 0)],
            [true, false]
        );
    }

    #[test]
    fn sheet_without_tests(rt: HostRuntime) {
        let sheet = AnswerSheet::new(&[1], &[1, 1], 0);
        assert!(rt; sheet.literal(0));
        assert_eq!(rt;
            [sheet.holds(0, 0), sheet.holds(1, 0), sheet.holds(0, 65535)],
            [false; 3]
        );
    }

    // In 16 bits the place of the last node and test would be 65535.
    #[test]
    fn sheet_with_most_tests(rt: HostRuntime) {
        let mut answers = [0; 65537];
        answers[65534] = 1;
        answers[65535] = 1;
        let sheet = AnswerSheet::new(&[], &answers, 65535);
        assert_eq!(rt;
            [sheet.holds(0, 65534), sheet.holds(0, 65535)],
            [true, false]
        );
        assert_eq!(rt;
            [
                sheet.holds(1, 0),
                sheet.holds(1, 1),
                sheet.holds(65535, 65534),
            ],
            [true, false, false]
        );
    }
}
