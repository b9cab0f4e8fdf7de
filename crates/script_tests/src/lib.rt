// Tests of what the programs that run scripts share, where no program calls it.
#![tactic(auto)]

#[cfg(test)]
mod tests {
    use anyhow::anyhow;
    use script::{
        Command, Description, Expected, Joined, Line, OverStore, StoreKind, read_lines, run_house,
    };
    use std::convert::Infallible;
    use std::test::Fail;
    use triple::Store;

    const ROWS: &str = "# a house\nstore rows 3 5\n\n  term iri  # node 0\nfly\nput 0 1 2\ntotal";

    #[test]
    fn lines_that_are_not_blank_are_read(rt: HostRuntime) -> Result<(), Fail> {
        let lines = read_lines::<Infallible>(rt.alloc(), ROWS)?;
        let read = [
            (2, "store rows 3 5"),
            (4, "term iri"),
            (5, "fly"),
            (6, "put 0 1 2"),
            (7, "total"),
        ];
        assert_eq!(rt; lines.len(), read.len());
        for (line, (number, text)) in lines.iter().zip(read) {
            assert_eq!(rt; line.number, number);
            assert_eq!(rt; line.text, text);
            assert_eq!(rt; line.command.is_err(), text == "fly");
        }
        Ok(())
    }

    #[test]
    fn lines_are_read_into_commands(rt: HostRuntime) -> Result<(), Fail> {
        let lines = read_lines::<Infallible>(rt.alloc(), "store rows 3 5\nfly\n")?;
        let store = lines.first().map(|line| line.command);
        assert!(rt; matches!(store, Some(Ok(Command::Store(StoreKind::Rows(3, 5))))));
        let fly = lines.last().map(|line| line.command);
        assert!(rt; matches!(fly, Some(Err(Expected::Command))));
        assert!(rt; read_lines::<Infallible>(rt.alloc(), " \n# nothing\n")?.is_empty());
        Ok(())
    }

    // Tells by its error what it was given.
    #[derive(Clone, Copy)]
    struct Telling;

    impl OverStore<Infallible> for Telling {
        fn run_over<S: Store + Drop>(
            &self,
            store: S,
            house: &mut Description,
            lines: &[Line<Infallible>],
        ) -> anyhow::Result<()> {
            let nodes = store.node_count();
            let capacity = store.capacity();
            let total = store.total();
            let terms = house.terms.len();
            let first = lines.first().map_or("none", |line| line.text);
            let count = lines.len();
            Err(anyhow!(
                "{nodes} nodes, {total} of {capacity} triples, {terms} terms, {count} lines from {first}"
            ))
        }
    }

    #[test]
    fn a_house_is_described_and_run(rt: HostRuntime) -> Result<(), Fail> {
        for (script, told) in [
            (
                ROWS,
                "3 nodes, 0 of 5 triples, 1 terms, 2 lines from put 0 1 2",
            ),
            (
                "store chain 300\n",
                "256 nodes, 0 of 512 triples, 0 terms, 0 lines from none",
            ),
            (
                "term iri\nterm blank\n",
                "0 nodes, 0 of 512 triples, 2 terms, 0 lines from none",
            ),
        ] {
            let lines = read_lines::<Infallible>(rt.alloc(), script)?;
            let text = match run_house(&rt, &Telling, lines.as_slice()) {
                Ok(()) => String::new(rt.alloc()),
                Err(error) => format!(in rt.alloc(); "{error}")?,
            };
            assert_eq!(rt; text.as_str(), told);
        }
        Ok(())
    }

    // Does nothing.
    #[derive(Clone, Copy)]
    struct Ending;

    impl OverStore<Infallible> for Ending {
        fn run_over<S: Store + Drop>(
            &self,
            _store: S,
            _house: &mut Description,
            _lines: &[Line<Infallible>],
        ) -> anyhow::Result<()> {
            Ok(())
        }
    }

    #[test]
    fn a_house_that_ends_well_is_run(rt: HostRuntime) -> Result<(), Fail> {
        let lines = read_lines::<Infallible>(rt.alloc(), ROWS)?;
        assert!(rt; run_house(&rt, &Ending, lines.as_slice()).is_ok());
        Ok(())
    }

    #[test]
    fn items_are_joined_by_their_debug_text(rt: HostRuntime) -> Result<(), Fail> {
        let pairs = Joined {
            items: &[(1, 2), (3, 4)],
            none: "none",
        };
        assert_eq!(rt;
            format!(in rt.alloc(); "{pairs}")?.as_str(),
            "(1, 2) (3, 4)"
        );
        let words = Joined {
            items: &["a", "b"],
            none: "none",
        };
        assert_eq!(rt; format!(in rt.alloc(); "{words}")?.as_str(), "\"a\" \"b\"");
        let none: Joined<u16> = Joined {
            items: &[],
            none: "none",
        };
        assert_eq!(rt; format!(in rt.alloc(); "{none}")?.as_str(), "none");
        Ok(())
    }
}
