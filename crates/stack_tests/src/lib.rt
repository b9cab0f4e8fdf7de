// Tests of the stack, at goals and at bare numbers.
#![tactic(auto)]

#[cfg(test)]
mod tests {
    use stack::{Full, Goal, Stack};
    use std::test::Fail;

    const FIRST: Goal = Goal { node: 1, label: 2 };

    const SECOND: Goal = Goal {
        node: 65535,
        label: 255,
    };

    const THIRD: Goal = Goal { node: 3, label: 4 };

    #[test]
    fn goals_come_back_newest_first(rt: HostRuntime) -> Result<(), Fail> {
        let mut room = [THIRD; 2];
        let mut stack = Stack::over(&mut room);
        stack.push(FIRST)?;
        stack.push(SECOND)?;
        assert_eq!(rt;
            [stack.pop(), stack.pop(), stack.pop()],
            [Some(SECOND), Some(FIRST), None]
        );
        Ok(())
    }

    #[test]
    fn a_refused_push_changes_nothing(rt: HostRuntime) -> Result<(), Fail> {
        let mut room = [9u16; 2];
        let mut stack = Stack::over(&mut room);
        stack.push(1)?;
        stack.push(2)?;
        assert_eq!(rt; stack.push(3), Err(Full));
        assert_eq!(rt;
            [stack.pop(), stack.pop(), stack.pop()],
            [Some(2), Some(1), None]
        );
        assert_eq!(rt; room, [1, 2]);
        Ok(())
    }

    #[test]
    fn an_empty_pop_changes_nothing(rt: HostRuntime) -> Result<(), Fail> {
        let mut room = [7u16, 8];
        let mut stack = Stack::over(&mut room);
        assert_eq!(rt; stack.pop(), None);
        assert!(rt; stack.is_empty());
        stack.push(1)?;
        assert!(rt; !stack.is_empty());
        assert_eq!(rt; room, [1, 8]);
        Ok(())
    }

    #[test]
    fn no_slots(rt: HostRuntime) {
        let mut stack = Stack::over(&mut []);
        assert_eq!(rt; stack.push(FIRST), Err(Full));
        assert_eq!(rt; stack.pop(), None);
    }
}
