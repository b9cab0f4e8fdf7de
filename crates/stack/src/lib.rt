// A stack of waiting work over lent slots.
#![tactic(auto)]

ghost use Rattle.std.specs.Prelude.{◌≡◌, ◌-◌, ◌≤◌, length, is_some, is_ok, ◌==◌, nat_lt};
ghost use Rattle.stack.specs.Entries.{entries, has_room, pushed, stored, raised, rejoined};

// A node and the label that it is to be checked against.
#[derive(Clone, Copy, PartialEq, Eq, Debug)]
pub struct Goal {
    pub node: u16,
    pub label: u8,
}

// The stack has no free slot.
#[derive(Clone, Copy, PartialEq, Eq, Debug)]
pub struct Full;

// The entries are the first `len` slots, the newest last. The slots are lent, so their number stands beside them.
#[derive(Drop)]
pub struct Stack<'a, T> {
    slots: &'a mut [T],
    len: usize,
    ghost fits: { len ≤ length slots.now },
}

// By `lent` the slots stay the lender's: when the stack is gone, it knows what they hold.
impl<'a, T: Copy> Stack<'a, T> {
    pub fn over(slots: &'a mut [T]) -> Stack<'a, T>
        ensures len { result.len ≡ 0 }
        ensures same { result.slots.now ≡ slots.old }
        ensures lent { result.slots.ghost_name ≡ slots.entry.ghost_name }
    {
        Stack { slots, len: 0 }
    }

    pub fn is_empty(&self) -> bool
        ensures { result ≡ (self.now.len == 0) }
    {
        self.len == 0
    }

    pub fn push(&mut self, x: T) -> Result<(), Full>
        ensures answer { is_ok result ≡ has_room self.old.slots.now self.old.len }
        ensures after { entries self.new.slots.now self.new.len ≡ pushed (is_ok result) (entries self.old.slots.now self.old.len) x }
        ensures slots { self.new.slots.now ≡ stored (is_ok result) self.old.slots.now self.old.len x }
        ensures len { self.new.len ≡ raised (is_ok result) self.old.len }
        ensures lent { self.new.slots.ghost_name ≡ self.old.slots.ghost_name }
        ensures kept { length self.new.slots.now ≡ length self.old.slots.now }
    {
        if self.len == self.slots.len() {
            return Err(Full);
        }
        self.slots[self.len] = x;
        self.len += 1;
        Ok(())
    }

    pub fn pop(&mut self) -> Option<T>
        ensures answer { is_some result ≡ nat_lt 0 self.old.len }
        ensures change { entries self.old.slots.now self.old.len ≡ rejoined result (entries self.new.slots.now self.new.len) }
        ensures same { self.new.slots.now ≡ self.old.slots.now }
        ensures len { self.new.len ≡ self.old.len - 1 }
        ensures lent { self.new.slots.ghost_name ≡ self.old.slots.ghost_name }
    {
        if self.is_empty() {
            return None;
        }
        self.len -= 1;
        Some(self.slots[self.len])
    }
}
