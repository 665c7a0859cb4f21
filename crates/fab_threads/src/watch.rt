//! Whose threads sleep, and who is to be woken.

/// What a thread does that is to wait: it sleeps until it is woken; it looks again soon, since nobody else would wake anyone; or it leaves.
#[derive(Clone, Copy)]
pub enum Rest {
    Sleep,
    Look,
    Leave,
}

/// Threads by their nodes, a bit at the number of each: those that are awake, those that sleep, and those of the latter for whom something
/// is due and whom nobody has woken yet. Once a thread has left, those that are to wait leave, too.
#[derive(Clone, Copy)]
pub(crate) struct Watch {
    awake: u64,
    asleep: u64,
    called: u64,
    is_closing: bool,
}

/// The bit of a node; none has a number of 64 or more.
fn bit_of(node: u16) -> u64 {
    if node < 64 { 1 << node } else { 0 }
}

/// The lowest of these bits.
fn lowest(bits: u64) -> u64 {
    bits & bits.wrapping_neg()
}

impl Watch {
    /// Nobody is there yet.
    pub(crate) fn new() -> Watch {
        Watch {
            awake: 0,
            asleep: 0,
            called: 0,
            is_closing: false,
        }
    }

    /// A thread has come to the lock, whether it was woken or not.
    pub(crate) fn comes(&mut self, node: u16) {
        self.awake |= bit_of(node);
        self.asleep &= !bit_of(node);
        self.called &= !bit_of(node);
    }

    /// Whether the thread of this node sleeps.
    pub(crate) fn is_asleep(&self, node: u16) -> bool {
        self.asleep & bit_of(node) != 0
    }

    /// Something is due for a thread, which is to be woken if it sleeps.
    pub(crate) fn call(&mut self, node: u16) {
        self.called |= self.asleep & bit_of(node);
    }

    /// One of those that are called, as its bit, which is awake from now on. It is one, since that one wakes the next.
    pub(crate) fn wake(&mut self) -> u64 {
        let one = lowest(self.called);
        self.called &= !one;
        self.asleep &= !one;
        self.awake |= one;
        one
    }

    /// Whether no thread but this one is awake.
    pub(crate) fn is_alone(&self, node: u16) -> bool {
        self.awake & !bit_of(node) == 0
    }

    /// What a thread does that is to wait, behind the last call of `wake`.
    pub(crate) fn rest(&mut self, node: u16) -> Rest {
        if self.is_closing {
            return Rest::Leave;
        }
        if self.is_alone(node) {
            return Rest::Look;
        }
        self.awake &= !bit_of(node);
        self.asleep |= bit_of(node);
        Rest::Sleep
    }

    /// A thread leaves. All that sleep are woken, as their bits.
    pub(crate) fn leave(&mut self, node: u16) -> u64 {
        let all = self.asleep;
        self.awake = (self.awake | all) & !bit_of(node);
        self.asleep = 0;
        self.called = 0;
        self.is_closing = true;
        all
    }
}
