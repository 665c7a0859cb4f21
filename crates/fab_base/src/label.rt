//! Labels of the decentralized label model (Myers and Liskov, TOSEM 2000). Principals are numbers.

use crate::seq::Seq;

/// A policy of a label: its owner, and the readers that it allows (`o -> r`), or the writers that
/// it trusts (`o <- w`).
#[derive(Debug)]
pub struct Policy {
    pub owner: u16,
    pub others: Seq<u16>,
}

impl Drop for Policy {
    fn drop(self) {
        let Policy { owner, others } = self;
    }
}

/// A label: policies that all hold, of confidentiality and of integrity.
#[derive(Debug)]
pub struct Label {
    pub conf: Seq<Policy>,
    pub integ: Seq<Policy>,
}

impl Drop for Label {
    fn drop(self) {
        let Label { conf, integ } = self;
    }
}
