//! A walk over the transactions that a store holds.
ghost use Rattle.std.specs.Prelude.{length};
ghost use Rattle.std.specs.Iterator.{at_most};
ghost use Rattle.std.specs.Map.Iter.{TakesFirst, TakesLast, deref};

use fab_base::{Items, Tid};
use std::collections::btree_map::Values;
use std::marker::Model;

/// The held transactions that are left of a walk, in the order of holding. Contracts see them as a list.
#[derive(Drop)]
pub struct Held<'a> {
    pub(crate) indexed: Values<'a, u64, (Tid, Items)>,
    pub(crate) beside: &'a [(Tid, Items)],
}

impl<'a> Model for Held<'a> {
    ghost use Rattle.std.specs.Prelude.{List, ◌++◌};
    ghost use Rattle.fab_protocol.specs.Stores.{Prepared};

    ghost Value = { List Prepared };

    ghost view = { λ h. h.indexed ++ h.beside.now };
}

impl<'a> Iterator for Held<'a> {
    type Item = &'a (Tid, Items);

    ghost next_gives = { TakesFirst deref };

    ghost remaining = { λ s. at_most (length s) };

    fn next(&mut self) -> Option<&'a (Tid, Items)> {
        match self.indexed.next() {
            Some(transaction) => Some(transaction),
            None => {
                let (first, others) = self.beside.split_first()?;
                self.beside = others;
                Some(first)
            }
        }
    }
}

impl<'a> DoubleEndedIterator for Held<'a> {
    ghost next_back_gives = { TakesLast deref };

    fn next_back(&mut self) -> Option<&'a (Tid, Items)> {
        match self.beside.split_last() {
            Some((last, before)) => {
                self.beside = before;
                Some(last)
            }
            None => self.indexed.next_back(),
        }
    }
}
