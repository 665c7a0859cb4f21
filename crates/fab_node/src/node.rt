//! An honest node: what it is, its journal, and whether it is up.

ghost use Rattle.std.specs.Prelude.{◌≡◌, true, false};
ghost use Rattle.fab_node.specs.Deeds.{down, failed};
ghost use Rattle.fab_node.specs.Standing.{GivenModel, Stands};
ghost use Rattle.fab_world.specs.Machine.{Node as Standing};

use crate::role::Role;
use fab_device::Journal;
use std::alloc::Global;
use std::marker::Model;

/// An honest node. A node that is down keeps what it was, and one that has failed for good stays down.
pub struct Node<J: Journal> {
    pub(crate) alloc: Global,
    pub(crate) number: u16,
    pub(crate) role: Role,
    pub(crate) journal: J,
    pub(crate) up: bool,
    pub(crate) failed: bool,
}

impl<J: Journal + Drop> Drop for Node<J> {
    fn drop(self) {
        let Node {
            alloc,
            number,
            role,
            journal,
            up,
            failed,
        } = self;
    }
}

impl<J: Journal> Model for Node<J> {
    ghost use Rattle.fab_node.specs.Standing.{JournalModel, NodeModel};
    ghost use Rattle.std.specs.Coded.{codes};
    ghost use Rattle.fab_tree.specs.contracts.resolved.Statement as statements;
    ghost use Rattle.fab_tree.specs.contracts.resolved.Expression as expressions;

    ghost Value = { NodeModel };

    ghost coded = { Prim.hlevel (codes, statements.the_row.coded, expressions.the_row.coded) };

    ghost view = { λ n. record {
      number = n.number;
      role = n.role;
      journal = record { content = J.content n.journal; synced = J.synced n.journal; room = J.room n.journal; faults = J.faults n.journal; sure = J.sure n.journal };
      up = n.up;
      failed = n.failed;
    } };
}

/// A node goes down for good.
pub fn fail(up: &mut bool, failed: &mut bool)
    ensures up { up.new ≡ false }
    ensures failed { failed.new ≡ true }
{
    *up = false;
    *failed = true;
}

impl<J: Journal> Node<J> {
    /// Whether the node is up.
    pub fn is_up(&self) -> bool
        ensures { result ≡ self.now.up }
    {
        self.up
    }

    /// Whether a call of its journal has failed.
    pub fn has_failed(&self) -> bool
        ensures { result ≡ self.now.failed }
    {
        self.failed
    }

    /// What the node is.
    pub fn role(&self) -> &Role
        ensures { result.now ≡ self.now.role }
    {
        &self.role
    }

    /// Its journal.
    pub fn journal(&self) -> &J
        ensures { self.now.journal ≡ record { content = J.content result.now; synced = J.synced result.now; room = J.room result.now; faults = J.faults result.now; sure = J.sure result.now } }
    {
        &self.journal
    }

    /// Its journal, for whoever made it.
    pub fn into_journal(self) -> J
        ensures { self.journal ≡ record { content = J.content result; synced = J.synced result; room = J.room result; faults = J.faults result; sure = J.sure result } }
    {
        let Node {
            alloc: _,
            number: _,
            role: _,
            journal,
            up: _,
            failed: _,
        } = self;
        journal
    }

    /// The node goes down: what it does next is to come back.
    pub fn crash(&mut self)
        ensures stands { (g : GivenModel) (x : Standing) → Stands g x self.old → Stands g (down x) self.new }
        ensures number { self.new.number ≡ self.old.number }
        ensures faults { self.new.journal.faults ≡ self.old.journal.faults }
        ensures sure { self.new.journal.sure ≡ self.old.journal.sure }
    {
        self.up = false;
    }

    /// A call of its journal counts as having failed: the node goes down for good. Nothing is asked of the
    /// journal, which stays as it was.
    pub fn fail(&mut self)
        ensures stands { (g : GivenModel) (x : Standing) → Stands g x self.old → Stands g (failed x) self.new }
        ensures number { self.new.number ≡ self.old.number }
        ensures journal { self.new.journal ≡ self.old.journal }
    {
        fail(&mut self.up, &mut self.failed);
    }
}
