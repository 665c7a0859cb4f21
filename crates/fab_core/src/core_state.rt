//! All nodes together, one event at a time.

ghost use Rattle.std.specs.Prelude.{◌≡◌, map};
ghost use Rattle.fab_core.specs.Telling.{those_in};

use crate::reading::journals_of;
use fab_base::Seq;
use fab_device::Journal;
use fab_net::Logged;
use fab_node::{Given, Node};
use fab_queues::Queues;
use std::alloc::Global;
use std::marker::Model;

/// All nodes of a bundle, their journals, the messages between them, and the log of a run from the
/// start. Honest nodes stand at their numbers; hostile ones run no code here. A vector without
/// journals has places for all of them, so that they are handed back without taking memory.
pub struct Core<J: Journal> {
    pub(crate) alloc: Global,
    pub(crate) given: Given,
    pub(crate) nodes: Vec<Option<Node<J>>>,
    pub(crate) queues: Queues,
    pub(crate) places: Vec<usize>,
    pub(crate) log: Vec<Logged>,
    pub(crate) spare: Vec<J>,
}

impl<J: Journal + Drop> Drop for Core<J> {
    fn drop(self) {
        let Core {
            alloc,
            given,
            nodes,
            queues,
            places,
            log,
            spare,
        } = self;
    }
}

impl<J: Journal> Model for Core<J> {
    ghost use Rattle.std.specs.Prelude.{length, map, vec_capacity};
    ghost use Rattle.std.specs.Option.{option_map};
    ghost use Rattle.fab_core.specs.Cores.{CoreModel, HasPlaces, IsCore, move_of};
    ghost use Rattle.std.specs.Coded.{codes};
    ghost use Rattle.fab_tree.specs.contracts.resolved.Statement as statements;
    ghost use Rattle.fab_tree.specs.contracts.resolved.Expression as expressions;

    ghost Value = { CoreModel };

    ghost coded = { Prim.hlevel (codes, statements.the_row.coded, expressions.the_row.coded) };

    ghost view = { λ c. record {
      given = c.given;
      moves = map move_of c.log.items;
      journals = map (option_map (λ x. x.journal)) c.nodes.items;
    } };

    ghost invariant = { λ c. IsCore c.given c.nodes.items c.queues c.places.items c.log.items × HasPlaces c.nodes.items (length c.spare.items) (vec_capacity c.spare) };
}

impl<J: Journal + Drop> Core<J> {
    /// The journals of the honest nodes, in the order of their numbers. It takes no memory.
    pub fn into_journals(self) -> Seq<J>
        ensures { map (λ journal. record { content = J.content journal; synced = J.synced journal; room = J.room journal; faults = J.faults journal; sure = J.sure journal }) result
            ≡ those_in self.journals }
    {
        let Core {
            alloc: _,
            given: _,
            nodes,
            queues: _,
            places: _,
            log: _,
            spare,
        } = self;
        Seq::from_vec(journals_of(nodes, spare))
    }
}
