//! Which start a run is of.
ghost use Rattle.std.specs.Prelude.{ℕ, Bool};
ghost use Rattle.fab_node.specs.Standing.{GivenModel};

use std::marker::Brand;
use std::sync::ledger::Ledger;

/// The name of a run: what its nodes were given, and which of them have journals that never fail. What lies under a lock can't speak of
/// what its owner knew before, but for its type; so the type has the name, and who runs the threads picks it.
pub trait RunName: Ledger {
    ghost given: { GivenModel };

    ghost sure: { ℕ → Bool };
}

impl RunName for Brand {
    ghost use Rattle.std.specs.Prelude.{true, []};

    ghost given = { record {
      program = record { nodes = []; pairs = []; labels = []; classes = []; methods = []; roots = []; sessions = []; posts = []; crashes = []; cache = 0; schedule = [] };
      rights = record { workers = 0; stores = 0; classes = [] };
      roots = [];
    } };

    ghost sure = { λ n. true };
}
