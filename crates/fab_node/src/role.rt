//! What a node is.

use fab_store::Store;
use fab_worker::Worker;

/// A store or a worker, with all that it has.
pub enum Role {
    Store(Store),
    Worker(Worker),
}

impl Drop for Role {
    fn drop(self) {
        match self {
            Role::Store(one) => {}
            Role::Worker(one) => {}
        }
    }
}
