//! Each type that threads hand on is asked whether it may be sent, and those that they share whether they may be shared: so a lost
//! proof shows here and not in a caller.

use fab_core::Core;
use fab_device::Journal;
use fab_eval::{Done, Job};
use fab_node::{Given, Node, Role};
use fab_tree::resolved::Resolved;
use fab_worker::Worker;
use std::sync::Arc;

/// Asks that values of a type may be sent to another thread.
fn send<T: Send>(_value: &T) {}

/// Asks that values of a type may be shared by threads.
fn share<T: Sync>(_value: &T) {}

fn bundles_cross(program: &Arc<Resolved>) {
    send(program);
    share(program);
}

fn jobs_cross(job: &Job) {
    send(job);
}

fn results_cross(done: &Done) {
    send(done);
}

fn starts_cross(given: &Given) {
    send(given);
}

fn workers_cross(worker: &Worker) {
    send(worker);
}

fn roles_cross(role: &Role) {
    send(role);
}

fn nodes_cross<J: Journal + Send>(node: &Node<J>) {
    send(node);
}

fn cores_cross<J: Journal + Send>(core: &Core<J>) {
    send(core);
}
