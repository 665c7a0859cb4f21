//! What a program declares besides its methods: principals and nodes, delegations, labels, classes.

use crate::name::Name;
use fab_base::{Seq, Width};

/// What a principal is: one by name alone, or a node, which runs this program or is hostile.
#[derive(Clone, Copy, Debug, PartialEq, Eq)]
pub enum Role {
    Principal,
    Worker { hostile: bool },
    Store { hostile: bool },
}

/// A principal, with what it is. Workers and stores are principals, too.
#[derive(Debug)]
pub struct Node {
    pub role: Role,
    pub name: Name,
}

impl Drop for Node {
    fn drop(self) {
        let Node { role, name } = self;
    }
}

/// `p actsfor q;`: the first may do what the second may.
#[derive(Debug)]
pub struct Delegation {
    pub actor: Name,
    pub principal: Name,
}

impl Drop for Delegation {
    fn drop(self) {
        let Delegation { actor, principal } = self;
    }
}

/// What a policy is of: `o -> r` says who may read, `o <- w` who may write.
#[derive(Clone, Copy, Debug, PartialEq, Eq)]
pub enum Aspect {
    Confidentiality,
    Integrity,
}

/// A policy as it is written: its owner, what it is of, and the readers or writers.
#[derive(Debug)]
pub struct PolicyText {
    pub owner: Name,
    pub aspect: Aspect,
    pub others: Seq<Name>,
}

impl Drop for PolicyText {
    fn drop(self) {
        let PolicyText {
            owner,
            aspect,
            others,
        } = self;
    }
}

/// `label L = {A -> B; C <-};`
#[derive(Debug)]
pub struct LabelText {
    pub name: Name,
    pub policies: Seq<PolicyText>,
}

impl Drop for LabelText {
    fn drop(self) {
        let LabelText { name, policies } = self;
    }
}

/// The type of a field, a parameter, a local or a result.
#[derive(Debug)]
pub enum Sort {
    Number(Width),
    Class(Name),
}

impl Drop for Sort {
    fn drop(self) {
        match self {
            Sort::Number(one) => {}
            Sort::Class(one) => {}
        }
    }
}

/// A field of a class: its type and its name.
#[derive(Debug)]
pub struct Field {
    pub sort: Sort,
    pub name: Name,
}

impl Drop for Field {
    fn drop(self) {
        let Field { sort, name } = self;
    }
}

/// `class C label L access A { .. }`: the label of what its objects hold, and the one of asking for
/// them.
#[derive(Debug)]
pub struct Class {
    pub name: Name,
    pub label: Name,
    pub access: Name,
    pub fields: Seq<Field>,
}

impl Drop for Class {
    fn drop(self) {
        let Class {
            name,
            label,
            access,
            fields,
        } = self;
    }
}
