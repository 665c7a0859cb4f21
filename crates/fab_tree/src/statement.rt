//! Statements.

use crate::declaration::Sort;
use crate::expression::Expression;
use crate::name::Name;
use fab_base::Seq;

/// What a downgrade lowers: who may read, or who must not have written.
#[derive(Clone, Copy, Debug, PartialEq, Eq)]
pub enum Downgrade {
    Declassify,
    Endorse,
}

/// What is assigned to a local: an expression, the result of a call, a new object of a class at a
/// store, or a value at another label. `at` is the place of `new`, `declassify` or `endorse`.
#[derive(Debug)]
pub enum Right {
    Plain(Expression),
    Call {
        method: Name,
        arguments: Seq<Expression>,
    },
    New {
        class: Name,
        store: Name,
        arguments: Seq<Expression>,
        at: u32,
    },
    Downgrade {
        downgrade: Downgrade,
        value: Expression,
        from: Name,
        to: Name,
        at: u32,
    },
}

impl Drop for Right {
    fn drop(self) {
        match self {
            Right::Plain(one) => {}
            Right::Call { method, arguments } => {}
            Right::New {
                class,
                store,
                arguments,
                at,
            } => {}
            Right::Downgrade {
                downgrade,
                value,
                from,
                to,
                at,
            } => {}
        }
    }
}

/// A statement: `T x : L = e;`, of which `at` is the place, `x = ..;`, `x.f = e;`, `m(..);`,
/// `if (e) { } else { }` with or without `else`, `while (e) { }`, `atomic L { } else { }` and
/// `fail;`, of which `at` is the place.
#[derive(Debug, Drop)]
pub enum Statement {
    Declare {
        sort: Sort,
        name: Name,
        label: Name,
        value: Expression,
        at: u32,
    },
    Assign {
        name: Name,
        right: Right,
    },
    Write {
        object: Name,
        field: Name,
        value: Expression,
    },
    Call {
        method: Name,
        arguments: Seq<Expression>,
    },
    If {
        condition: Expression,
        block: Seq<Statement>,
        otherwise: Option<Seq<Statement>>,
    },
    While {
        condition: Expression,
        block: Seq<Statement>,
    },
    Atomic {
        label: Name,
        block: Seq<Statement>,
        otherwise: Seq<Statement>,
        at: u32,
    },
    Fail {
        at: u32,
    },
}
