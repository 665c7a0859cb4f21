//! Programs: what they declare, and methods.

use crate::declaration::{Class, Delegation, LabelText, Node, Sort};
use crate::expression::Expression;
use crate::name::Name;
use crate::statement::Statement;
use fab_base::Seq;

/// A parameter of a method: `T x : L`.
#[derive(Debug, Drop)]
pub struct Parameter {
    pub sort: Sort,
    pub name: Name,
    pub label: Name,
}

/// `returns T : L`: the type and the label of a method's result.
#[derive(Debug)]
pub struct Returns {
    pub sort: Sort,
    pub label: Name,
}

impl Drop for Returns {
    fn drop(self) {
        let Returns { sort, label } = self;
    }
}

/// `return e;`: a method's result. `at` is the place of `return`.
#[derive(Debug)]
pub struct Return {
    pub value: Expression,
    pub at: u32,
}

impl Drop for Return {
    fn drop(self) {
        let Return { value, at } = self;
    }
}

/// `method m(..) returns T : L begin B fails authority P, Q { .. return e; }`: `begin` is the label
/// that the method begins under, to which must flow what a call of it depends on, `fails` says that
/// the method may fail, and `authority` names the principals whose power its downgrades use.
#[derive(Debug)]
pub struct Method {
    pub name: Name,
    pub parameters: Seq<Parameter>,
    pub returns: Option<Returns>,
    pub begin: Name,
    pub fails: bool,
    pub authority: Seq<Name>,
    pub body: Seq<Statement>,
    pub result: Option<Return>,
}

impl Drop for Method {
    fn drop(self) {
        let Method {
            name,
            parameters,
            returns,
            begin,
            fails,
            authority,
            body,
            result,
        } = self;
    }
}

/// What a bundle declares, in the order of the text.
#[derive(Debug)]
pub struct Program {
    pub nodes: Seq<Node>,
    pub delegations: Seq<Delegation>,
    pub labels: Seq<LabelText>,
    pub classes: Seq<Class>,
    pub methods: Seq<Method>,
}

impl Drop for Program {
    fn drop(self) {
        let Program {
            nodes,
            delegations,
            labels,
            classes,
            methods,
        } = self;
    }
}
