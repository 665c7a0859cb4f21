//! A bundle whose names are resolved: where a name is used, its number stands in place of its text.
//!
//! Principals (workers and stores included), nodes (workers and stores), labels, classes, methods
//! and roots are numbered from 0 in the order of the text. So are the fields of a class, the locals
//! of a method, parameters first, and the sites of the whole program: the places that read or write
//! a field, make an object or downgrade a value.

use crate::declaration::Role;
use crate::expression::{Comparison, Number, Operator, UnaryOperator};
use crate::name::Name;
use crate::statement::Downgrade;
use fab_base::{Boxed, Label, Oid, Seq, Value, Width};

/// The use of a name: the number of what it names, and the place of its first byte in the source.
#[derive(Clone, Copy, Debug, PartialEq, Eq)]
pub struct Use {
    pub number: u16,
    pub at: u32,
}

/// A principal, with its number among the workers and stores if it is one of them.
#[derive(Debug)]
pub struct Principal {
    pub role: Role,
    pub name: Name,
    pub node: Option<u16>,
}

impl Drop for Principal {
    fn drop(self) {
        let Principal { role, name, node } = self;
    }
}

/// A declared label and what it says, of principals by their numbers.
#[derive(Debug)]
pub struct NamedLabel {
    pub name: Name,
    pub label: Label,
}

impl Drop for NamedLabel {
    fn drop(self) {
        let NamedLabel { name, label } = self;
    }
}

/// The type of a field, a parameter, a local or a result.
#[derive(Clone, Copy, Debug, PartialEq, Eq)]
pub enum Sort {
    Number(Width),
    Class(Use),
}

/// A field of a class.
#[derive(Debug)]
pub struct Field {
    pub sort: Sort,
    pub name: Name,
}

impl Drop for Field {
    fn drop(self) {
        let Field { sort, name } = self;
    }
}

/// A class, the label of what its objects hold and the one of asking for them.
#[derive(Debug)]
pub struct Class {
    pub name: Name,
    pub label: Use,
    pub access: Use,
    pub fields: Seq<Field>,
}

impl Drop for Class {
    fn drop(self) {
        let Class {
            name,
            label,
            access,
            fields,
        } = self;
    }
}

/// An expression and the place of its first byte.
#[cycle(resolved)]
#[derive(Debug)]
pub struct Expression {
    pub form: Form,
    pub at: u32,
}

impl Drop for Expression {
    #[cycle(drops)]
    fn drop(self) {
        let Expression { form, at } = self;
    }
}

/// What an expression is. `site` is a read's number among all sites.
#[cycle(resolved)]
#[derive(Debug)]
pub enum Form {
    Number(Number),
    Null,
    Local(Use),
    Read {
        object: Use,
        field: u16,
        site: u16,
    },
    Unary {
        operator: UnaryOperator,
        operand: Boxed<Expression>,
    },
    Chain {
        first: Boxed<Expression>,
        others: Seq<Operand>,
    },
    Compared {
        left: Boxed<Expression>,
        comparison: Comparison,
        right: Boxed<Expression>,
    },
}

impl Drop for Form {
    #[cycle(drops)]
    fn drop(self) {
        match self {
            Form::Number(one) => {}
            Form::Null => {}
            Form::Local(one) => {}
            Form::Read {
                object,
                field,
                site,
            } => {}
            Form::Unary { operator, operand } => {}
            Form::Chain { first, others } => {}
            Form::Compared {
                left,
                comparison,
                right,
            } => {}
        }
    }
}

/// An operand of a chain behind the first, with the operator before it and the operator's place.
#[cycle(resolved)]
#[derive(Debug)]
pub struct Operand {
    pub operator: Operator,
    pub at: u32,
    pub operand: Expression,
}

impl Drop for Operand {
    #[cycle(drops)]
    fn drop(self) {
        let Operand {
            operator,
            at,
            operand,
        } = self;
    }
}

/// What is assigned to a local. A store's number is that among the nodes, and `at` is the place of
/// `new`, `declassify` or `endorse`.
#[derive(Debug)]
pub enum Right {
    Plain(Expression),
    Call {
        method: Use,
        arguments: Seq<Expression>,
    },
    New {
        class: Use,
        store: Use,
        arguments: Seq<Expression>,
        site: u16,
        at: u32,
    },
    Downgrade {
        downgrade: Downgrade,
        value: Expression,
        from: Use,
        to: Use,
        site: u16,
        at: u32,
    },
}

impl Drop for Right {
    fn drop(self) {
        match self {
            Right::Plain(one) => {}
            Right::Call { method, arguments } => {}
            Right::New {
                class,
                store,
                arguments,
                site,
                at,
            } => {}
            Right::Downgrade {
                downgrade,
                value,
                from,
                to,
                site,
                at,
            } => {}
        }
    }
}

/// A statement. A declaration is the assignment of its value, and an `if` without `else` has an
/// empty other block. `at` is the place of the statement's first byte.
#[derive(Debug)]
pub enum Statement {
    Assign {
        local: u16,
        right: Right,
        at: u32,
    },
    Write {
        object: Use,
        field: u16,
        value: Expression,
        site: u16,
    },
    Call {
        method: Use,
        arguments: Seq<Expression>,
    },
    If {
        condition: Expression,
        block: Seq<Statement>,
        otherwise: Seq<Statement>,
    },
    While {
        condition: Expression,
        block: Seq<Statement>,
    },
    Atomic {
        label: Use,
        block: Seq<Statement>,
        otherwise: Seq<Statement>,
        at: u32,
    },
    Fail {
        at: u32,
    },
}

impl Drop for Statement {
    fn drop(self) {
        match self {
            Statement::Assign { local, right, at } => {}
            Statement::Write {
                object,
                field,
                value,
                site,
            } => {}
            Statement::Call { method, arguments } => {}
            Statement::If {
                condition,
                block,
                otherwise,
            } => {}
            Statement::While { condition, block } => {}
            Statement::Atomic {
                label,
                block,
                otherwise,
                at,
            } => {}
            Statement::Fail { at } => {}
        }
    }
}

/// A parameter or another local of a method.
#[derive(Debug)]
pub struct Local {
    pub sort: Sort,
    pub name: Name,
    pub label: Use,
}

impl Drop for Local {
    fn drop(self) {
        let Local { sort, name, label } = self;
    }
}

/// The type and the label of a method's result.
#[derive(Clone, Copy, Debug, PartialEq, Eq)]
pub struct Returns {
    pub sort: Sort,
    pub label: Use,
}

/// A method's result, and the place of `return`.
#[derive(Debug)]
pub struct Return {
    pub value: Expression,
    pub at: u32,
}

impl Drop for Return {
    fn drop(self) {
        let Return { value, at } = self;
    }
}

/// A method. Its locals are its parameters, so many, and then those that its body declares. The
/// numbers of its authority are those among the principals.
#[derive(Debug)]
pub struct Method {
    pub name: Name,
    pub parameters: u16,
    pub locals: Seq<Local>,
    pub returns: Option<Returns>,
    pub begin: Use,
    pub fails: bool,
    pub authority: Seq<Use>,
    pub body: Seq<Statement>,
    pub result: Option<Return>,
}

impl Drop for Method {
    fn drop(self) {
        let Method {
            name,
            parameters,
            locals,
            returns,
            begin,
            fails,
            authority,
            body,
            result,
        } = self;
    }
}

/// An object that is there from the start.
#[derive(Debug)]
pub struct Root {
    pub name: Name,
    pub oid: Oid,
    pub values: Seq<Value>,
}

impl Drop for Root {
    fn drop(self) {
        let Root { name, oid, values } = self;
    }
}

/// A request: its worker's number among the nodes, its own number in the worker's session, from 1,
/// and the method with what it is given.
#[derive(Debug)]
pub struct Request {
    pub worker: u16,
    pub number: u32,
    pub method: u16,
    pub args: Seq<Value>,
}

impl Drop for Request {
    fn drop(self) {
        let Request {
            worker,
            number,
            method,
            args,
        } = self;
    }
}

/// A request of a session, and the place of its method's name.
#[derive(Debug)]
pub struct Asked {
    pub request: Request,
    pub at: u32,
}

impl Drop for Asked {
    fn drop(self) {
        let Asked { request, at } = self;
    }
}

/// What is asked of a worker, in this order. Its number is that among the nodes.
#[derive(Debug)]
pub struct Session {
    pub worker: Use,
    pub requests: Seq<Asked>,
}

impl Drop for Session {
    fn drop(self) {
        let Session { worker, requests } = self;
    }
}

/// Bytes that a hostile node sends to a node, by their numbers among the nodes.
#[derive(Debug)]
pub struct Post {
    pub sender: u16,
    pub receiver: u16,
    pub bytes: Seq<u8>,
}

impl Drop for Post {
    fn drop(self) {
        let Post {
            sender,
            receiver,
            bytes,
        } = self;
    }
}

/// Behind how many of its events a node crashes, and how many bytes of the next record that it writes
/// are kept, where one is cut.
#[derive(Clone, Copy, Debug, PartialEq, Eq)]
pub struct Crash {
    pub node: u16,
    pub after: u32,
    pub keep: Option<u32>,
}

/// A step of a node, by numbers among the nodes.
#[derive(Clone, Copy, Debug, PartialEq, Eq)]
pub enum Step {
    Begin(u16),
    Resume(u16),
    Deliver { sender: u16, receiver: u16 },
    Idle { worker: u16, node: u16 },
    Recover(u16),
}

/// An event of a schedule, by numbers among the nodes.
#[derive(Clone, Copy, Debug, PartialEq, Eq)]
pub enum Event {
    Step(Step),
    CrashIn { keep: u32, step: Step },
    Post(u16),
    Crash(u16),
}

/// A bundle.
#[derive(Debug)]
pub struct Resolved {
    pub nodes: Seq<Principal>,
    pub pairs: Seq<(u16, u16)>,
    pub labels: Seq<NamedLabel>,
    pub classes: Seq<Class>,
    pub methods: Seq<Method>,
    pub roots: Seq<Root>,
    pub sessions: Seq<Session>,
    pub posts: Seq<Post>,
    pub crashes: Seq<Crash>,
    pub cache: u32,
    pub schedule: Seq<Event>,
}

impl Drop for Resolved {
    fn drop(self) {
        let Resolved {
            nodes,
            pairs,
            labels,
            classes,
            methods,
            roots,
            sessions,
            posts,
            crashes,
            cache,
            schedule,
        } = self;
    }
}
