//! A bundle as a tree: as it is written, and with numbers for names.
#![tactic(auto)]

mod declaration;
mod event;
mod expression;
mod name;
mod program;
pub mod resolved;
mod start;
mod statement;

pub use declaration::{Aspect, Class, Delegation, Field, LabelText, Node, PolicyText, Role, Sort};
pub use event::{CrashLine, Event, PostLine, Step};
pub use expression::{
    Comparison, Expression, Form, Level, Number, Operand, Operator, UnaryOperator,
};
pub use name::Name;
pub use program::{Method, Parameter, Program, Return, Returns};
pub use start::{Given, Literal, RequestText, Root, Session, Start};
pub use statement::{Downgrade, Right, Statement};
