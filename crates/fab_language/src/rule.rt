//! The rules of names and types, and what breaks one.

/// A rule of names and types, in the order in which a refusal names them at one place.
#[derive(Clone, Copy, Debug, PartialEq, Eq)]
pub enum NameRule {
    /// A name isn't declared in the space that its place needs.
    Unknown,
    /// A name is declared a second time in its space, or a worker has a second session.
    Doubled,
    /// A node isn't of the kind that its place needs.
    Node,
    /// The number of arguments or values isn't that of the parameters or fields.
    Arity,
    /// A value isn't of the type that its place needs.
    Typing,
}

/// Where a bundle breaks a rule: the place is that of a name, or of the first token of an
/// expression or value, in bytes from 0.
#[derive(Clone, Copy, Debug, PartialEq, Eq)]
pub struct Fault {
    pub rule: NameRule,
    pub at: u32,
}
