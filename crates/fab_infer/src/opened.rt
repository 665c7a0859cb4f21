//! A bundle's methods with a number of its own for each hole.
ghost use Rattle.std.specs.Prelude.{◌≡◌, ◌+◌, ◌*◌, ◌≤◌, ◌<◌, ◌^◌, All, IfOk, length, map};
ghost use Rattle.fab_language.specs.MethodNumbers.{in_turn};
ghost use Rattle.fab_holes.specs.Open.{opened_local, opened_method};

use fab_base::NoMemory;
use fab_tree::resolved::{Local, Method, Statement};
use std::alloc::Global;
use std::marker::Model;

/// A local, with its label's number: behind the declared labels where it is a hole. Contracts see the
/// local with that number.
#[derive(Drop)]
pub(crate) struct OpenLocal<'a> {
    pub(crate) local: &'a Local,
    pub(crate) number: u32,
}

impl<'a> Model for OpenLocal<'a> {
    ghost use Rattle.fab_tree.specs.declared.resolved.Local.{Local as Numbered};
    ghost use Rattle.fab_holes.specs.Open.{with_label};

    ghost Value = { Numbered };

    ghost view = { λ o. with_label o.number o.local.now };
}

/// A method, with such locals. Contracts see the method with these.
#[derive(Drop)]
pub(crate) struct OpenMethod<'a> {
    pub(crate) method: &'a Method,
    pub(crate) locals: Vec<OpenLocal<'a>>,
}

impl<'a> Model for OpenMethod<'a> {
    ghost use Rattle.std.specs.Coded.{codes};
    ghost use Rattle.fab_tree.specs.declared.resolved.Method.{Method as Numbered};
    ghost use Rattle.fab_tree.specs.contracts.resolved.Statement as statements;
    ghost use Rattle.fab_tree.specs.contracts.resolved.Expression as expressions;

    ghost Value = { Numbered };

    ghost coded = { Prim.hlevel (codes, statements.the_row.coded, expressions.the_row.coded) };

    ghost view = { λ o. record o.method.now { locals = o.locals.items } };
}

impl<'a> OpenLocal<'a> {
    /// The number of its label.
    pub(crate) fn label(&self) -> u32
        ensures { result ≡ self.now.label.number }
    {
        self.number
    }
}

impl<'a> OpenMethod<'a> {
    /// Its locals.
    pub(crate) fn locals(&self) -> &[OpenLocal<'a>]
        ensures { result.now ≡ self.now.locals }
    {
        self.locals.as_slice()
    }

    /// How many of them are parameters.
    pub(crate) fn parameters(&self) -> u16
        ensures { result ≡ self.now.parameters }
    {
        self.method.parameters
    }

    /// The label under which it begins.
    pub(crate) fn begin(&self) -> u32
        ensures { result ≡ self.now.begin.number }
    {
        u32::from(self.method.begin.number)
    }

    /// Its statements.
    pub(crate) fn body(&self) -> &[Statement]
        ensures { result.now ≡ self.now.body }
    {
        self.method.body.as_slice()
    }
}

/// A local, and the number of the hole behind it.
fn open_local<'a>(local: &'a Local, count: u16, hole: u32) -> (OpenLocal<'a>, u32)
    requires { hole < 2 ^ 31 }
    ensures made { result ≡ opened_local count local.now hole }
    ensures bound { result.1 ≤ hole + 1 }
{
    if local.label.number < count {
        let number = u32::from(local.label.number);
        return (OpenLocal { local, number }, hole);
    }
    let number = u32::from(count) + hole;
    (OpenLocal { local, number }, hole + 1)
}

/// Locals of which the first hole has this number, and the number of the hole behind them.
fn open_locals<'a>(
    alloc: Global,
    locals: &'a [Local],
    count: u16,
    hole: u32,
) -> Result<(Vec<OpenLocal<'a>>, u32), NoMemory>
    requires { hole + length locals.now ≤ 2 ^ 31 }
    ensures made { IfOk result (λ t. (t.0.items, t.1) ≡ in_turn (map (opened_local count) locals.now) hole) }
    ensures bound { IfOk result (λ t. t.1 ≤ hole + length locals.now) }
{
    let mut out = Vec::new(alloc);
    let mut hole = hole;
    for local in locals {
        let (open, next) = open_local(local, count, hole);
        out.push(open)?;
        hole = next;
    }
    Ok((out, hole))
}

/// The methods of a bundle, with a number of its own for each hole, and how many holes there are.
pub(crate) fn open_methods<'a>(
    alloc: Global,
    methods: &'a [Method],
    count: u16,
) -> Result<(Vec<OpenMethod<'a>>, u32), NoMemory>
    requires few { length methods.now ≤ 256 }
    requires few_locals { All (λ m. length m.locals ≤ 256) methods.now }
    ensures { IfOk result (λ t. (t.0.items, t.1) ≡ in_turn (map (opened_method count) methods.now) 0) }
{
    let mut out = Vec::new(alloc);
    let mut hole = 0;
    for method in methods {
        let (locals, next) = open_locals(alloc, method.locals.as_slice(), count, hole)?;
        out.push(OpenMethod { method, locals })?;
        hole = next;
    }
    Ok((out, hole))
}
