//! What flows to the holes of a bundle, gathered in one walk over the bodies of its methods.
ghost use Rattle.std.specs.Prelude.{◌≡◌, ◌++◌, [], ◌∷◌, IfOk, OnOk, option_copied, slice_get};
ghost use Rattle.std.specs.List.{flat_map};
ghost use Rattle.fab_labelling.specs.Obligations.{parameter_labels};
ghost use Rattle.fab_holes.specs.Flowing.{all_to, method_flows, only};
ghost use Rattle.fab_infer.specs.Shown.{assigning, block_flows, call_flows, given_flows, inside_of, labels_of, returned, right_flows, right_labels, statement_flows};

use crate::labels::{Names, inside, local_at, put_labels};
use crate::opened::OpenMethod;
use crate::scope::Scope;
use fab_base::{NoMemory, Seq};
use fab_tree::resolved::{Class, Expression, Right, Statement, Use};
use std::alloc::Global;

/// The number of the label that flows, and of the one to which it flows: first the declared labels, and
/// behind them the holes.
pub(crate) type Flow = (u32, u32);

/// The first label flows to the second, which is told of holes.
fn put(flows: &mut Seq<Flow>, count: u16, from: u32, to: u32) -> Result<(), NoMemory>
    ensures { OnOk result (flows.new ≡ flows.old ++ only count ((from, to) ∷ [])) }
{
    if to < u32::from(count) {
        return Ok(());
    }
    flows.push((from, to))
}

/// Each of these labels flows to that one.
fn put_each(flows: &mut Seq<Flow>, count: u16, from: &[u32], to: u32) -> Result<(), NoMemory>
    ensures { OnOk result (flows.new ≡ flows.old ++ only count (all_to from.now to)) }
{
    let mut rest = from;
    'labels: while let Some((label, after)) = rest.split_first() {
        put(flows, count, *label, to)?;
        rest = after;
    }
    Ok(())
}

/// The labels of a method's parameters.
fn parameter_labels(alloc: Global, method: &OpenMethod<'_>) -> Result<Seq<u32>, NoMemory>
    ensures { IfOk result (λ ls. ls ≡ parameter_labels method.now) }
{
    let mut labels = Seq::new(alloc);
    let mut left = method.parameters();
    for local in method.locals() {
        if left == 0 {
            return Ok(labels);
        }
        left -= 1;
        labels.push(local.label())?;
    }
    Ok(labels)
}

/// These labels, and behind them those of what is read in an expression.
fn labels_behind(scope: &Scope<'_>, pc: &[u32], value: &Expression) -> Result<Seq<u32>, NoMemory>
    ensures { IfOk result (λ ls. ls ≡ pc.now ++ labels_of scope.now.names value.now) }
{
    let mut labels = Seq::from_slice(scope.alloc, pc)?;
    put_labels(&scope.names, &mut labels, value)?;
    Ok(labels)
}

/// A value is given to what has this label.
fn put_value(
    flows: &mut Seq<Flow>,
    scope: &Scope<'_>,
    pc: &[u32],
    value: &Expression,
    to: u32,
) -> Result<(), NoMemory>
    ensures { OnOk result (flows.new ≡ flows.old ++ only scope.now.count (all_to (pc.now ++ labels_of scope.now.names value.now) to)) }
{
    if to < u32::from(scope.count) {
        return Ok(());
    }
    let from = labels_behind(scope, pc, value)?;
    put_each(flows, scope.count, from.as_slice(), to)
}

/// Values are given in turn to what has these labels.
fn put_given(
    flows: &mut Seq<Flow>,
    scope: &Scope<'_>,
    pc: &[u32],
    values: &[Expression],
    to: &[u32],
) -> Result<(), NoMemory>
    ensures { OnOk result (flows.new ≡ flows.old ++ only scope.now.count (given_flows scope.now pc.now values.now to.now)) }
{
    let mut to = to;
    for value in values {
        match to.split_first() {
            None => return Ok(()),
            Some((label, after)) => {
                put_value(flows, scope, pc, value, *label)?;
                to = after;
            }
        }
    }
    Ok(())
}

/// The method of a number.
fn method_at<'a>(scope: &Scope<'a>, number: u16) -> Option<&'a OpenMethod<'a>>
    ensures { option_copied result ≡ slice_get scope.now.methods.now number }
{
    scope.methods.get(usize::from(number))
}

/// A method is called.
fn put_call(
    flows: &mut Seq<Flow>,
    scope: &Scope<'_>,
    pc: &[u32],
    method: Use,
    arguments: &[Expression],
) -> Result<(), NoMemory>
    ensures { OnOk result (flows.new ≡ flows.old ++ only scope.now.count (call_flows scope.now pc.now method arguments.now)) }
{
    match method_at(scope, method.number) {
        None => Ok(()),
        Some(called) => {
            let to = parameter_labels(scope.alloc, called)?;
            put_given(flows, scope, pc, arguments, to.as_slice())
        }
    }
}

/// The label of what a method returns, behind those that are there.
fn put_returned(scope: &Scope<'_>, out: &mut Seq<u32>, method: Use) -> Result<(), NoMemory>
    ensures { OnOk result (out.new ≡ out.old ++ returned scope.now (slice_get scope.now.methods.now method.number)) }
{
    match scope.methods.get(usize::from(method.number)) {
        None => Ok(()),
        Some(called) => match called.method.returns {
            None => Ok(()),
            Some(returns) => out.push(u32::from(returns.label.number)),
        },
    }
}

/// The labels of what is assigned, behind those that decide.
fn labels_of_right(scope: &Scope<'_>, pc: &[u32], right: &Right) -> Result<Seq<u32>, NoMemory>
    ensures { IfOk result (λ from. from ≡ pc.now ++ right_labels scope.now right.now) }
{
    let mut from = Seq::from_slice(scope.alloc, pc)?;
    match right {
        Right::Plain(value) => {
            put_labels(&scope.names, &mut from, value)?;
            Ok(from)
        }
        Right::Call { method, .. } => {
            put_returned(scope, &mut from, *method)?;
            Ok(from)
        }
        Right::New { .. } => Ok(from),
        Right::Downgrade { to, .. } => {
            from.push(u32::from(to.number))?;
            Ok(from)
        }
    }
}

/// What flows to the parameters of a method whose result is assigned.
fn put_right(
    flows: &mut Seq<Flow>,
    scope: &Scope<'_>,
    pc: &[u32],
    right: &Right,
) -> Result<(), NoMemory>
    ensures { OnOk result (flows.new ≡ flows.old ++ only scope.now.count (right_flows scope.now pc.now right.now)) }
{
    match right {
        Right::Call { method, arguments } => {
            put_call(flows, scope, pc, *method, arguments.as_slice())
        }
        Right::Plain(_) | Right::New { .. } | Right::Downgrade { .. } => Ok(()),
    }
}

/// What is assigned to a local with this label.
fn put_assigned(
    flows: &mut Seq<Flow>,
    scope: &Scope<'_>,
    pc: &[u32],
    right: &Right,
    to: u32,
) -> Result<(), NoMemory>
    ensures { OnOk result (flows.new ≡ flows.old ++ only scope.now.count (all_to (pc.now ++ right_labels scope.now right.now) to)) }
{
    if to < u32::from(scope.count) {
        return Ok(());
    }
    let from = labels_of_right(scope, pc, right)?;
    put_each(flows, scope.count, from.as_slice(), to)
}

/// A local is assigned.
fn put_assignment(
    flows: &mut Seq<Flow>,
    scope: &Scope<'_>,
    pc: &[u32],
    local: u16,
    right: &Right,
) -> Result<(), NoMemory>
    ensures { OnOk result (flows.new ≡ flows.old ++ only scope.now.count (assigning scope.now pc.now local right.now)) }
{
    put_right(flows, scope, pc, right)?;
    match local_at(&scope.names, local) {
        None => Ok(()),
        Some(found) => put_assigned(flows, scope, pc, right, found.label()),
    }
}

/// The labels that decide in a block whose condition is this expression.
fn inside_condition(
    scope: &Scope<'_>,
    pc: &[u32],
    condition: &Expression,
) -> Result<Seq<u32>, NoMemory>
    ensures { IfOk result (λ found. found ≡ inside_of scope.now.names pc.now condition.now) }
{
    let mut read = Seq::new(scope.alloc);
    put_labels(&scope.names, &mut read, condition)?;
    inside(scope.alloc, pc, read.as_slice())
}

/// The statements of a block.
#[cycle(block)]
fn put_block(
    flows: &mut Seq<Flow>,
    scope: &Scope<'_>,
    pc: &[u32],
    statements: &[Statement],
) -> Result<(), NoMemory>
    ensures { OnOk result (flows.new ≡ flows.old ++ only scope.now.count (block_flows scope.now pc.now statements.now)) }
{
    for statement in statements {
        put_statement(flows, scope, pc, statement)?;
    }
    Ok(())
}

/// A statement.
#[cycle(block)]
fn put_statement(
    flows: &mut Seq<Flow>,
    scope: &Scope<'_>,
    pc: &[u32],
    statement: &Statement,
) -> Result<(), NoMemory>
    ensures { OnOk result (flows.new ≡ flows.old ++ only scope.now.count (statement_flows scope.now pc.now statement.now)) }
{
    match statement {
        Statement::Assign { local, right, .. } => put_assignment(flows, scope, pc, *local, right),
        Statement::Write { .. } | Statement::Fail { .. } => Ok(()),
        Statement::Call { method, arguments } => {
            put_call(flows, scope, pc, *method, arguments.as_slice())
        }
        Statement::If {
            condition,
            block,
            otherwise,
        } => {
            let inner = inside_condition(scope, pc, condition)?;
            put_block(flows, scope, inner.as_slice(), block.as_slice())?;
            put_block(flows, scope, inner.as_slice(), otherwise.as_slice())
        }
        Statement::While { condition, block } => {
            let inner = inside_condition(scope, pc, condition)?;
            put_block(flows, scope, inner.as_slice(), block.as_slice())
        }
        Statement::Atomic {
            label,
            block,
            otherwise,
            ..
        } => {
            let inner = inside(scope.alloc, pc, &[u32::from(label.number)])?;
            put_block(flows, scope, inner.as_slice(), block.as_slice())?;
            put_block(flows, scope, inner.as_slice(), otherwise.as_slice())
        }
    }
}

/// A method.
fn put_method(
    alloc: Global,
    flows: &mut Seq<Flow>,
    classes: &[Class],
    methods: &[OpenMethod<'_>],
    method: &OpenMethod<'_>,
    count: u16,
) -> Result<(), NoMemory>
    ensures { OnOk result (flows.new ≡ flows.old ++ only count (method_flows classes.now methods.now method.now)) }
{
    let scope = Scope {
        names: Names {
            classes,
            locals: method.locals(),
        },
        methods,
        count,
        alloc,
    };
    put_block(flows, &scope, &[method.begin()], method.body())
}

/// All that flows to holes in the methods of a bundle, in the order of the text.
pub(crate) fn gathered(
    alloc: Global,
    classes: &[Class],
    methods: &[OpenMethod<'_>],
    count: u16,
) -> Result<Seq<Flow>, NoMemory>
    ensures { IfOk result (λ flows. flows ≡ only count (flat_map (method_flows classes.now methods.now) methods.now)) }
{
    let mut flows = Seq::new(alloc);
    for method in methods {
        put_method(alloc, &mut flows, classes, methods, method, count)?;
    }
    Ok(flows)
}
