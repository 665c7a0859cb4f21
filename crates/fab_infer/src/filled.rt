//! A bundle with labels for its holes.
ghost use Rattle.std.specs.Prelude.{◌≡◌, IfOk, map};
ghost use Rattle.fab_tree.specs.declared.statement.Statement.TheVariants.{Atomic, Declare, If};
ghost use Rattle.fab_language.specs.MethodNumbers.{in_turn};
ghost use Rattle.fab_holes.specs.Holes.{filled, filled_method, filled_parameter, filled_statement};
ghost use Rattle.fab_infer.specs.Fill.{IsFilled, filled_others, of_labels};

use crate::declared::Declared;
use fab_base::{NoMemory, Seq};
use fab_tree::{Expression, Method, Name, Parameter, Start, Statement};
use std::alloc::Global;
use std::mem;

/// A parameter with a label for its hole, and the labels that are left.
fn fill_parameter<'c>(
    declared: &Declared<'_>,
    parameter: Parameter,
    choice: &'c [u16],
) -> Result<(Parameter, &'c [u16]), NoMemory>
    ensures { IfOk result (λ t. IsFilled (λ choice. filled_parameter (of_labels declared.now.labels.now) choice parameter) choice.now t.0 t.1.now) }
{
    let Parameter { sort, name, label } = parameter;
    let (label, left) = declared.fill_name(label, choice)?;
    Ok((Parameter { sort, name, label }, left))
}

/// Parameters with labels for their holes, and the labels that are left.
fn fill_parameters<'c>(
    alloc: Global,
    declared: &Declared<'_>,
    parameters: Seq<Parameter>,
    choice: &'c [u16],
) -> Result<(Seq<Parameter>, &'c [u16]), NoMemory>
    ensures { IfOk result (λ t. IsFilled (λ choice. in_turn (map (filled_parameter (of_labels declared.now.labels.now) choice) parameters)) choice.now t.0 t.1.now) }
{
    let mut left = choice;
    let mut out = Seq::new(alloc);
    'parameters: for parameter in parameters.into_vec() {
        let (parameter, after) = fill_parameter(declared, parameter, left)?;
        out.push(parameter)?;
        left = after;
    }
    Ok((out, left))
}

/// Statements with labels for their holes, and the labels that are left.
#[cycle(fill)]
fn fill_block<'c>(
    alloc: Global,
    declared: &Declared<'_>,
    block: Seq<Statement>,
    choice: &'c [u16],
) -> Result<(Seq<Statement>, &'c [u16]), NoMemory>
    ensures { IfOk result (λ t. IsFilled (λ choice. in_turn (map (filled_statement (of_labels declared.now.labels.now) choice) block)) choice.now t.0 t.1.now) }
{
    let mut left = choice;
    let mut out = Seq::new(alloc);
    'statements: for statement in block.into_vec() {
        let (statement, after) = fill_statement(alloc, declared, statement, left)?;
        out.push(statement)?;
        left = after;
    }
    Ok((out, left))
}

/// The other block of an `if`, if there is one, with labels for its holes, and the labels that are left.
#[cycle(fill)]
fn fill_other<'c>(
    alloc: Global,
    declared: &Declared<'_>,
    otherwise: Option<Seq<Statement>>,
    choice: &'c [u16],
) -> Result<(Option<Seq<Statement>>, &'c [u16]), NoMemory>
    ensures { IfOk result (λ t. IsFilled (λ choice. filled_others (of_labels declared.now.labels.now) choice otherwise) choice.now t.0 t.1.now) }
{
    match otherwise {
        None => Ok((None, choice)),
        Some(block) => {
            let (block, left) = fill_block(alloc, declared, block, choice)?;
            Ok((Some(block), left))
        }
    }
}

/// The declaration of a local with a label for its hole, and the labels that are left.
fn fill_declaration<'c>(
    declared: &Declared<'_>,
    local: Parameter,
    value: Expression,
    at: u32,
    choice: &'c [u16],
) -> Result<(Statement, &'c [u16]), NoMemory>
    ensures { IfOk result (λ t. IsFilled (λ choice. filled_statement (of_labels declared.now.labels.now) choice (Declare local.sort local.name local.label value at)) choice.now t.0 t.1.now) }
{
    let Parameter { sort, name, label } = local;
    let (label, left) = declared.fill_name(label, choice)?;
    let statement = Statement::Declare {
        sort,
        name,
        label,
        value,
        at,
    };
    Ok((statement, left))
}

/// An `if` with labels for its holes, and the labels that are left.
#[cycle(fill)]
fn fill_choice<'c>(
    alloc: Global,
    declared: &Declared<'_>,
    condition: Expression,
    block: Seq<Statement>,
    otherwise: Option<Seq<Statement>>,
    choice: &'c [u16],
) -> Result<(Statement, &'c [u16]), NoMemory>
    ensures { IfOk result (λ t. IsFilled (λ choice. filled_statement (of_labels declared.now.labels.now) choice (If condition block otherwise)) choice.now t.0 t.1.now) }
{
    let (block, left) = fill_block(alloc, declared, block, choice)?;
    let (otherwise, left) = fill_other(alloc, declared, otherwise, left)?;
    let statement = Statement::If {
        condition,
        block,
        otherwise,
    };
    Ok((statement, left))
}

/// An `atomic` with labels for its holes, and the labels that are left.
#[cycle(fill)]
fn fill_atomic<'c>(
    alloc: Global,
    declared: &Declared<'_>,
    label: Name,
    block: Seq<Statement>,
    otherwise: Seq<Statement>,
    at: u32,
    choice: &'c [u16],
) -> Result<(Statement, &'c [u16]), NoMemory>
    ensures { IfOk result (λ t. IsFilled (λ choice. filled_statement (of_labels declared.now.labels.now) choice (Atomic label block otherwise at)) choice.now t.0 t.1.now) }
{
    let (block, left) = fill_block(alloc, declared, block, choice)?;
    let (otherwise, left) = fill_block(alloc, declared, otherwise, left)?;
    let statement = Statement::Atomic {
        label,
        block,
        otherwise,
        at,
    };
    Ok((statement, left))
}

/// A statement with labels for its holes, and the labels that are left.
#[cycle(fill)]
fn fill_statement<'c>(
    alloc: Global,
    declared: &Declared<'_>,
    statement: Statement,
    choice: &'c [u16],
) -> Result<(Statement, &'c [u16]), NoMemory>
    ensures { IfOk result (λ t. IsFilled (λ choice. filled_statement (of_labels declared.now.labels.now) choice statement) choice.now t.0 t.1.now) }
{
    match statement {
        Statement::Declare {
            sort,
            name,
            label,
            value,
            at,
        } => {
            let local = Parameter { sort, name, label };
            fill_declaration(declared, local, value, at, choice)
        }
        Statement::If {
            condition,
            block,
            otherwise,
        } => fill_choice(alloc, declared, condition, block, otherwise, choice),
        Statement::While { condition, block } => {
            let (block, left) = fill_block(alloc, declared, block, choice)?;
            Ok((Statement::While { condition, block }, left))
        }
        Statement::Atomic {
            label,
            block,
            otherwise,
            at,
        } => fill_atomic(alloc, declared, label, block, otherwise, at, choice),
        Statement::Assign { .. }
        | Statement::Write { .. }
        | Statement::Call { .. }
        | Statement::Fail { .. } => Ok((statement, choice)),
    }
}

/// A method with labels for its holes, and the labels that are left.
fn fill_method<'c>(
    alloc: Global,
    declared: &Declared<'_>,
    method: Method,
    choice: &'c [u16],
) -> Result<(Method, &'c [u16]), NoMemory>
    ensures { IfOk result (λ t. IsFilled (λ choice. filled_method (of_labels declared.now.labels.now) choice method) choice.now t.0 t.1.now) }
{
    let mut method = method;
    let parameters = mem::replace(&mut method.parameters, Seq::new(alloc));
    let (parameters, left) = fill_parameters(alloc, declared, parameters, choice)?;
    method.parameters = parameters;
    let body = mem::replace(&mut method.body, Seq::new(alloc));
    let (body, left) = fill_block(alloc, declared, body, left)?;
    method.body = body;
    Ok((method, left))
}

/// Methods with labels for their holes.
fn fill_methods(
    alloc: Global,
    declared: &Declared<'_>,
    methods: Seq<Method>,
    choice: &[u16],
) -> Result<Seq<Method>, NoMemory>
    ensures { IfOk result (λ ms. ms ≡ (in_turn (map (filled_method (of_labels declared.now.labels.now) choice.now) methods) 0).0) }
{
    let mut left = choice;
    let mut out = Seq::new(alloc);
    'methods: for method in methods.into_vec() {
        let (method, after) = fill_method(alloc, declared, method, left)?;
        out.push(method)?;
        left = after;
    }
    Ok(out)
}

/// The bundle with the names of these labels for its holes. The tree is taken and not copied.
pub fn fill(alloc: Global, start: Start, choice: &[u16]) -> Result<Start, NoMemory>
    ensures { IfOk result (λ s. s ≡ filled start choice.now) }
{
    let mut start = start;
    let methods = mem::replace(&mut start.program.methods, Seq::new(alloc));
    let declared = Declared::of(start.program.labels.as_slice());
    start.program.methods = fill_methods(alloc, &declared, methods, choice)?;
    Ok(start)
}
