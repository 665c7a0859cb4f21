//! Statements and blocks.
ghost use Rattle.std.specs.Prelude.{◌≡◌, OnOk, map};
ghost use Rattle.fab_base.specs.declared.token.Mark.{Mark};
ghost use Rattle.fab_base.specs.Tokens.{mark_text};
ghost use Rattle.fab_tree.specs.declared.statement.Right.TheVariants as rights;
ghost use Rattle.fab_tree.specs.declared.statement.Statement.TheOpen as forms;
ghost use Rattle.fab_tree.specs.Print as print;
ghost use Rattle.fab_print.specs.Adding.{Adds, IsSpelled, atomic, ended, guarded};

use crate::declaration::put_sort;
use crate::expression::{put_arguments, put_expression};
use crate::piece::{put_indent, put_name, within};
use fab_base::{NoMemory, Seq};
use fab_tree::{Downgrade, Expression, Name, Right, Sort, Statement};
use std::alloc::Global;

/// How a downgrade is written.
fn downgrade_text(downgrade: Downgrade) -> &'static str
    ensures { IsSpelled (print.downgrade downgrade) result.now }
{
    match downgrade {
        Downgrade::Declassify => "declassify",
        Downgrade::Endorse => "endorse",
    }
}

/// What a local is assigned.
fn put_right(alloc: Global, out: &mut Seq<u8>, right: &Right) -> Result<(), NoMemory>
    ensures { OnOk result (Adds (print.right right.now) out.old out.new) }
{
    match right {
        Right::Plain(value) => {
            put_expression(alloc, out, value)?;
            Ok(())
        }
        Right::Call { method, arguments } => {
            put_name(out, method)?;
            put_arguments(alloc, out, arguments.as_slice())?;
            Ok(())
        }
        Right::New {
            class,
            store,
            arguments,
            at: _,
        } => {
            out.extend(b"new ")?;
            put_name(out, class)?;
            out.extend(b" @ ")?;
            put_name(out, store)?;
            out.push(b' ')?;
            put_arguments(alloc, out, arguments.as_slice())?;
            Ok(())
        }
        Right::Downgrade {
            downgrade,
            value,
            from,
            to,
            at: _,
        } => put_downgrade(alloc, out, *downgrade, value, from, to),
    }
}

/// A value at another label.
fn put_downgrade(
    alloc: Global,
    out: &mut Seq<u8>,
    downgrade: Downgrade,
    value: &Expression,
    from: &Name,
    to: &Name,
) -> Result<(), NoMemory>
    ensures { OnOk result (Adds (print.right (rights.Downgrade downgrade value.now from.now to.now 0)) out.old out.new) }
{
    out.extend(downgrade_text(downgrade).as_bytes())?;
    out.push(b'(')?;
    put_expression(alloc, out, value)?;
    out.extend(b", ")?;
    put_name(out, from)?;
    out.extend(b" to ")?;
    put_name(out, to)?;
    out.push(b')')?;
    Ok(())
}

/// The statements of a block, each at this level.
#[cycle(statement)]
pub(crate) fn put_statements(
    alloc: Global,
    out: &mut Seq<u8>,
    level: usize,
    statements: &[Statement],
) -> Result<(), NoMemory>
    ensures { OnOk result (Adds (print.all (map (λ x. print.statement x level) statements.now)) out.old out.new) }
{
    'statements: for statement in statements {
        put_statement(alloc, out, level, statement)?;
    }
    Ok(())
}

/// A statement.
#[cycle(statement)]
fn put_statement(
    alloc: Global,
    out: &mut Seq<u8>,
    level: usize,
    statement: &Statement,
) -> Result<(), NoMemory>
    ensures { OnOk result (Adds (print.statement statement.now level) out.old out.new) }
{
    match statement {
        Statement::Declare {
            sort,
            name,
            label,
            value,
            at: _,
        } => put_declaration(alloc, out, level, sort, name, label, value),
        Statement::Assign { name, right } => put_assignment(alloc, out, level, name, right),
        Statement::Write {
            object,
            field,
            value,
        } => put_write(alloc, out, level, object, field, value),
        Statement::Call { method, arguments } => put_call(alloc, out, level, method, arguments),
        Statement::If {
            condition,
            block,
            otherwise,
        } => {
            put_guarded(alloc, out, level, b"if", block.as_slice(), condition)?;
            match otherwise {
                None => put_end(out),
                Some(other) => put_else(alloc, out, level, other.as_slice()),
            }
        }
        Statement::While { condition, block } => {
            put_loop(alloc, out, level, block.as_slice(), condition)
        }
        Statement::Atomic {
            label,
            block,
            otherwise,
            at: _,
        } => {
            put_atomic(alloc, out, level, block.as_slice(), label)?;
            put_else(alloc, out, level, otherwise.as_slice())
        }
        Statement::Fail { at: _ } => put_fail(out, level),
    }
}

/// The declaration of a local.
fn put_declaration(
    alloc: Global,
    out: &mut Seq<u8>,
    level: usize,
    sort: &Sort,
    name: &Name,
    label: &Name,
    value: &Expression,
) -> Result<(), NoMemory>
    ensures { OnOk result (Adds (print.statement_step (forms.Declare sort.now name.now label.now value.now 0) level) out.old out.new) }
{
    put_indent(out, level)?;
    put_sort(out, sort)?;
    out.push(b' ')?;
    put_name(out, name)?;
    out.extend(b" : ")?;
    put_name(out, label)?;
    out.extend(b" = ")?;
    put_expression(alloc, out, value)?;
    out.extend(b";\n")?;
    Ok(())
}

/// The assignment to a local.
fn put_assignment(
    alloc: Global,
    out: &mut Seq<u8>,
    level: usize,
    name: &Name,
    right: &Right,
) -> Result<(), NoMemory>
    ensures { OnOk result (Adds (print.statement_step (forms.Assign name.now right.now) level) out.old out.new) }
{
    put_indent(out, level)?;
    put_name(out, name)?;
    out.extend(b" = ")?;
    put_right(alloc, out, right)?;
    out.extend(b";\n")?;
    Ok(())
}

/// The write of a field.
fn put_write(
    alloc: Global,
    out: &mut Seq<u8>,
    level: usize,
    object: &Name,
    field: &Name,
    value: &Expression,
) -> Result<(), NoMemory>
    ensures { OnOk result (Adds (print.statement_step (forms.Write object.now field.now value.now) level) out.old out.new) }
{
    put_indent(out, level)?;
    put_name(out, object)?;
    out.push(b'.')?;
    put_name(out, field)?;
    out.extend(b" = ")?;
    put_expression(alloc, out, value)?;
    out.extend(b";\n")?;
    Ok(())
}

/// A call.
fn put_call(
    alloc: Global,
    out: &mut Seq<u8>,
    level: usize,
    method: &Name,
    arguments: &Seq<Expression>,
) -> Result<(), NoMemory>
    ensures { OnOk result (Adds (print.statement_step (forms.Call method.now arguments.now) level) out.old out.new) }
{
    put_indent(out, level)?;
    put_name(out, method)?;
    put_arguments(alloc, out, arguments.as_slice())?;
    out.extend(b";\n")?;
    Ok(())
}

/// The statement that fails.
fn put_fail(out: &mut Seq<u8>, level: usize) -> Result<(), NoMemory>
    ensures { OnOk result (Adds (print.statement_step (forms.Fail 0) level) out.old out.new) }
{
    put_indent(out, level)?;
    out.extend(b"fail;\n")?;
    Ok(())
}

/// A condition in brackets behind its keyword, which is spelled so.
fn put_head(
    alloc: Global,
    out: &mut Seq<u8>,
    keyword: &[u8],
    condition: &Expression,
) -> Result<(), NoMemory>
    ensures { OnOk result ((x : Mark) → mark_text x ≡ keyword.now → Adds (print.head x condition.now) out.old out.new) }
{
    out.extend(keyword)?;
    out.extend(b" (")?;
    put_expression(alloc, out, condition)?;
    out.extend(b") ")?;
    Ok(())
}

/// Statements in braces. The closing one stands in a line at this level.
#[cycle(statement)]
fn put_block(
    alloc: Global,
    out: &mut Seq<u8>,
    level: usize,
    statements: &[Statement],
) -> Result<(), NoMemory>
    ensures { OnOk result (Adds (print.block level (map print.statement statements.now)) out.old out.new) }
{
    let inner = within(level)?;
    out.extend(b"{\n")?;
    put_statements(alloc, out, inner, statements)?;
    put_indent(out, level)?;
    out.push(b'}')?;
    Ok(())
}

/// A block behind a keyword, which is spelled so, and a condition.
#[cycle(statement)]
fn put_guarded(
    alloc: Global,
    out: &mut Seq<u8>,
    level: usize,
    keyword: &[u8],
    block: &[Statement],
    condition: &Expression,
) -> Result<(), NoMemory>
    ensures { OnOk result ((x : Mark) → mark_text x ≡ keyword.now → Adds (guarded level x condition.now (map print.statement block.now)) out.old out.new) }
{
    put_indent(out, level)?;
    put_head(alloc, out, keyword, condition)?;
    put_block(alloc, out, level, block)?;
    Ok(())
}

/// An atomic block.
#[cycle(statement)]
fn put_atomic(
    alloc: Global,
    out: &mut Seq<u8>,
    level: usize,
    block: &[Statement],
    label: &Name,
) -> Result<(), NoMemory>
    ensures { OnOk result (Adds (atomic level label.now (map print.statement block.now)) out.old out.new) }
{
    put_indent(out, level)?;
    out.extend(b"atomic ")?;
    put_name(out, label)?;
    out.push(b' ')?;
    put_block(alloc, out, level, block)?;
    Ok(())
}

/// A loop.
#[cycle(statement)]
fn put_loop(
    alloc: Global,
    out: &mut Seq<u8>,
    level: usize,
    block: &[Statement],
    condition: &Expression,
) -> Result<(), NoMemory>
    ensures { OnOk result (Adds (print.statement_step (forms.While condition.now (map print.statement block.now)) level) out.old out.new) }
{
    put_guarded(alloc, out, level, b"while", block, condition)?;
    put_end(out)?;
    Ok(())
}

/// The block behind `else`, at the end of its line.
#[cycle(statement)]
fn put_else(
    alloc: Global,
    out: &mut Seq<u8>,
    level: usize,
    block: &[Statement],
) -> Result<(), NoMemory>
    ensures { OnOk result (Adds (ended (print.else_block level (map print.statement block.now))) out.old out.new) }
{
    out.extend(b" else ")?;
    put_block(alloc, out, level, block)?;
    put_end(out)?;
    Ok(())
}

/// The end of a line.
fn put_end(out: &mut Seq<u8>) -> Result<(), NoMemory>
    ensures { OnOk result (Adds print.line_end out.old out.new) }
{
    out.push(b'\n')?;
    Ok(())
}
