//! The locals of a method, found by name.
ghost use Rattle.std.specs.Prelude.{◌≡◌, ◌≤◌, ◌++◌, length, flat_map, IfOk, OnOk, option_copied};
ghost use Rattle.fab_language.specs.Names.{local_name, named};
ghost use Rattle.fab_language.specs.Uses.{local_number, local_use};
ghost use Rattle.fab_tables.specs.Places.{texts_of};
ghost use Rattle.fab_tree.specs.Limits.{declared_in, locals_of};

use fab_base::NoMemory;
use fab_tables::{NameTable, Named, first_named, number_of};
use fab_tree::resolved::Use;
use fab_tree::{Method, Name, Parameter, Sort, Statement};
use std::alloc::Global;
use std::marker::Model;

/// A local as it is declared, as a parameter or by a statement. Contracts see it as a parameter.
#[derive(Drop)]
pub(crate) struct Declaration<'a> {
    pub(crate) sort: &'a Sort,
    pub(crate) name: &'a Name,
    pub(crate) label: &'a Name,
}

impl<'a> Model for Declaration<'a> {
    ghost use Rattle.fab_tree.specs.declared.program.Parameter.{Parameter as Written};

    ghost Value = { Written };

    ghost view = { λ d. record { sort = d.sort.now; name = d.name.now; label = d.label.now } };
}

impl Named for Declaration<'_> {
    ghost use Rattle.fab_language.specs.Names.{local_name};

    ghost name = { local_name };

    fn name(&self) -> &Name {
        self.name
    }
}

impl<'a> Declaration<'a> {
    /// A parameter.
    fn of(parameter: &'a Parameter) -> Declaration<'a>
        ensures { result ≡ parameter.now }
    {
        Declaration {
            sort: &parameter.sort,
            name: &parameter.name,
            label: &parameter.label,
        }
    }
}

/// The locals of a method, with a table of their names. Contracts see them as a list.
pub(crate) struct Locals<'a> {
    declarations: Vec<Declaration<'a>>,
    table: NameTable<'a>,
}

impl Drop for Locals<'_> {
    fn drop(self) {
        let Locals {
            declarations,
            table,
        } = self;
    }
}

impl<'a> Model for Locals<'a> {
    ghost use Rattle.std.specs.Prelude.{List};
    ghost use Rattle.fab_tree.specs.declared.program.Parameter.{Parameter as Written};
    ghost use Rattle.fab_numbers.specs.Tabled.{IsTabled};

    ghost Value = { List Written };

    ghost view = { λ l. l.declarations.items };

    ghost invariant = { λ l. IsTabled l.declarations.items l.table };
}

impl<'a> Locals<'a> {
    /// The locals of a method: its parameters, and those that its body declares.
    pub(crate) fn make(alloc: Global, method: &'a Method) -> Result<Locals<'a>, NoMemory>
        requires { length (locals_of method.now) ≤ 256 }
        ensures { IfOk result (λ l. l ≡ locals_of method.now) }
    {
        let declarations = declarations_of(alloc, method)?;
        let table = table_of(alloc, &declarations)?;
        Ok(Locals {
            declarations,
            table,
        })
    }

    /// As they are declared.
    pub(crate) fn as_slice(&self) -> &[Declaration<'a>]
        ensures { result.now ≡ self.now }
    {
        self.declarations.as_slice()
    }

    /// The local of this name.
    pub(crate) fn find(&self, name: &Name) -> Option<&Declaration<'a>>
        ensures { option_copied result ≡ named local_name self.now name.now }
    {
        first_named(self.declarations.as_slice(), &self.table, name)
    }

    /// The number of the local of this name, or how many there are where none has it.
    pub(crate) fn number(&self, name: &Name) -> u16
        ensures { result ≡ local_number self.now name.now }
    {
        number_of(self.declarations.as_slice(), &self.table, name) as u16
    }

    /// The use of a local.
    pub(crate) fn local_use(&self, name: &Name) -> Use
        ensures { result ≡ local_use self.now name.now }
    {
        Use {
            number: self.number(name),
            at: name.at,
        }
    }
}

/// A table of the names of these.
fn table_of<'a>(alloc: Global, declarations: &[Declaration<'a>]) -> Result<NameTable<'a>, NoMemory>
    requires { length declarations.now ≤ 256 }
    ensures { IfOk result (λ t. t ≡ texts_of local_name declarations.now) }
{
    let mut table = NameTable::new(alloc);
    for declaration in declarations {
        table.push(declaration.name)?;
    }
    Ok(table)
}

fn declarations_of<'a>(alloc: Global, method: &'a Method) -> Result<Vec<Declaration<'a>>, NoMemory>
    ensures { IfOk result (λ v. v.items ≡ locals_of method.now) }
{
    let mut locals = Vec::new(alloc);
    for parameter in method.parameters.as_slice() {
        locals.push(Declaration::of(parameter))?;
    }
    gather_block(&mut locals, method.body.as_slice())?;
    Ok(locals)
}

/// The locals that a block declares, behind those that are there.
#[cycle(gather)]
fn gather_block<'a>(
    locals: &mut Vec<Declaration<'a>>,
    block: &'a [Statement],
) -> Result<(), NoMemory>
    ensures { OnOk result (locals.new.items ≡ locals.old.items ++ flat_map declared_in block.now) }
{
    for statement in block {
        gather(locals, statement)?;
    }
    Ok(())
}

/// The locals that a statement declares, behind those that are there.
#[cycle(gather)]
fn gather<'a>(locals: &mut Vec<Declaration<'a>>, statement: &'a Statement) -> Result<(), NoMemory>
    ensures { OnOk result (locals.new.items ≡ locals.old.items ++ declared_in statement.now) }
{
    match statement {
        Statement::Declare {
            sort,
            name,
            label,
            ..
        } => {
            locals.push(Declaration { sort, name, label })?;
            Ok(())
        }
        Statement::Assign { .. }
        | Statement::Write { .. }
        | Statement::Call { .. }
        | Statement::Fail { .. } => Ok(()),
        Statement::If {
            block,
            otherwise,
            ..
        } => {
            gather_block(locals, block.as_slice())?;
            match otherwise {
                Some(other) => gather_block(locals, other.as_slice()),
                None => Ok(()),
            }
        }
        Statement::While { block, .. } => gather_block(locals, block.as_slice()),
        Statement::Atomic {
            block,
            otherwise,
            ..
        } => {
            gather_block(locals, block.as_slice())?;
            gather_block(locals, otherwise.as_slice())
        }
    }
}
