//! Methods and programs.
ghost use Rattle.std.specs.Prelude.{◌≡◌, OnOk, IsTrue};
ghost use Rattle.fab_tree.specs.Print as print;
ghost use Rattle.fab_print.specs.Adding.{Adds};

use crate::declaration::put_sort;
use crate::expression::put_expression;
use crate::list::{print_all, print_in_brackets, put_spaced_names};
use crate::piece::{Print, put_name};
use crate::statement::put_statements;
use fab_base::{NoMemory, Seq};
use fab_tree::{Method, Name, Parameter, Program, Return, Returns};
use std::alloc::Global;

impl Print for Parameter {
    ghost use Rattle.fab_tree.specs.Print.{parameter};

    ghost inks = { parameter };

    fn print(&self, _alloc: Global, out: &mut Seq<u8>) -> Result<(), NoMemory> {
        put_sort(out, &self.sort)?;
        out.push(b' ')?;
        put_name(out, &self.name)?;
        out.extend(b" : ")?;
        put_name(out, &self.label)?;
        Ok(())
    }
}

/// What a method returns, where it does.
fn put_returns(out: &mut Seq<u8>, returns: &Option<Returns>) -> Result<(), NoMemory>
    ensures { OnOk result (Adds (print.returns returns.now) out.old out.new) }
{
    match returns {
        None => Ok(()),
        Some(x) => {
            out.extend(b"returns ")?;
            put_sort(out, &x.sort)?;
            out.extend(b" : ")?;
            put_name(out, &x.label)?;
            out.push(b' ')?;
            Ok(())
        }
    }
}

/// That a method may fail, where it may.
fn put_fails(out: &mut Seq<u8>, fails: bool) -> Result<(), NoMemory>
    ensures { OnOk result (Adds (print.fails fails) out.old out.new) }
{
    if fails {
        out.extend(b" fails")?;
    }
    Ok(())
}

/// A method's authority, where it has one.
fn put_authority(alloc: Global, out: &mut Seq<u8>, names: &[Name]) -> Result<(), NoMemory>
    ensures { OnOk result (Adds (print.authority names.now) out.old out.new) }
{
    match names.split_first() {
        None => Ok(()),
        Some(_) => {
            out.extend(b" authority")?;
            put_spaced_names(alloc, out, names)?;
            Ok(())
        }
    }
}

/// The line of a method's result, where it has one.
fn put_result(alloc: Global, out: &mut Seq<u8>, returned: &Option<Return>) -> Result<(), NoMemory>
    ensures { OnOk result (Adds (print.result returned.now) out.old out.new) }
{
    match returned {
        None => Ok(()),
        Some(x) => {
            out.extend(b"  return ")?;
            put_expression(alloc, out, &x.value)?;
            out.extend(b";\n")?;
            Ok(())
        }
    }
}

impl Print for Method {
    ghost use Rattle.fab_tree.specs.Print.{method};

    ghost inks = { method };

    fn print(&self, alloc: Global, out: &mut Seq<u8>) -> Result<(), NoMemory> {
        out.extend(b"method ")?;
        put_name(out, &self.name)?;
        print_in_brackets(alloc, out, self.parameters.as_slice())?;
        out.push(b' ')?;
        put_returns(out, &self.returns)?;
        out.extend(b"begin ")?;
        put_name(out, &self.begin)?;
        put_fails(out, self.fails)?;
        put_authority(alloc, out, self.authority.as_slice())?;
        out.extend(b" {\n")?;
        put_statements(alloc, out, 1, self.body.as_slice())?;
        put_result(alloc, out, &self.result)?;
        out.extend(b"}\n")?;
        Ok(())
    }
}

/// What a program declares.
pub(crate) fn put_program(
    alloc: Global,
    out: &mut Seq<u8>,
    program: &Program,
) -> Result<(), NoMemory>
    ensures { OnOk result (Adds (print.program program.now) out.old out.new) }
{
    print_all(alloc, out, program.nodes.as_slice())?;
    print_all(alloc, out, program.delegations.as_slice())?;
    print_all(alloc, out, program.labels.as_slice())?;
    print_all(alloc, out, program.classes.as_slice())?;
    print_all(alloc, out, program.methods.as_slice())?;
    Ok(())
}
