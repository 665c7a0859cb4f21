//! Declarations: nodes, delegations, labels and classes.
ghost use Rattle.std.specs.Prelude.{◌≡◌, OnOk};
ghost use Rattle.fab_tree.specs.Marks.{width_mark};
ghost use Rattle.fab_tree.specs.Print as print;
ghost use Rattle.fab_print.specs.Adding.{Adds, IsSpelled};

use crate::list::{print_all, print_separated, put_spaced_names};
use crate::piece::{Print, put_name};
use fab_base::{NoMemory, Seq, Width};
use fab_tree::{Aspect, Class, Delegation, Field, LabelText, Node, PolicyText, Role, Sort};
use std::alloc::Global;

/// How a role is written.
fn role_text(role: Role) -> &'static str
    ensures { IsSpelled (print.role role) result.now }
{
    match role {
        Role::Principal => "principal",
        Role::Worker { hostile: false } => "worker",
        Role::Worker { hostile: true } => "hostile worker",
        Role::Store { hostile: false } => "store",
        Role::Store { hostile: true } => "hostile store",
    }
}

impl Print for Node {
    ghost use Rattle.fab_tree.specs.Print.{node};

    ghost inks = { node };

    fn print(&self, _alloc: Global, out: &mut Seq<u8>) -> Result<(), NoMemory> {
        out.extend(role_text(self.role).as_bytes())?;
        out.push(b' ')?;
        put_name(out, &self.name)?;
        out.extend(b";\n")?;
        Ok(())
    }
}

impl Print for Delegation {
    ghost use Rattle.fab_tree.specs.Print.{delegation};

    ghost inks = { delegation };

    fn print(&self, _alloc: Global, out: &mut Seq<u8>) -> Result<(), NoMemory> {
        put_name(out, &self.actor)?;
        out.extend(b" actsfor ")?;
        put_name(out, &self.principal)?;
        out.extend(b";\n")?;
        Ok(())
    }
}

/// How an aspect is written.
fn aspect_text(aspect: Aspect) -> &'static str
    ensures { IsSpelled (print.aspect aspect) result.now }
{
    match aspect {
        Aspect::Confidentiality => "->",
        Aspect::Integrity => "<-",
    }
}

impl Print for PolicyText {
    ghost use Rattle.fab_tree.specs.Print.{policy};

    ghost inks = { policy };

    fn print(&self, alloc: Global, out: &mut Seq<u8>) -> Result<(), NoMemory> {
        put_name(out, &self.owner)?;
        out.push(b' ')?;
        out.extend(aspect_text(self.aspect).as_bytes())?;
        put_spaced_names(alloc, out, self.others.as_slice())?;
        Ok(())
    }
}

impl Print for LabelText {
    ghost use Rattle.fab_tree.specs.Print.{label};

    ghost inks = { label };

    fn print(&self, alloc: Global, out: &mut Seq<u8>) -> Result<(), NoMemory> {
        out.extend(b"label ")?;
        put_name(out, &self.name)?;
        out.extend(b" = {")?;
        print_separated(alloc, out, b";", self.policies.as_slice())?;
        out.extend(b"};\n")?;
        Ok(())
    }
}

/// How the type of numbers of a width is written.
fn width_text(width: Width) -> &'static str
    ensures { IsSpelled (print.mark (width_mark width)) result.now }
{
    match width {
        Width::Int => "int",
    }
}

/// The type of a value.
pub(crate) fn put_sort(out: &mut Seq<u8>, sort: &Sort) -> Result<(), NoMemory>
    ensures { OnOk result (Adds (print.sort sort.now) out.old out.new) }
{
    match sort {
        Sort::Number(width) => {
            out.extend(width_text(*width).as_bytes())?;
            Ok(())
        }
        Sort::Class(class) => {
            put_name(out, class)?;
            Ok(())
        }
    }
}

impl Print for Field {
    ghost use Rattle.fab_tree.specs.Print.{field};

    ghost inks = { field };

    fn print(&self, _alloc: Global, out: &mut Seq<u8>) -> Result<(), NoMemory> {
        put_sort(out, &self.sort)?;
        out.push(b' ')?;
        put_name(out, &self.name)?;
        out.extend(b"; ")?;
        Ok(())
    }
}

impl Print for Class {
    ghost use Rattle.fab_tree.specs.Print.{class};

    ghost inks = { class };

    fn print(&self, alloc: Global, out: &mut Seq<u8>) -> Result<(), NoMemory> {
        out.extend(b"class ")?;
        put_name(out, &self.name)?;
        out.extend(b" label ")?;
        put_name(out, &self.label)?;
        out.extend(b" access ")?;
        put_name(out, &self.access)?;
        out.extend(b" { ")?;
        print_all(alloc, out, self.fields.as_slice())?;
        out.extend(b"}\n")?;
        Ok(())
    }
}
