//! What all nodes are given.

ghost use Rattle.std.specs.Prelude.{◌≡◌, IfOk};
ghost use Rattle.fab_tree.specs.declared.start.Start.{Start};
ghost use Rattle.fab_language.specs.Numbers.{resolved};
ghost use Rattle.fab_language.specs.Evaluation.{map_at_start};
ghost use Rattle.fab_settings.specs.Settings.{IsAcceptedWith};
ghost use Rattle.fab_node.specs.Standing.{IsGiven};

use fab_base::NoMemory;
use fab_evaluation::at_start;
use fab_map::ObjectMap;
use fab_rights::Rights;
use fab_tree::resolved::Resolved;
use std::alloc::Global;
use std::marker::Model;
use std::sync::Arc;

/// An accepted bundle with numbers for names, its rights, and the objects that there are from the
/// start, in the order of their names.
pub struct Given {
    pub(crate) program: Arc<Resolved>,
    pub(crate) rights: Rights,
    pub(crate) roots: ObjectMap,
}

impl Drop for Given {
    fn drop(self) {
        let Given {
            program,
            rights,
            roots,
        } = self;
    }
}

impl Model for Given {
    ghost use Rattle.fab_node.specs.Standing.{GivenModel, IsGiven};
    ghost use Rattle.std.specs.Coded.{codes};
    ghost use Rattle.fab_tree.specs.contracts.resolved.Statement as statements;
    ghost use Rattle.fab_tree.specs.contracts.resolved.Expression as expressions;

    ghost Value = { GivenModel };

    ghost coded = { Prim.hlevel (codes, statements.the_row.coded, expressions.the_row.coded) };

    ghost view = { λ g. record { program = g.program.value; rights = g.rights; roots = g.roots } };

    ghost invariant = { λ g. IsGiven (record { program = g.program.value; rights = g.rights; roots = g.roots }) };
}

impl Given {
    /// What an accepted bundle gives, with these rights of it.
    pub fn make(alloc: Global, program: Arc<Resolved>, rights: Rights) -> Result<Given, NoMemory>
        requires { (s : Start) × (resolved s ≡ program.value) × IsAcceptedWith s rights }
        ensures { IfOk result (λ g. g ≡ record { program = program.value; rights = rights; roots = map_at_start program.value }) }
    {
        let roots = at_start(alloc, &program)?;
        Ok(Given {
            program,
            rights,
            roots,
        })
    }

    /// The bundle with numbers for names. What is given is always an accepted bundle's.
    pub fn program(&self) -> &Arc<Resolved>
        ensures program { result.now.value ≡ self.now.program }
        ensures given { IsGiven self.now }
    {
        &self.program
    }

    /// Its rights.
    pub fn rights(&self) -> &Rights
        ensures { result.now ≡ self.now.rights }
    {
        &self.rights
    }
}
