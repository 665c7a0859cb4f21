//! Methods with numbers for names.
ghost use Rattle.std.specs.Prelude.{◌≡◌, ◌≤◌, map, option_map, flat_map, length, IfOk};
ghost use Rattle.fab_language.specs.MethodNumbers.{method_of, methods_of, numbered_local, result_of, returns_of};
ghost use Rattle.fab_language.specs.Uses.{principal_use};
ghost use Rattle.fab_tree.specs.Limits.{greatest, locals_of};
ghost use Rattle.fab_tree.specs.Sites.{in_method};
ghost use Rattle.fab_numbers.specs.Gives.{Gives};

use crate::declarations::{label_use, numbered_sort, principal_use};
use crate::expressions::numbered_expression;
use crate::locals::{Declaration, Locals};
use crate::parts::copied;
use crate::scope::Scope;
use crate::sites::Refusal;
use crate::statements::numbered_block;
use fab_base::{NoMemory, Seq};
use fab_tables::Tables;
use fab_tree::resolved::{
    Local, Method as NumberedMethod, Return as NumberedReturn, Returns as NumberedReturns, Use,
};
use fab_tree::{Method, Name, Return, Returns};
use std::alloc::{AllocError, Global};

/// The methods of a bundle, with sites from 0.
pub(crate) fn numbered_methods<'a>(
    alloc: Global,
    tables: &Tables<'a>,
    methods: &'a [Method],
) -> Result<Seq<NumberedMethod>, NoMemory>
    requires fields { greatest (map (λ c. length c.fields) tables.now.program.classes) ≤ 16 }
    requires parameters { greatest (map (λ m. length m.parameters) methods.now) ≤ 16 }
    requires locals { greatest (map (λ m. length (locals_of m)) methods.now) ≤ 256 }
    requires sites { length (flat_map in_method methods.now) ≤ 65000 }
    ensures { IfOk result (λ r. r ≡ (methods_of tables.now methods.now 0).0) }
{
    let mut sites = 0u16;
    match methods_in_turn(alloc, tables, &mut sites, methods) {
        Ok(numbered) => Ok(numbered),
        Err(Refusal::Memory) => Err(AllocError),
        Err(Refusal::Sites) => unreachable!(),
    }
}

fn methods_in_turn<'a>(
    alloc: Global,
    tables: &Tables<'a>,
    sites: &mut u16,
    methods: &'a [Method],
) -> Result<Seq<NumberedMethod>, Refusal>
    requires fields { greatest (map (λ c. length c.fields) tables.now.program.classes) ≤ 16 }
    requires parameters { greatest (map (λ m. length m.parameters) methods.now) ≤ 16 }
    requires locals { greatest (map (λ m. length (locals_of m)) methods.now) ≤ 256 }
    ensures { Gives result sites.new (methods_of tables.now methods.now sites.old) }
{
    let mut made = Seq::new(alloc);
    for method in methods {
        let one = numbered_method(alloc, tables, sites, method)?;
        made.push(one)?;
    }
    Ok(made)
}

fn numbered_method<'a>(
    alloc: Global,
    tables: &Tables<'a>,
    sites: &mut u16,
    method: &'a Method,
) -> Result<NumberedMethod, Refusal>
    requires fields { greatest (map (λ c. length c.fields) tables.now.program.classes) ≤ 16 }
    requires parameters { length method.now.parameters ≤ 16 }
    requires locals { length (locals_of method.now) ≤ 256 }
    ensures { Gives result sites.new (method_of tables.now method.now sites.old) }
{
    let scope = Scope {
        tables,
        locals: Locals::make(alloc, method)?,
    };
    let body = numbered_block(alloc, &scope, sites, method.body.as_slice())?;
    let result = numbered_result(alloc, &scope, sites, &method.result)?;
    Ok(NumberedMethod {
        name: copied(&method.name)?,
        parameters: method.parameters.len() as u16,
        locals: numbered_locals(alloc, tables, scope.locals.as_slice())?,
        returns: numbered_returns(tables, &method.returns),
        begin: label_use(tables, &method.begin),
        fails: method.fails,
        authority: Seq::from_vec(authority(alloc, tables, method.authority.as_slice())?),
        body,
        result,
    })
}

fn numbered_result(
    alloc: Global,
    scope: &Scope<'_, '_>,
    sites: &mut u16,
    returned: &Option<Return>,
) -> Result<Option<NumberedReturn>, Refusal>
    ensures { Gives result sites.new (result_of scope.now.tables.now scope.now.locals returned.now sites.old) }
{
    match returned {
        Some(returned) => Ok(Some(NumberedReturn {
            value: numbered_expression(alloc, scope, sites, &returned.value)?,
            at: returned.at,
        })),
        None => Ok(None),
    }
}

fn numbered_returns(tables: &Tables<'_>, returns: &Option<Returns>) -> Option<NumberedReturns>
    ensures { result ≡ option_map (returns_of tables.now) returns.now }
{
    match returns {
        Some(returns) => Some(NumberedReturns {
            sort: numbered_sort(tables, &returns.sort),
            label: label_use(tables, &returns.label),
        }),
        None => None,
    }
}

/// Principals by their numbers.
fn authority(alloc: Global, tables: &Tables<'_>, names: &[Name]) -> Result<Vec<Use>, NoMemory>
    ensures { IfOk result (λ v. v.items ≡ map (principal_use tables.now) names.now) }
{
    names
        .iter()
        .map(|name| principal_use(tables, name))
        .collect(alloc)
}

fn numbered_locals(
    alloc: Global,
    tables: &Tables<'_>,
    locals: &[Declaration<'_>],
) -> Result<Seq<Local>, NoMemory>
    ensures { IfOk result (λ r. r ≡ map (numbered_local tables.now) locals.now) }
{
    let mut made = Seq::new(alloc);
    for local in locals {
        made.push(numbered_local(tables, local)?)?;
    }
    Ok(made)
}

fn numbered_local(tables: &Tables<'_>, local: &Declaration<'_>) -> Result<Local, NoMemory>
    ensures { IfOk result (λ r. r ≡ numbered_local tables.now local.now) }
{
    Ok(Local {
        sort: numbered_sort(tables, local.sort),
        name: copied(local.name)?,
        label: label_use(tables, local.label),
    })
}
