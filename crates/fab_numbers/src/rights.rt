//! What is assigned to a local, with numbers for names.
ghost use Rattle.fab_language.specs.MethodNumbers.{right_of};
ghost use Rattle.fab_tree.specs.declared.statement.Right.TheVariants.{New, Downgrade as Lowered};
ghost use Rattle.fab_numbers.specs.Gives.{Gives};

use crate::declarations::{class_use, label_use, method_use, node_use};
use crate::expressions::{numbered_expression, numbered_expressions};
use crate::scope::Scope;
use crate::sites::{Refusal, next_site};
use fab_base::Seq;
use fab_tree::resolved::Right as NumberedRight;
use fab_tree::{Downgrade, Expression, Name, Right};
use std::alloc::Global;

/// What is assigned to a local. A new object and a downgrade take their sites before their parts do.
pub(crate) fn numbered_right(
    alloc: Global,
    scope: &Scope<'_, '_>,
    sites: &mut u16,
    right: &Right,
) -> Result<NumberedRight, Refusal>
    ensures { Gives result sites.new (right_of scope.now.tables.now scope.now.locals right.now sites.old) }
{
    match right {
        Right::Plain(value) => {
            let plain = numbered_expression(alloc, scope, sites, value)?;
            Ok(NumberedRight::Plain(plain))
        }
        Right::Call { method, arguments } => Ok(NumberedRight::Call {
            method: method_use(scope.tables, method),
            arguments: numbered_expressions(alloc, scope, sites, arguments.as_slice())?,
        }),
        Right::New {
            class,
            store,
            arguments,
            at,
        } => numbered_new(alloc, scope, sites, class, store, arguments, *at),
        Right::Downgrade {
            downgrade,
            value,
            from,
            to,
            at,
        } => numbered_downgrade(alloc, scope, sites, *downgrade, value, from, to, *at),
    }
}

fn numbered_new(
    alloc: Global,
    scope: &Scope<'_, '_>,
    sites: &mut u16,
    class: &Name,
    store: &Name,
    arguments: &Seq<Expression>,
    at: u32,
) -> Result<NumberedRight, Refusal>
    ensures { Gives result sites.new (right_of scope.now.tables.now scope.now.locals (New class.now store.now arguments.now at) sites.old) }
{
    let site = next_site(sites)?;
    let given = numbered_expressions(alloc, scope, sites, arguments.as_slice())?;
    Ok(NumberedRight::New {
        class: class_use(scope.tables, class),
        store: node_use(scope.tables, store),
        arguments: given,
        site,
        at,
    })
}

fn numbered_downgrade(
    alloc: Global,
    scope: &Scope<'_, '_>,
    sites: &mut u16,
    downgrade: Downgrade,
    value: &Expression,
    from: &Name,
    to: &Name,
    at: u32,
) -> Result<NumberedRight, Refusal>
    ensures { Gives result sites.new (right_of scope.now.tables.now scope.now.locals (Lowered downgrade value.now from.now to.now at) sites.old) }
{
    let site = next_site(sites)?;
    let lowered = numbered_expression(alloc, scope, sites, value)?;
    Ok(NumberedRight::Downgrade {
        downgrade,
        value: lowered,
        from: label_use(scope.tables, from),
        to: label_use(scope.tables, to),
        site,
        at,
    })
}
