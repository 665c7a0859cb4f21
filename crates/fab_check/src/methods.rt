//! What methods and roots owe.
ghost use Rattle.std.specs.Prelude.{◌≡◌, ◌∷◌, [], All, OnOk, map};
ghost use Rattle.std.specs.List.{flat_map};
ghost use Rattle.fab_labelling.specs.Obligations.{method_owes, root_owes};
ghost use Rattle.fab_authority.specs.Authority.{IsFew};
ghost use Rattle.fab_check.specs.Noted.{all_noted};
ghost use Rattle.fab_check.specs.Shown.{returning};

use crate::expressions::note_expression;
use crate::labels::labels_under;
use crate::notes::{Under, note_flows};
use crate::placement::note_placement;
use crate::scope::Scope;
use crate::statements::note_block;
use crate::verdicts::Verdicts;
use fab_base::NoMemory;
use fab_labelling::LabelRule;
use fab_tree::resolved::{Method, Resolved, Return, Returns, Root};

/// What is returned flows to the label of the result.
#[tactic(auto, using(crate::proofs::Parts::in_parts, crate::proofs::Parts::in_none))]
fn note_return(
    verdicts: &mut Verdicts<'_>,
    scope: &Scope<'_>,
    under: &Under<'_>,
    returns: Option<Returns>,
    returned: &Option<Return>,
) -> Result<(), NoMemory>
    ensures { OnOk result (verdicts.new ≡ all_noted verdicts.old (returning scope.now under.now returns returned.now)) }
{
    let Some(returned) = returned else {
        return Ok(());
    };
    note_expression(verdicts, &scope.names, under, &returned.value)?;
    if let Some(returns) = returns {
        let from = labels_under(verdicts.alloc(), &scope.names, under.pc, &returned.value)?;
        let to = returns.label.number;
        note_flows(verdicts, LabelRule::Write, returned.at, from.as_slice(), to);
    }
    Ok(())
}

/// What a method owes.
#[tactic(auto, using(crate::proofs::Parts::in_parts))]
fn note_method(
    verdicts: &mut Verdicts<'_>,
    start: &Resolved,
    method: &Method,
) -> Result<(), NoMemory>
    requires { IsFew method.now }
    ensures { OnOk result (verdicts.new ≡ all_noted verdicts.old (method_owes start.now.classes start.now.methods method.now)) }
{
    let scope = Scope::of(start, method);
    let begin = [method.begin.number];
    let under = Under {
        pc: &begin,
        failure: method.fails.then_some(method.begin.number),
    };
    note_block(verdicts, &scope, &under, method.body.as_slice())?;
    note_return(verdicts, &scope, &under, method.returns, &method.result)
}

/// What methods owe.
pub(crate) fn note_methods(verdicts: &mut Verdicts<'_>, start: &Resolved) -> Result<(), NoMemory>
    requires { All IsFew start.now.methods }
    ensures { OnOk result (verdicts.new ≡ all_noted verdicts.old (flat_map (method_owes start.now.classes start.now.methods) start.now.methods)) }
{
    for method in start.methods.as_slice() {
        note_method(verdicts, start, method)?;
    }
    Ok(())
}

/// What roots owe.
pub(crate) fn note_roots(verdicts: &mut Verdicts<'_>, roots: &[Root])
    ensures { verdicts.new ≡ all_noted verdicts.old (map root_owes roots.now) }
{
    let mut rest = roots;
    'roots: while let Some((root, after)) = rest.split_first() {
        note_placement(verdicts, root.name.at, root.oid.store, root.oid.class);
        rest = after;
    }
}
