//! What is owed of several labels.
ghost use Rattle.std.specs.Prelude.{◌≡◌};
ghost use Rattle.fab_labelling.specs.Obligations.{all_conf, all_fail, all_flow};
ghost use Rattle.fab_labelling.specs.declared.rule.LabelRule.TheVariants.{Access as OfAccess};
ghost use Rattle.fab_check.specs.Noted.{all_noted};
ghost use Rattle.std.specs.Prelude.{None as Nowhere};

use crate::verdicts::Verdicts;
use fab_base::Seq;
use fab_labelling::LabelRule;

/// The labels that decide whether a statement runs, the outermost first, and the label to which its
/// failures flow, if there is one.
#[derive(Clone, Copy)]
pub(crate) struct Under<'a> {
    pub(crate) pc: &'a [u16],
    pub(crate) failure: Option<u16>,
}

impl<'a> Under<'a> {
    /// Under these labels.
    pub(crate) fn of(pc: &'a Seq<u16>, failure: Option<u16>) -> Under<'a>
        ensures pc { result.pc.now ≡ pc.now }
        ensures failure { result.failure ≡ failure }
    {
        Under {
            pc: pc.as_slice(),
            failure,
        }
    }
}

/// Each of these labels is to flow to that one.
#[tactic(auto, using(crate::proofs::Parts::in_parts, crate::proofs::Parts::in_none))]
pub(crate) fn note_flows(
    verdicts: &mut Verdicts<'_>,
    rule: LabelRule,
    at: u32,
    from: &[u16],
    to: u16,
)
    ensures { verdicts.new ≡ all_noted verdicts.old (all_flow rule at from.now to) }
{
    let mut rest = from;
    'labels: while let Some((label, after)) = rest.split_first() {
        verdicts.note_flow(rule, at, *label, to);
        rest = after;
    }
}

/// The confidentiality of each of these is to flow to that of that one.
#[tactic(auto, using(crate::proofs::Parts::in_parts, crate::proofs::Parts::in_none))]
pub(crate) fn note_confs(verdicts: &mut Verdicts<'_>, at: u32, from: &[u16], to: u16)
    ensures { verdicts.new ≡ all_noted verdicts.old (all_conf OfAccess at from.now to) }
{
    let mut rest = from;
    'labels: while let Some((label, after)) = rest.split_first() {
        verdicts.note_conf(at, *label, to);
        rest = after;
    }
}

/// None of these has a failure label to flow to.
#[tactic(auto, using(crate::proofs::Parts::in_parts, crate::proofs::Parts::in_none))]
fn note_nowhere(verdicts: &mut Verdicts<'_>, at: u32, from: &[u16])
    ensures { verdicts.new ≡ all_noted verdicts.old (all_fail at from.now Nowhere) }
{
    let mut rest = from;
    'labels: while let Some((label, after)) = rest.split_first() {
        verdicts.note_nowhere(at, *label);
        rest = after;
    }
}

/// Each of these is to flow to the failure label.
pub(crate) fn note_failures(
    verdicts: &mut Verdicts<'_>,
    at: u32,
    from: &[u16],
    failure: Option<u16>,
)
    ensures { verdicts.new ≡ all_noted verdicts.old (all_fail at from.now failure) }
{
    match failure {
        None => note_nowhere(verdicts, at, from),
        Some(to) => note_flows(verdicts, LabelRule::Fail, at, from, to),
    }
}
