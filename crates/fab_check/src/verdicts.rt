//! Which claims hold, and the first refusal so far.
ghost use Rattle.std.specs.Prelude.{◌≡◌, ◌≤◌, ◌∷◌, [], IfSome, length, None as Nothing};
ghost use Rattle.fab_language.specs.Flows.{delegations_of};
ghost use Rattle.fab_labelling.specs.Readers.{label_at, principal_of};
ghost use Rattle.fab_labelling.specs.Obligations.{owe, flows, conf, nowhere, holds};
ghost use Rattle.fab_labelling.specs.Refusals.{rank as rank_of};
ghost use Rattle.fab_labelling.specs.declared.rule.LabelRule.TheVariants.{Access as OfAccess, Fail as OfFail};
ghost use Rattle.fab_authority.specs.Decided.{decided};
ghost use Rattle.fab_check.specs.Noted.{all_noted, is_sooner, sooner, with_refusal};

use fab_authority::Answers;
use fab_base::{Label, Seq};
use fab_labelling::{LabelRule, Refusal, Side};
use fab_places::principal_of;
use fab_principals::Acts;
use fab_tree::resolved::Resolved;
use std::alloc::Global;
use std::marker::Model;

/// The place of a rule among those that a refusal names at one place.
fn rank(rule: LabelRule) -> u8
    ensures { result ≡ rank_of rule }
{
    match rule {
        LabelRule::Placement => 0,
        LabelRule::Begin => 1,
        LabelRule::Atomic => 2,
        LabelRule::Write => 3,
        LabelRule::Access => 4,
        LabelRule::Fail => 5,
        LabelRule::Declassify => 6,
        LabelRule::Endorse => 7,
        LabelRule::Authority => 8,
    }
}

/// Whether a refusal comes before another: by its place, and at one place by its rule.
fn is_sooner(refusal: Refusal, other: Refusal) -> bool
    ensures { result ≡ is_sooner refusal other }
{
    refusal.at < other.at || (refusal.at == other.at && rank(refusal.rule) < rank(other.rule))
}

/// The first of the refusal so far and this one.
fn sooner(first: Option<Refusal>, refusal: Refusal) -> Option<Refusal>
    ensures { result ≡ sooner first refusal }
{
    match first {
        None => Some(refusal),
        Some(before) => {
            if is_sooner(refusal, before) {
                Some(refusal)
            } else {
                Some(before)
            }
        }
    }
}

/// Who acts for whom in a bundle, and the first refusal so far. Contracts see the bundle and that
/// refusal.
#[derive(Drop)]
pub(crate) struct Verdicts<'a> {
    alloc: Global,
    start: &'a Resolved,
    acts: &'a Acts,
    blank: Label,
    flowing: Answers,
    hiding: Answers,
    placing: Answers,
    first: Option<Refusal>,
}

impl<'a> Model for Verdicts<'a> {
    ghost use Rattle.std.specs.Prelude.{◌≡◌, ◌≤◌, [], length};
    ghost use Rattle.fab_language.specs.Flows.{delegations_of};
    ghost use Rattle.std.specs.Coded.{codes};
    ghost use Rattle.fab_tree.specs.contracts.resolved.Statement as statements;
    ghost use Rattle.fab_tree.specs.contracts.resolved.Expression as expressions;
    ghost use Rattle.fab_check.specs.Noted.{Noting};
    ghost use Rattle.fab_authority.specs.Remembered.{HasAnswers};

    ghost Value = { Noting };

    ghost coded = { Prim.hlevel (codes, statements.the_row.coded, expressions.the_row.coded) };

    ghost view = { λ v. record { start = v.start.now; first = v.first } };

    ghost invariant = { λ v. (v.acts.now ≡ delegations_of v.start.now) × (v.blank ≡ record { conf = []; integ = [] }) × (length v.start.now.nodes ≤ 64) × HasAnswers v.start.now v.flowing v.hiding v.placing };
}

impl<'a> Verdicts<'a> {
    /// Nothing is refused so far.
    pub(crate) fn make(alloc: Global, start: &'a Resolved, acts: &'a Acts) -> Verdicts<'a>
        requires of { acts.now ≡ delegations_of start.now }
        requires few { length start.now.nodes ≤ 64 }
        ensures { result ≡ record { start = start.now; first = Nothing } }
    {
        let blank = Label {
            conf: Seq::new(alloc),
            integ: Seq::new(alloc),
        };
        Verdicts {
            alloc,
            start,
            acts,
            blank,
            flowing: Answers::new(),
            hiding: Answers::new(),
            placing: Answers::new(),
            first: None,
        }
    }

    /// Where memory comes from.
    pub(crate) fn alloc(&self) -> Global {
        self.alloc
    }

    /// The first refusal so far.
    pub(crate) fn first(&self) -> Option<Refusal>
        ensures { result ≡ self.now.first }
    {
        self.first
    }

    /// The bundle.
    pub(crate) fn start(&self) -> &'a Resolved
        ensures { result.now ≡ self.now.start }
    {
        self.start
    }

    /// The place of the worker or store of this number among all principals.
    pub(crate) fn principal(&self, number: u16) -> u16
        ensures { result ≡ principal_of self.now.start number }
    {
        principal_of(self.start, number) as u16
    }

    /// Who acts for whom.
    pub(crate) fn acts(&self) -> &Acts
        ensures { result.now ≡ delegations_of self.now.start }
    {
        self.acts
    }

    /// The label of a number.
    pub(crate) fn label(&self, number: u16) -> &Label
        ensures { result.now ≡ label_at self.now.start number }
    {
        match self.start.labels.as_slice().get(usize::from(number)) {
            Some(named) => &named.label,
            None => &self.blank,
        }
    }

    /// Whether the one label flows to the other, by what they say.
    fn ask_flows(&self, from: u16, to: u16) -> bool
        ensures { result ≡ decided self.now.start (flows from to) }
    {
        if from == to {
            return true;
        }
        fab_labels::flows(self.acts(), self.label(from), self.label(to))
    }

    /// Whether the confidentiality of the one label flows to that of the other, by what they say.
    fn ask_flows_conf(&self, from: u16, to: u16) -> bool
        ensures { result ≡ decided self.now.start (conf from to) }
    {
        if from == to {
            return true;
        }
        fab_labels::flows_conf(self.acts(), self.label(from), self.label(to))
    }

    /// Whether the one label flows to the other. It is asked once.
    pub(crate) fn flows(&mut self, from: u16, to: u16) -> bool
        ensures decided { result ≡ decided self.old.start (flows from to) }
        ensures same { self.new ≡ self.old }
    {
        match self.flowing.known(from, to) {
            Some(answer) => answer,
            None => {
                let answer = self.ask_flows(from, to);
                self.flowing.remember(from, to, answer);
                answer
            }
        }
    }

    /// Whether the confidentiality of the one label flows to that of the other. It is asked once.
    pub(crate) fn flows_conf(&mut self, from: u16, to: u16) -> bool
        ensures decided { result ≡ decided self.old.start (conf from to) }
        ensures same { self.new ≡ self.old }
    {
        match self.hiding.known(from, to) {
            Some(answer) => answer,
            None => {
                let answer = self.ask_flows_conf(from, to);
                self.hiding.remember(from, to, answer);
                answer
            }
        }
    }

    /// Whether the store may hold the class, if it was asked before.
    pub(crate) fn known_to_hold(&self, store: u16, class: u16) -> Option<bool>
        ensures { IfSome result (λ answer. answer ≡ decided self.now.start (holds store class)) }
    {
        self.placing.known(store, class)
    }

    /// Whether the store may hold the class is known from now on.
    pub(crate) fn remember_holding(&mut self, store: u16, class: u16, answer: bool)
        requires { answer ≡ decided self.old.start (holds store class) }
        ensures { self.new ≡ self.old }
    {
        self.placing.remember(store, class, answer);
    }

    /// One more refusal.
    pub(crate) fn refuse(&mut self, rule: LabelRule, at: u32, source: Side, target: Side)
        ensures { self.new ≡ with_refusal (record { rule = rule; at = at; source = source; target = target }) self.old }
    {
        let refusal = Refusal {
            rule,
            at,
            source,
            target,
        };
        self.first = sooner(self.first, refusal);
    }

    /// The one label is to flow to the other.
    #[tactic(auto, unfolding(crate::specs::Noted::all_noted))]
    pub(crate) fn note_flow(&mut self, rule: LabelRule, at: u32, from: u16, to: u16)
        ensures { self.new ≡ all_noted self.old (owe rule at (flows from to) ∷ []) }
    {
        if !self.flows(from, to) {
            self.refuse(rule, at, Side::Label(from), Side::Label(to));
        }
    }

    /// The confidentiality of the one label is to flow to that of the other.
    #[tactic(auto, unfolding(crate::specs::Noted::all_noted))]
    pub(crate) fn note_conf(&mut self, at: u32, from: u16, to: u16)
        ensures { self.new ≡ all_noted self.old (owe OfAccess at (conf from to) ∷ []) }
    {
        if !self.flows_conf(from, to) {
            self.refuse(LabelRule::Access, at, Side::Label(from), Side::Label(to));
        }
    }

    /// The label is to flow to a failure label that isn't there.
    #[tactic(auto, unfolding(crate::specs::Noted::all_noted, fab_authority::specs::Decided::decided))]
    pub(crate) fn note_nowhere(&mut self, at: u32, from: u16)
        ensures { self.new ≡ all_noted self.old (owe OfFail at (nowhere from) ∷ []) }
    {
        self.refuse(LabelRule::Fail, at, Side::Label(from), Side::Absent);
    }
}
