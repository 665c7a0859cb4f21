//! Laws of the flow of labels.
ghost use Rattle.std.specs.Prelude.{◌≡◌, ◌↔◌, [], ◌∷◌, ◌++◌, Any, All};
ghost use Rattle.fab_base.specs.declared.label.Label.{Label as AnyLabel};
ghost use Rattle.fab_base.specs.declared.label.Policy.{Policy as AnyPolicy};
ghost use Rattle.fab_base.specs.Principals.{Delegations};
ghost use Rattle.fab_base.specs.Labels.{Covers, Flows, FlowsConf, FlowsInteg};

/// Flow is reflexive and transitive.
pub fn flow_laws()
    ensures reflexive { (d : Delegations) (a : AnyLabel) → Flows d a a }
    ensures transitive { (d : Delegations) (a b c : AnyLabel) → Flows d a b → Flows d b c → Flows d a c }
{}

/// A further policy of confidentiality never lets a label flow where it didn't, and a label without
/// policies flows to every label in confidentiality.
pub fn confidentiality_laws()
    ensures further { (d : Delegations) (a b : AnyLabel) (policy : AnyPolicy)
        → FlowsConf d (record a { conf = a.conf ++ policy ∷ [] }) b
        → FlowsConf d a b }
    ensures free { (d : Delegations) (a b : AnyLabel) → a.conf ≡ [] → FlowsConf d a b }
{}

/// A label flows to another in confidentiality exactly where each of its policies is covered by one
/// of the other's, and in integrity exactly where each of the other's is covered by one of its own.
pub fn cover_laws()
    ensures conf { (d : Delegations) (a b : AnyLabel)
        → FlowsConf d a b ↔ All (λ i. Any (λ j. Covers d j i) b.conf) a.conf }
    ensures integ { (d : Delegations) (a b : AnyLabel)
        → FlowsInteg d a b ↔ All (λ i. Any (λ j. Covers d j i) a.integ) b.integ }
{}
