//! A rule of names and types, as far as it speaks of what stands in a method.
ghost use Rattle.std.specs.Prelude.{◌≡◌};
ghost use Rattle.fab_language.specs.Heads.{declare, assign, write, call, test, atomic, result as result_head};
ghost use Rattle.fab_rules.specs.First.{first_from};

use fab_language::Fault;
use fab_rules::Known;
use fab_tree::{Expression, Name, Return, Right, Sort};

/// A rule, with what it says of each thing that stands in a method, over the locals that are known
/// there. Each call answers the first of the faults so far and of those in its thing.
pub trait HeadRule {
    ghost use Rattle.fab_faults.specs.HeadFaults.{Says};

    ghost says: { Self → Says };

    /// `T x : L = e;`
    fn in_declaration(
        &self,
        known: &Known,
        first: Option<Fault>,
        sort: &Sort,
        name: &Name,
        label: &Name,
        value: &Expression,
    ) -> Option<Fault>
        ensures { result ≡ first_from first (says self.now known.now (declare sort.now name.now label.now value.now)) };

    /// `x = ..;`
    fn in_assignment(
        &self,
        known: &Known,
        first: Option<Fault>,
        name: &Name,
        right: &Right,
    ) -> Option<Fault>
        ensures { result ≡ first_from first (says self.now known.now (assign name.now right.now)) };

    /// `x.f = e;`
    fn in_write(
        &self,
        known: &Known,
        first: Option<Fault>,
        object: &Name,
        field: &Name,
        value: &Expression,
    ) -> Option<Fault>
        ensures { result ≡ first_from first (says self.now known.now (write object.now field.now value.now)) };

    /// `m(..);`
    fn in_call(
        &self,
        known: &Known,
        first: Option<Fault>,
        method: &Name,
        arguments: &[Expression],
    ) -> Option<Fault>
        ensures { result ≡ first_from first (says self.now known.now (call method.now arguments.now)) };

    /// The condition of an `if` or a `while`.
    fn in_test(&self, known: &Known, first: Option<Fault>, condition: &Expression) -> Option<Fault>
        ensures { result ≡ first_from first (says self.now known.now (test condition.now)) };

    /// The label of an `atomic`.
    fn in_atomic(&self, known: &Known, first: Option<Fault>, label: &Name) -> Option<Fault>
        ensures { result ≡ first_from first (says self.now known.now (atomic label.now)) };

    /// `return e;`
    fn in_result(&self, known: &Known, first: Option<Fault>, value: &Return) -> Option<Fault>
        ensures { result ≡ first_from first (says self.now known.now (result_head value.now)) };
}
