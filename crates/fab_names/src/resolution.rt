//! Numbers for names.
ghost use Rattle.std.specs.Prelude.{◌≡◌, None as Nothing, [], ℕ, Err as Refusal, IfOk};
ghost use Rattle.fab_tree.specs.Limits.{first_passed};
ghost use Rattle.fab_language.specs.Faults.{faults, IsFirst};
ghost use Rattle.fab_language.specs.Numbers.{resolved};
ghost use Rattle.fab_language.specs.declared.rule.NameRule.{NameRule as Rule};
ghost use Rattle.fab_names.specs.declared.error.NameError.TheVariants.{Refused};

use crate::error::NameError;
use fab_faults::first_fault;
use fab_language::Fault;
use fab_numbers::numbered;
use fab_tables::Tables;
use fab_tree::Start;
use fab_tree::resolved::Resolved;
use std::alloc::Global;

/// The bundle of the tables with numbers for names, or its first fault.
fn resolved_by(alloc: Global, tables: &Tables<'_>) -> Result<Resolved, NameError>
    requires { first_passed tables.now ≡ Nothing }
    ensures right { IfOk result (λ _. faults tables.now ≡ []) }
    ensures resolved { IfOk result (λ r. r ≡ resolved tables.now) }
    ensures refused { (rule : Rule) (at : ℕ) → result ≡ Refusal (Refused rule at) → IsFirst (faults tables.now) (record { rule = rule; at = at }) }
{
    match first_fault(alloc, tables)? {
        Some(Fault { rule, at }) => Err(NameError::Refused { rule, at }),
        None => Ok(numbered(alloc, tables)?),
    }
}

/// The bundle with numbers for names, where it keeps the rules of names and types; else the first
/// fault, by its place, and at one place by the order of the rules.
pub fn resolve(alloc: Global, start: &Start) -> Result<Resolved, NameError>
    requires { first_passed start.now ≡ Nothing }
    ensures right { IfOk result (λ _. faults start.now ≡ []) }
    ensures resolved { IfOk result (λ r. r ≡ resolved start.now) }
    ensures refused { (rule : Rule) (at : ℕ) → result ≡ Refusal (Refused rule at) → IsFirst (faults start.now) (record { rule = rule; at = at }) }
{
    let tables = Tables::make(alloc, start)?;
    resolved_by(alloc, &tables)
}
