//! The numbers in a bundle.
ghost use Rattle.std.specs.List.{flat_map};
ghost use Rattle.fab_settings.specs.Numbers.{AllFit, IsSmall, in_session, values_of};

use crate::bodies::read_methods;
use fab_base::Value;
use fab_tree::resolved::{Asked, Resolved, Root, Session};

/// Reads the number that a value is, if it is one.
fn read_value(value: &Value)
    ensures { IsSmall value.now }
{
    if let Value::Int(number) = value {
        let _number = *number;
    }
}

/// Reads the numbers among values.
fn read_values(values: &[Value])
    ensures { AllFit values.now }
{
    for value in values {
        read_value(value);
    }
}

/// Reads the numbers that the fields of roots begin with.
fn read_roots(roots: &[Root])
    ensures { AllFit (flat_map (λ x. x.values) roots.now) }
{
    for root in roots {
        read_values(root.values.as_slice());
    }
}

/// Reads the numbers that requests give.
fn read_requests(requests: &[Asked])
    ensures { AllFit (flat_map (λ a. a.request.args) requests.now) }
{
    for asked in requests {
        read_values(asked.request.args.as_slice());
    }
}

/// Reads the numbers that sessions give.
fn read_sessions(sessions: &[Session])
    ensures { AllFit (flat_map in_session sessions.now) }
{
    for session in sessions {
        read_requests(session.requests.as_slice());
    }
}

/// Reads each number that stands in a bundle. It gives nothing back, but who called it knows that each fits 32 bits.
pub fn read_numbers(resolved: &Resolved)
    ensures { AllFit (values_of resolved.now) }
{
    read_methods(resolved.methods.as_slice());
    read_roots(resolved.roots.as_slice());
    read_sessions(resolved.sessions.as_slice());
}
