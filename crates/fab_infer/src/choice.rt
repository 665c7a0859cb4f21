//! Labels for the holes of a bundle with numbers for names.
ghost use Rattle.std.specs.Prelude.{◌≡◌, ◌≤◌, IfOk, length};
ghost use Rattle.fab_holes.specs.Chosen.{put_first, put_locals, put_method, put_methods, with_chosen};

use fab_base::{NoMemory, Seq};
use fab_tree::resolved::{Local, Method, Resolved};
use std::alloc::Global;
use std::mem;

/// A local with the first of these labels if it is a hole, and the labels that are left.
#[tactic(auto, using(fab_holes::proofs::Puts::kept_first))]
fn with_first(local: Local, count: u16, labels: &[u16]) -> (Local, &[u16])
    ensures { (result.0, result.1.now) ≡ put_first count local labels.now }
{
    if local.label.number < count {
        return (local, labels);
    }
    match labels.split_first() {
        None => (local, labels),
        Some((number, after)) => {
            let mut local = local;
            local.label.number = *number;
            (local, after)
        }
    }
}

/// Locals with these labels for their holes in turn, and the labels that are left.
fn with_labels(
    alloc: Global,
    locals: Seq<Local>,
    count: u16,
    labels: &[u16],
) -> Result<(Seq<Local>, &[u16]), NoMemory>
    ensures { IfOk result (λ t. (t.0, t.1.now) ≡ put_locals count locals labels.now) }
{
    let mut rest = labels;
    let mut out = Seq::new(alloc);
    'locals: for local in locals.into_vec() {
        let (local, after) = with_first(local, count, rest);
        out.push(local)?;
        rest = after;
    }
    Ok((out, rest))
}

/// A method with these labels for its holes in turn, and the labels that are left.
fn with_choice(
    alloc: Global,
    method: Method,
    count: u16,
    labels: &[u16],
) -> Result<(Method, &[u16]), NoMemory>
    ensures { IfOk result (λ t. (t.0, t.1.now) ≡ put_method count method labels.now) }
{
    let mut method = method;
    let locals = mem::replace(&mut method.locals, Seq::new(alloc));
    let (locals, after) = with_labels(alloc, locals, count, labels)?;
    method.locals = locals;
    Ok((method, after))
}

/// Methods with these labels for their holes in turn.
fn with_choices(
    alloc: Global,
    methods: Seq<Method>,
    count: u16,
    labels: &[u16],
) -> Result<Seq<Method>, NoMemory>
    ensures { IfOk result (λ ms. ms ≡ (put_methods count methods labels.now).0) }
{
    let mut rest = labels;
    let mut out = Seq::new(alloc);
    'methods: for method in methods.into_vec() {
        let (method, after) = with_choice(alloc, method, count, rest)?;
        out.push(method)?;
        rest = after;
    }
    Ok(out)
}

/// A bundle with these labels for its holes in turn. What isn't a local's label stays.
pub(crate) fn chosen(alloc: Global, start: Resolved, labels: &[u16]) -> Result<Resolved, NoMemory>
    requires { length start.labels ≤ 64 }
    ensures { IfOk result (λ r. r ≡ with_chosen start labels.now) }
{
    let count = start.labels.len() as u16;
    let mut start = start;
    let methods = mem::replace(&mut start.methods, Seq::new(alloc));
    start.methods = with_choices(alloc, methods, count, labels)?;
    Ok(start)
}
