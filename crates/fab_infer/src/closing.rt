//! Masks to which no flow adds. Each flow is gone through once, and then again only where the hole from
//! which it comes has gained: at most 64 times, once for each bit of a mask.
ghost use Rattle.std.specs.Prelude.{◌≡◌, ◌≢◌, ◌≤◌, ◌<◌, ◌^◌, ◌==◌, ◌++◌, [], ◌∷◌, if◌then◌else◌, ℕ, All, IfOk, OnOk, length, slice_get, slice_index};
ghost use Rattle.std.specs.List.{Contains};
ghost use Rattle.fab_holes.specs.Passes.{mask_at, mask_of, put, put_all, with_more};
ghost use Rattle.fab_infer.specs.Spreading.{AreClosed, is_gain, list_at, spread, targets_of};

use crate::flows::Flow;
use fab_base::{NoMemory, Seq};
use std::alloc::Global;

/// The mask of the hole of a number, without labels where there is none.
fn mask_at(masks: &[u64], hole: usize) -> u64
    ensures { result ≡ mask_at masks.now hole }
{
    match masks.get(hole) {
        Some(mask) => *mask,
        None => 0,
    }
}

/// A declared label itself, and what is known to lie below a hole.
fn mask_of(masks: &[u64], count: u16, label: u32) -> u64
    requires { count ≤ 64 }
    ensures { result ≡ mask_of count masks.now label }
{
    let count = u32::from(count);
    if label < count {
        return 1 << label;
    }
    mask_at(masks, (label - count) as usize)
}

/// More labels for the hole of a number. Says whether it gains by them.
fn gain(masks: &mut [u64], hole: usize, more: u64) -> bool
    ensures more { masks.new ≡ with_more masks.old hole more }
    ensures said { result ≡ is_gain masks.old hole more }
    ensures bits { (h : ℕ) → slice_index masks.new h < 2 ^ 64 }
{
    if hole >= masks.len() {
        return false;
    }
    let before = masks[hole];
    masks[hole] = before | more;
    masks[hole] != before
}

/// The first label flows to the second, which gains by it if it is a hole.
fn put(masks: &mut [u64], count: u16, flow: Flow)
    requires { count ≤ 64 }
    ensures { masks.new ≡ put count masks.old flow }
{
    let (from, to) = flow;
    let first = u32::from(count);
    if to >= first {
        let more = mask_of(masks, count, from);
        gain(masks, (to - first) as usize, more);
    }
}

/// Each of these flows in turn.
fn put_all(masks: &mut [u64], count: u16, flows: &[Flow])
    requires { count ≤ 64 }
    ensures { masks.new ≡ put_all count masks.old flows.now }
{
    let mut rest = flows;
    'flows: while let Some((flow, after)) = rest.split_first() {
        put(masks, count, *flow);
        rest = after;
    }
}

/// One number more in the list of this number, where there is one.
fn put_target(targets: &mut [Seq<u32>], hole: usize, target: u32) -> Result<(), NoMemory>
    ensures many { OnOk result (length targets.new ≡ length targets.old) }
    ensures lists { OnOk result ((h : ℕ) → h < length targets.old → list_at targets.new h ≡ list_at targets.old h ++ (if hole == h then target ∷ [] else [])) }
{
    if hole < targets.len() {
        targets[hole].push(target)?;
    }
    Ok(())
}

/// For each hole the holes to which it flows, in turn.
fn targets(alloc: Global, flows: &[Flow], count: u16, holes: u32) -> Result<Vec<Seq<u32>>, NoMemory>
    requires { All (λ p. count ≤ p.1) flows.now }
    ensures many { IfOk result (λ lists. length lists.items ≡ holes) }
    ensures lists { IfOk result (λ lists. (h : ℕ) → h < holes → list_at lists.items h ≡ targets_of count h flows.now) }
{
    let mut lists = Vec::new(alloc);
    for _ in 0..holes {
        lists.push(Seq::new(alloc))?;
    }
    let first = u32::from(count);
    for (from, to) in flows {
        if *from >= first {
            put_target(&mut lists, (*from - first) as usize, *to - first)?;
        }
    }
    Ok(lists)
}

/// These labels go on to each of these holes; those that gain by it wait for their turn.
fn spread(
    masks: &mut [u64],
    waiting: &mut Vec<u32>,
    more: u64,
    targets: &[u32],
) -> Result<(), NoMemory>
    ensures spread { OnOk result ((masks.new, waiting.new.items) ≡ spread more masks.old waiting.old.items targets.now) }
    ensures bits { (h : ℕ) → slice_index masks.new h < 2 ^ 64 }
{
    let mut rest = targets;
    'targets: while let Some((hole, after)) = rest.split_first() {
        if gain(masks, *hole as usize, more) {
            waiting.push(*hole)?;
        }
        rest = after;
    }
    Ok(())
}

/// The targets of the hole of a number, and none where there is no such hole.
fn targets_at(targets: &[Seq<u32>], hole: u32) -> &[u32]
    ensures { result.now ≡ list_at targets.now hole }
{
    match targets.get(hole as usize) {
        Some(list) => list.as_slice(),
        None => &[],
    }
}

/// The numbers of so many holes.
fn numbers(alloc: Global, holes: u32) -> Result<Vec<u32>, NoMemory>
    ensures { IfOk result (λ all. (h : ℕ) → h < holes → Contains all.items h) }
{
    let mut all = Vec::new(alloc);
    for hole in 0..holes {
        all.push(hole)?;
    }
    Ok(all)
}

/// For each hole the least mask to which no flow adds.
pub(crate) fn closed(
    alloc: Global,
    flows: &[Flow],
    count: u16,
    holes: u32,
) -> Result<Seq<u64>, NoMemory>
    requires few { count ≤ 64 }
    requires to_holes { All (λ p. count ≤ p.1) flows.now }
    ensures { IfOk result (AreClosed count holes flows.now) }
{
    let targets = targets(alloc, flows, count, holes)?;
    let mut masks = vec![in alloc; 0; holes as usize]?;
    put_all(&mut masks, count, flows);
    let mut waiting = numbers(alloc, holes)?;
    'waiting: while let Some(hole) = waiting.pop() {
        let more = mask_at(&masks, hole as usize);
        spread(&mut masks, &mut waiting, more, targets_at(&targets, hole))?;
    }
    Ok(Seq::from_vec(masks))
}
