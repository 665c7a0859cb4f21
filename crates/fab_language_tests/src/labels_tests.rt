//! Answers that follow from the definitions by hand. Alice is 0, Bob 1, Carol 2 and Dave 3, and
//! Carol acts for Alice.

use fab_base::{Label, Policy, Seq};
use fab_labels::{declass_ok, endorse_ok, flows, flows_conf};
use fab_principals::Acts;
use std::alloc::Global;
use std::test::Fail;

/// An owner and a reader or writer. `(0, 0)` stands for `Alice ->` or `Alice <-`.
type Row = (u16, u16);

#[derive(Drop)]
struct Case {
    acts: Acts,
    a: Label,
    b: Label,
}

fn policies(alloc: Global, rows: &[Row]) -> Result<Seq<Policy>, Fail> {
    let mut list = Seq::new(alloc);
    for (owner, other) in rows {
        let owner = *owner;
        let others = Seq::from_slice(alloc, &[*other])?;
        list.push(Policy { owner, others })?;
    }
    Ok(list)
}

fn label(alloc: Global, conf: &[Row], integ: &[Row]) -> Result<Label, Fail> {
    Ok(Label {
        conf: policies(alloc, conf)?,
        integ: policies(alloc, integ)?,
    })
}

/// From `Alice -> Bob` and `Alice -> Dave` to `Alice ->`, with `Alice <-` in both.
fn up(alloc: Global) -> Result<Case, Fail> {
    Ok(Case {
        acts: Acts::close(alloc, 4, &[(2, 0)])?,
        a: label(alloc, &[(0, 1), (0, 3)], &[(0, 0)])?,
        b: label(alloc, &[(0, 0)], &[(0, 1), (0, 0)])?,
    })
}

/// Nobody acts for both Bob and Dave: single readers can't tell the readers of the two labels
/// apart, groups can. Carol has authority over Alice's policy, and an endorsement gives no readers.
#[test]
fn labels_flow_up_and_down_by_authority(rt: HostRuntime) -> Result<(), Fail> {
    let case = up(rt.alloc())?;
    assert!(rt; flows(&case.acts, &case.a, &case.b));
    assert!(rt; !flows_conf(&case.acts, &case.b, &case.a));
    assert!(rt; declass_ok(&case.acts, &case.b, &case.a, 4));
    assert!(rt; !endorse_ok(&case.acts, &case.b, &case.a, 4));
    Ok(())
}

#[test]
fn a_path_is_found(rt: HostRuntime) -> Result<(), Fail> {
    let acts = Acts::close(rt.alloc(), 3, &[(2, 1), (1, 0)])?;
    assert!(rt; acts.path(2, 0)?.is_some());
    Ok(())
}
