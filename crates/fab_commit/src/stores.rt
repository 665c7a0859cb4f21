//! The stores that take part in a commit.
ghost use Rattle.std.specs.Prelude.{◌≡◌, ◌≤◌, [], IfOk, IfErr, OnOk, fold, length, map};
ghost use Rattle.std.specs.List.{insert};
ghost use Rattle.fab_base.specs.JournalSpelling.{AscendFrom};
ghost use Rattle.fab_protocol.specs.Parts.{stores_of, with_number};

use fab_base::NoMemory;
use fab_protocol::Parts;
use std::alloc::Global;

/// Where a number stands among ascending ones, or where it would go.
fn place(numbers: &[u16], number: u16) -> Result<usize, usize>
    requires { AscendFrom 0 numbers.now }
    ensures found { OnOk result (with_number numbers.now number ≡ numbers.now) }
    ensures range { IfErr result (λ at. at ≤ length numbers.now) }
    ensures absent { IfErr result (λ at. with_number numbers.now number ≡ insert numbers.now at number) }
{
    numbers.binary_search(&number)
}

/// A number among ascending ones.
fn add_number(numbers: &mut Vec<u16>, number: u16) -> Result<(), NoMemory>
    requires { AscendFrom 0 numbers.old.items }
    ensures added { OnOk result (numbers.new.items ≡ with_number numbers.old.items number) }
    ensures ascending { OnOk result (AscendFrom 0 numbers.new.items) }
{
    if let Err(at) = place(numbers, number) {
        numbers.insert(at, number)?;
    }
    Ok(())
}

/// The stores that take part, each once, in the order of numbers.
#[tactic(auto, using(crate::proofs::Numbers::stores_in_two))]
pub fn participants(alloc: Global, parts: &Parts) -> Result<Vec<u16>, NoMemory>
    ensures stores { IfOk result (λ stores. stores.items ≡ stores_of parts.now) }
    ensures ascending { OnOk result (AscendFrom 0 (stores_of parts.now)) }
{
    let mut stores = Vec::new(alloc);
    for touched in parts.touched.as_slice() {
        add_number(&mut stores, touched.0.store)?;
    }
    for create in parts.creates.as_slice() {
        add_number(&mut stores, create.0.store)?;
    }
    Ok(stores)
}
