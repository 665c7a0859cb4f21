//! The text of a bundle that is made up.
ghost use Rattle.std.specs.Prelude.{◌≡◌, ◌+◌, ◌*◌, ◌<◌, ◌≤◌, ◌++◌, OnOk, IfOk, flat_map};
ghost use Rattle.std.specs.String.{string_bytes};
ghost use Rattle.fab_language.specs.Words.{line};
ghost use Rattle.fab_gen.specs.Generated.{account, head, root_line, root_lines, request_line, request_lines, session_line, session_lines, generated_text};

use fab_base::{NoMemory, Seq};
use std::alloc::Global;

/// How many workers there are.
const WORKERS: u32 = 4;

/// What stands before the accounts: the nodes, the label, the class and the method.
const HEAD: &str = "principal Bank;
worker w0;
worker w1;
worker w2;
worker w3;
store s0;
store s1;
w0 actsfor Bank;
w1 actsfor Bank;
w2 actsfor Bank;
w3 actsfor Bank;
s0 actsfor Bank;
s1 actsfor Bank;
label T = {Bank ->; Bank <-};
class Account label T access T { int balance; }
method move(Account a : T, Account b : T, int n : T) begin T fails {
  a.balance = a.balance - n;
  b.balance = b.balance + n;
}
run {
";

/// The head.
fn put_head(out: &mut Seq<u8>) -> Result<(), NoMemory>
    ensures { OnOk result (out.new ≡ out.old ++ flat_map line head) }
{
    out.extend(HEAD.as_bytes())
}

/// The name of a worker's account.
fn account_name(alloc: Global, worker: u32, place: u32) -> Result<String, NoMemory>
    ensures { IfOk result (λ name. string_bytes name ≡ account worker place) }
{
    format!(in alloc; "a{worker}_{place}")
}

/// The line of a worker's account.
fn put_root(
    alloc: Global,
    out: &mut Seq<u8>,
    number: u32,
    worker: u32,
    place: u32,
) -> Result<(), NoMemory>
    ensures { OnOk result (out.new ≡ out.old ++ line (root_line number worker place)) }
{
    let name = account_name(alloc, worker, place)?;
    let store = place % 2;
    let sum = u64::from(number) + 7 * u64::from(place) + 13 * u64::from(worker);
    let balance = 1000 + sum % 100;
    let text = format!(in alloc; "  root {name} : Account @ s{store} ({balance});\n")?;
    out.extend(text.as_str().as_bytes())
}

/// The line of a worker's request.
fn put_request(
    alloc: Global,
    out: &mut Seq<u8>,
    number: u32,
    size: u32,
    worker: u32,
    place: u32,
) -> Result<(), NoMemory>
    requires { place < size }
    ensures { OnOk result (out.new ≡ out.old ++ line (request_line number size worker place)) }
{
    let from = account_name(alloc, worker, place)?;
    let to = account_name(alloc, worker, (place + 1) % size)?;
    let amount = 1 + (u64::from(number) + u64::from(place)) % 9;
    let text = format!(in alloc; "    move({from}, {to}, {amount});\n")?;
    out.extend(text.as_str().as_bytes())
}

/// The accounts of a worker.
fn put_roots(
    alloc: Global,
    out: &mut Seq<u8>,
    number: u32,
    size: u32,
    worker: u32,
) -> Result<(), NoMemory>
    ensures { OnOk result (out.new ≡ out.old ++ flat_map line (root_lines number size worker)) }
{
    for place in 0..size {
        put_root(alloc, out, number, worker, place)?;
    }
    Ok(())
}

/// The requests of a worker.
fn put_requests(
    alloc: Global,
    out: &mut Seq<u8>,
    number: u32,
    size: u32,
    worker: u32,
) -> Result<(), NoMemory>
    ensures { OnOk result (out.new ≡ out.old ++ flat_map line (request_lines number size worker)) }
{
    for place in 0..size {
        put_request(alloc, out, number, size, worker, place)?;
    }
    Ok(())
}

/// The first line of a worker's session.
fn put_opening(alloc: Global, out: &mut Seq<u8>, worker: u32) -> Result<(), NoMemory>
    ensures { OnOk result (out.new ≡ out.old ++ line (session_line worker)) }
{
    let text = format!(in alloc; "  session w{worker} {{\n")?;
    out.extend(text.as_str().as_bytes())
}

/// The session of a worker.
fn put_session(
    alloc: Global,
    out: &mut Seq<u8>,
    number: u32,
    size: u32,
    worker: u32,
) -> Result<(), NoMemory>
    ensures { OnOk result (out.new ≡ out.old ++ flat_map line (session_lines number size worker)) }
{
    put_opening(alloc, out, worker)?;
    put_requests(alloc, out, number, size, worker)?;
    out.extend(b"  }\n")
}

/// The bundle that is made up from a number and a size, laid out as canonical text is. All its nodes,
/// the workers `w0` to `w3` and the stores `s0` and `s1`, act for the principal `Bank`, and all that
/// there is has its label `T`. Counting from 0 and below the size, account I of worker K is the root
/// `aK_I` of class `Account`, at the store of number I modulo 2; its balance is 1000 more than N +
/// 7 I + 13 K modulo 100, where N is the number. Request I of worker K moves 1 more than N + I
/// modulo 9 from its account I to the one behind it, from the last to the first. No two workers
/// share an account.
pub fn generated(alloc: Global, number: u32, size: u32) -> Result<Seq<u8>, NoMemory>
    requires some { 1 ≤ size }
    requires few { size ≤ 1000 }
    ensures { IfOk result (λ bytes. bytes ≡ generated_text number size) }
{
    let mut text = Seq::new(alloc);
    put_head(&mut text)?;
    for worker in 0..WORKERS {
        put_roots(alloc, &mut text, number, size, worker)?;
    }
    for worker in 0..WORKERS {
        put_session(alloc, &mut text, number, size, worker)?;
    }
    text.extend(b"}\n")?;
    Ok(text)
}
