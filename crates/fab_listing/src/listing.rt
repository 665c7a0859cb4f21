//! What nodes of a set were sent.
ghost use Rattle.std.specs.Prelude.{◌≡◌, ◌+◌, ◌++◌, ◌∷◌, ◌<◌, ◌≤◌, [], OnOk, IfOk, codes, flat_map, length, not, sum_by};
ghost use Rattle.std.specs.List.{AllByRecursion};
ghost use Rattle.std.specs.Fmt.{decimal};
ghost use Rattle.fab_language.specs.Words.{line, spaced};
ghost use Rattle.fab_rights.specs.Computed.{has_bit};
ghost use Rattle.fab_sent.specs.Messages.{messages_in};
ghost use Rattle.fab_listing.specs.Listing.{count_from, lines_from, listing, message_line, node_count, nodes_where, pair_lines};

use fab_base::{NoMemory, Seq};
use fab_rights::is_in;
use fab_sent::Sent;
use fab_trace::{put_bytes, put_node, put_number};
use fab_tree::resolved::Resolved;
use std::alloc::{AllocError, Global};

/// How many workers and stores there are.
fn node_count(program: &Resolved) -> usize
    ensures count { result ≡ node_count program.now }
    ensures few { result ≤ length program.now.nodes }
{
    program
        .nodes
        .as_slice()
        .iter()
        .filter(|principal| principal.node.is_some())
        .count()
}

/// The nodes of a set, in order.
fn nodes_inside(alloc: Global, program: &Resolved, nodes: u64) -> Result<Vec<u16>, NoMemory>
    requires few { length program.now.nodes ≤ 64 }
    ensures { IfOk result (λ x. x.items ≡ nodes_where program.now (has_bit nodes)) }
{
    let count = node_count(program) as u16;
    (0..count)
        .filter(|number| is_in(nodes, *number))
        .collect(alloc)
}

/// The other nodes, in order.
fn nodes_outside(alloc: Global, program: &Resolved, nodes: u64) -> Result<Vec<u16>, NoMemory>
    requires few { length program.now.nodes ≤ 64 }
    ensures { IfOk result (λ x. x.items ≡ nodes_where program.now (λ n. not (has_bit nodes n))) }
{
    let count = node_count(program) as u16;
    (0..count)
        .filter(|number| !is_in(nodes, *number))
        .collect(alloc)
}

/// The line of a message.
fn put_message(
    alloc: Global,
    out: &mut Seq<u8>,
    program: &Resolved,
    sender: u16,
    receiver: u16,
    number: u64,
    bytes: &[u8],
) -> Result<(), NoMemory>
    ensures { OnOk result (out.new ≡ out.old ++ message_line program.now sender receiver number bytes.now) }
{
    out.extend(b"message")?;
    put_node(out, program, sender)?;
    put_node(out, program, receiver)?;
    put_number(alloc, out, number)?;
    put_bytes(out, bytes)?;
    out.push(b'\n')
}

/// A line for each message from a node to another, numbered from 1.
fn put_pair(
    alloc: Global,
    out: &mut Seq<u8>,
    program: &Resolved,
    sender: u16,
    receiver: u16,
    messages: &[Seq<u8>],
) -> Result<(), NoMemory>
    ensures { OnOk result (out.new ≡ out.old ++ pair_lines program.now sender receiver 0 messages.now) }
{
    for (index, bytes) in messages.iter().enumerate() {
        let number = index as u64 + 1;
        let bytes = bytes.as_slice();
        put_message(alloc, out, program, sender, receiver, number, bytes)?;
    }
    Ok(())
}

/// A line for each message from a node to these. The answer is how many there are; a number above 64 bits
/// has no room in memory.
fn put_from(
    alloc: Global,
    out: &mut Seq<u8>,
    program: &Resolved,
    sent: &Sent,
    sender: u16,
    receivers: &[u16],
) -> Result<u64, NoMemory>
    requires sender { sender < 64 }
    requires receivers { AllByRecursion (λ d. d < 64) receivers.now }
    ensures text { OnOk result (out.new ≡ out.old ++ lines_from program.now (messages_in sent.now) receivers.now sender) }
    ensures count { IfOk result (λ n. n ≡ count_from (messages_in sent.now) receivers.now sender) }
{
    let mut count = 0_u64;
    let mut rest = receivers;
    'receivers: while let Some((receiver, after)) = rest.split_first() {
        let messages = sent.messages(sender, *receiver);
        put_pair(alloc, out, program, sender, *receiver, messages)?;
        count = count.checked_add(messages.len() as u64).ok_or(AllocError)?;
        rest = after;
    }
    Ok(count)
}

/// A line for each message from these nodes to those. The answer is how many there are.
fn put_all(
    alloc: Global,
    out: &mut Seq<u8>,
    program: &Resolved,
    sent: &Sent,
    senders: &[u16],
    receivers: &[u16],
) -> Result<u64, NoMemory>
    requires senders { AllByRecursion (λ n. n < 64) senders.now }
    requires receivers { AllByRecursion (λ d. d < 64) receivers.now }
    ensures text { OnOk result (out.new ≡ out.old ++ flat_map (lines_from program.now (messages_in sent.now) receivers.now) senders.now) }
    ensures count { IfOk result (λ n. n ≡ sum_by (count_from (messages_in sent.now) receivers.now) senders.now) }
{
    let mut count = 0_u64;
    let mut rest = senders;
    'senders: while let Some((sender, after)) = rest.split_first() {
        let more = put_from(alloc, out, program, sent, *sender, receivers)?;
        count = count.checked_add(more).ok_or(AllocError)?;
        rest = after;
    }
    Ok(count)
}

/// The last line, with the number of messages.
fn put_end(alloc: Global, out: &mut Seq<u8>, messages: u64) -> Result<(), NoMemory>
    ensures { OnOk result (out.new ≡ out.old ++ line (codes "end" ++ spaced (decimal messages ∷ []))) }
{
    out.extend(b"end")?;
    put_number(alloc, out, messages)?;
    out.push(b'\n')
}

/// What nodes outside a set have sent to those of the set, in bytes: a line for each message, by its
/// sender, then its receiver and then its turn, and a last line with their number. Bit n of the set
/// stands for node n.
pub fn print_view(
    alloc: Global,
    program: &Resolved,
    nodes: u64,
    sent: &Sent,
) -> Result<Seq<u8>, NoMemory>
    requires few { length program.now.nodes ≤ 64 }
    ensures { IfOk result (λ bytes. bytes ≡ listing program.now (has_bit nodes) (λ n d. messages_in sent.now n d)) }
{
    let outside = nodes_outside(alloc, program, nodes)?;
    let inside = nodes_inside(alloc, program, nodes)?;
    let mut text = Seq::new(alloc);
    let (senders, receivers) = (outside.as_slice(), inside.as_slice());
    let messages = put_all(alloc, &mut text, program, sent, senders, receivers)?;
    put_end(alloc, &mut text, messages)?;
    Ok(text)
}
