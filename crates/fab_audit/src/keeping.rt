//! What belongs in the places of the journals that an auditor is shown.

ghost use Rattle.std.specs.Prelude.{◌≡◌, ◌++◌, ◌==◌, ◌&&◌, OnOk, map};
ghost use Rattle.std.specs.List.{AllByRecursion, list_any};
ghost use Rattle.fab_reports.specs.Lines.{AreBytes};
ghost use Rattle.fab_net.specs.Events.{node_at as node_in};
ghost use Rattle.fab_audit.specs.Keeping.{IsShownOf};
ghost use Rattle.fab_audit.specs.Right.{kept_journal};
ghost use Rattle.fab_evidence.specs.Texts.{journal_line, journals_text};

use fab_base::{NoMemory, Seq};
use fab_core::Core;
use fab_device::SureJournal;
use fab_evidence::ShownJournal;
use fab_lines::{node_name, put_hex, put_word};
use fab_net::{Logged, node_at};
use fab_tree::resolved::Resolved;

/// Whether a call of the journal of this node failed in these events.
fn has_failed(log: &[Logged], node: u16) -> bool
    ensures { result ≡ list_any (λ x. x.marked && (node_in x.event == node)) log.now }
{
    log.iter().any(|x| x.marked && node_at(x.event) == node)
}

/// The line of a journal.
fn put_line(out: &mut Seq<u8>, program: &Resolved, node: u16, bytes: &[u8]) -> Result<(), NoMemory>
    ensures line { OnOk result (out.new ≡ out.old ++ journal_line program.now (record { node = node; bytes = bytes.now })) }
    ensures bytes { AreBytes bytes.now }
{
    out.extend(b"journal")?;
    put_word(out, node_name(program, node))?;
    out.push(b' ')?;
    put_hex(out, bytes)?;
    out.push(b'\n')
}

/// The line that belongs in the place of a journal: that of the run, or the one that is shown where a call of it failed.
fn put_kept(
    out: &mut Seq<u8>,
    core: &Core<SureJournal>,
    program: &Resolved,
    journal: &ShownJournal,
) -> Result<(), NoMemory>
    requires program { program.now ≡ core.now.given.program }
    requires shown { IsShownOf core.now.given journal.now }
    ensures line { OnOk result (out.new ≡ out.old ++ journal_line program.now (kept_journal program.now core.now.given.rights core.now.moves journal.now)) }
    ensures bytes { AreBytes (kept_journal program.now core.now.given.rights core.now.moves journal.now).bytes }
{
    core.journals_are();
    if has_failed(core.log(), journal.node) {
        put_line(out, program, journal.node, journal.bytes.as_slice())
    } else {
        put_line(
            out,
            program,
            journal.node,
            core.journal(journal.node).bytes(),
        )
    }
}

/// The lines that belong in the places of journals.
pub(crate) fn put_all_kept(
    out: &mut Seq<u8>,
    core: &Core<SureJournal>,
    program: &Resolved,
    journals: &[ShownJournal],
) -> Result<(), NoMemory>
    requires program { program.now ≡ core.now.given.program }
    requires shown { AllByRecursion (IsShownOf core.now.given) journals.now }
    ensures lines { OnOk result (out.new ≡ out.old ++ journals_text program.now (map (kept_journal program.now core.now.given.rights core.now.moves) journals.now)) }
    ensures bytes { OnOk result (AllByRecursion (λ j. AreBytes (kept_journal program.now core.now.given.rights core.now.moves j).bytes) journals.now) }
{
    let mut rest = journals;
    'journals: while let Some((journal, after)) = rest.split_first() {
        put_kept(out, core, program, journal)?;
        rest = after;
    }
    Ok(())
}
