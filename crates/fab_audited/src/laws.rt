//! A law of audits, over every run of an accepted bundle. The function does nothing: its contract is the law.
ghost use Rattle.std.specs.Prelude.{◌++◌, ℕ, List};
ghost use Rattle.std.specs.List.{AllByRecursion};
ghost use Rattle.fab_audit.specs.Right.{IsKept, IsRight};
ghost use Rattle.fab_audit.specs.Runs.{honest_nodes};
ghost use Rattle.fab_base.specs.declared.token.Token.{Token};
ghost use Rattle.fab_base.specs.Tokens.{Lexes};
ghost use Rattle.fab_evidence.specs.declared.shown.ShownJournal.{ShownJournal};
ghost use Rattle.fab_evidence.specs.Texts.{AreOf, journals_text};
ghost use Rattle.fab_language.specs.Numbers.{resolved};
ghost use Rattle.fab_rights.specs.declared.rights.Rights.{Rights};
ghost use Rattle.fab_settings.specs.Settings.{IsAcceptedWith, setting_of};
ghost use Rattle.fab_shown.specs.Shown.{report_of};
ghost use Rattle.fab_tree.specs.declared.start.Start.{Start};
ghost use Rattle.fab_tree.specs.Syntax.{IsText};
ghost use Rattle.fab_world.specs.Machine.{Move};
ghost use Rattle.fab_world.specs.Serial.{IsRun};

/// The report of every run of an accepted bundle that a text stands for is right: alone, and with the journals that
/// nodes have behind the run, of whichever nodes in their order; of a node in which a call of the journal failed any
/// bytes may stand. The lines say nothing of marks. An event that was cut before its first byte, its node's last one,
/// counts as one in which a call of the journal failed unless a line says that the node has a request open; so the run
/// that the lines tell may have more marks than the run itself, but its report is the same, and so are the journals
/// of nodes without a mark.
pub fn reports_of_runs_are_right()
    ensures alone { (text : List ℕ) (ts : List Token) (s : Start) (rights : Rights) (moves : List Move) → Lexes 0 text ts → IsText ts s → IsAcceptedWith s rights
        → IsRun (setting_of (resolved s) rights) moves → IsRight (resolved s) rights (report_of (resolved s) rights moves) }
    ensures with_journals { (text : List ℕ) (ts : List Token) (s : Start) (rights : Rights) (moves : List Move) (journals : List ShownJournal)
        → Lexes 0 text ts → IsText ts s → IsAcceptedWith s rights → IsRun (setting_of (resolved s) rights) moves
        → AreOf (honest_nodes (resolved s) rights) journals → AllByRecursion (IsKept (resolved s) rights moves) journals
        → IsRight (resolved s) rights (report_of (resolved s) rights moves ++ journals_text (resolved s) journals) }
{}
