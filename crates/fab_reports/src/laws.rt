//! Laws of reports. The functions do nothing: their contracts are the laws.

ghost use Rattle.std.specs.Prelude.{◌≡◌, ℕ, List, [], ◌++◌};
ghost use Rattle.std.specs.List.{AllByRecursion};
ghost use Rattle.fab_base.specs.declared.object.Oid.{Oid};
ghost use Rattle.fab_base.specs.declared.object.Object.{Object};
ghost use Rattle.fab_tree.specs.declared.resolved.Resolved.{Resolved};
ghost use Rattle.fab_net.specs.declared.note.Logged.{Logged};
ghost use Rattle.fab_net.specs.declared.outcome.ReqOutcome.{ReqOutcome};
ghost use Rattle.fab_trace.specs.Report.{report};
ghost use Rattle.fab_reports.specs.declared.line.Line.{Line};
ghost use Rattle.fab_reports.specs.Lines.{IsLine};
ghost use Rattle.fab_reports.specs.Reports.{IsReport};
ghost use Rattle.fab_reports.specs.Printed.{lines_of_report};
ghost use Rattle.fab_reports.specs.Showable.{IsShowable};

/// What is printed of a run is the report of the lines that it shows, where each of them has a
/// spelling, as they have where names are words and numbers are those of the bundle and in their
/// ranges. So it is read back as those.
pub fn printed_report_has_its_lines()
    ensures spelled { (r : Resolved) (log : List Logged) (held : List (List (Oid × ℕ × Object))) (outcomes : List (List ReqOutcome))
        → AllByRecursion IsLine (lines_of_report r log held outcomes)
        → IsReport (report r log held outcomes) (lines_of_report r log held outcomes) }
    ensures shown { (r : Resolved) (log : List Logged) (held : List (List (Oid × ℕ × Object))) (outcomes : List (List ReqOutcome))
        → IsShowable r log held outcomes
        → IsReport (report r log held outcomes) (lines_of_report r log held outcomes) }
{}

/// Bytes are the report of one list of lines.
pub fn one_list_of_lines_a_report()
    ensures { (bytes : List ℕ) (m n : List Line) → IsReport bytes m → IsReport bytes n → m ≡ n }
{}

/// No report is a proper front of another.
pub fn no_report_begins_another()
    ensures { (bytes more : List ℕ) (m n : List Line)
        → IsReport bytes m → IsReport (bytes ++ more) n → more ≡ [] }
{}
