//! Laws of what is shown, over every run of an accepted bundle. The functions do nothing: their contracts are the laws.
ghost use Rattle.std.specs.Prelude.{ℕ, List, []};
ghost use Rattle.std.specs.List.{AllByRecursion};
ghost use Rattle.fab_base.specs.declared.token.Token.{Token};
ghost use Rattle.fab_base.specs.Tokens.{Lexes};
ghost use Rattle.fab_language.specs.Numbers.{resolved};
ghost use Rattle.fab_reports.specs.Reports.{IsReport};
ghost use Rattle.fab_reports.specs.Showable.{AreHeldIn, AreOutcomesIn, IsCommitIn, IsLogIn, IsShowable};
ghost use Rattle.fab_rights.specs.declared.rights.Rights.{Rights};
ghost use Rattle.fab_settings.specs.Settings.{IsAcceptedWith, setting_of};
ghost use Rattle.fab_shown.specs.Shown.{all_held, all_outcomes, lines_of, log_of, report_of, world_behind};
ghost use Rattle.fab_trace.specs.Report.{commits_in};
ghost use Rattle.fab_tree.specs.declared.start.Start.{Start};
ghost use Rattle.fab_tree.specs.Syntax.{IsText};
ghost use Rattle.fab_world.specs.Machine.{Move};
ghost use Rattle.fab_world.specs.Serial.{IsRun};

/// What honest stores hold behind a run can be shown: each row has a name, a class of the bundle, a
/// version of 32 bits, and fields in their ranges, whatever hostile nodes have sent.
pub fn held_can_be_shown()
    ensures { (s : Start) (rights : Rights) (moves : List Move) → IsAcceptedWith s rights → IsRun (setting_of (resolved s) rights) moves
        → AreHeldIn (resolved s) 0 (all_held (resolved s) rights (world_behind (resolved s) rights moves)) }
{}

/// So can its commits: each is of a node of the bundle, of a request that is counted from 1, and of an
/// attempt whose boot and number have 32 bits.
pub fn commits_can_be_shown()
    ensures { (s : Start) (rights : Rights) (moves : List Move) → IsAcceptedWith s rights → IsRun (setting_of (resolved s) rights) moves
        → AllByRecursion (IsCommitIn (resolved s)) (commits_in (log_of (resolved s) rights moves)) }
{}

/// And its outcomes: each list is of a node of the bundle, results are in their ranges, and the node that
/// was silent or denied something is one of the bundle.
pub fn outcomes_can_be_shown()
    ensures { (s : Start) (rights : Rights) (moves : List Move) → IsAcceptedWith s rights → IsRun (setting_of (resolved s) rights) moves
        → AreOutcomesIn (resolved s) 0 (all_outcomes (resolved s) rights (world_behind (resolved s) rights moves)) }
{}

/// And its events, where the bundle is what a text stands for: each names nodes of the bundle, a post with its
/// receiver; what is delivered or posted is bytes; and of a record that is cut a number of 32 bits of bytes
/// stays.
pub fn events_can_be_shown()
    ensures { (text : List ℕ) (ts : List Token) (s : Start) (rights : Rights) (moves : List Move) → Lexes 0 text ts → IsText ts s → IsAcceptedWith s rights
        → IsRun (setting_of (resolved s) rights) moves → IsLogIn (resolved s) [] (log_of (resolved s) rights moves) }
{}

/// So all of it can be shown, in every run of an accepted bundle that a text stands for.
pub fn runs_can_be_shown()
    ensures { (text : List ℕ) (ts : List Token) (s : Start) (rights : Rights) (moves : List Move) → Lexes 0 text ts → IsText ts s → IsAcceptedWith s rights
        → IsRun (setting_of (resolved s) rights) moves
        → IsShowable (resolved s) (log_of (resolved s) rights moves) (all_held (resolved s) rights (world_behind (resolved s) rights moves))
        (all_outcomes (resolved s) rights (world_behind (resolved s) rights moves)) }
{}

/// And what is printed of such a run is the report of the lines that it shows.
pub fn reports_are_read_back()
    ensures { (text : List ℕ) (ts : List Token) (s : Start) (rights : Rights) (moves : List Move) → Lexes 0 text ts → IsText ts s → IsAcceptedWith s rights
        → IsRun (setting_of (resolved s) rights) moves
        → IsReport (report_of (resolved s) rights moves) (lines_of (resolved s) rights moves) }
{}
