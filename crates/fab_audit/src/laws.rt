//! A law of what reports tell. The function does nothing: its contract is the law.
ghost use Rattle.std.specs.Prelude.{◌≡◌, ℕ, List, map};
ghost use Rattle.fab_base.specs.declared.token.Token.{Token};
ghost use Rattle.fab_base.specs.Tokens.{Lexes};
ghost use Rattle.fab_language.specs.Numbers.{resolved};
ghost use Rattle.fab_rights.specs.declared.rights.Rights.{Rights};
ghost use Rattle.fab_settings.specs.Settings.{IsAcceptedWith, setting_of};
ghost use Rattle.fab_shown.specs.Shown.{report_of};
ghost use Rattle.fab_tree.specs.declared.start.Start.{Start};
ghost use Rattle.fab_tree.specs.Syntax.{IsText};
ghost use Rattle.fab_world.specs.Machine.{Move};
ghost use Rattle.fab_world.specs.Serial.{IsRun};

/// Two runs of an accepted bundle that a text stands for have the same events, in the same order, where what is printed
/// of them is the same: no two lists of events share a report.
pub fn one_report_tells_one_list_of_events()
    ensures { (text : List ℕ) (ts : List Token) (s : Start) (rights : Rights) (first second : List Move) → Lexes 0 text ts → IsText ts s → IsAcceptedWith s rights
        → IsRun (setting_of (resolved s) rights) first → IsRun (setting_of (resolved s) rights) second
        → report_of (resolved s) rights first ≡ report_of (resolved s) rights second
        → map (λ m. m.event) first ≡ map (λ m. m.event) second }
{}
