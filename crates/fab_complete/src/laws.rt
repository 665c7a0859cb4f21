//! The law of runs that are told of whole.
ghost use Rattle.std.specs.Prelude.{List, ℕ, Option, Some};
ghost use Rattle.fab_command.specs.declared.command.Command.TheVariants.{Run};
ghost use Rattle.fab_command.specs.declared.command.Telling.{Telling};
ghost use Rattle.fab_complete.specs.Complete.{IsComplete};
ghost use Rattle.fab_reply.specs.Headline.{Headline, IsWholeFor};

/// Where the headline holds of what `run`, `watch` or `drill` wrote, which the top call says of each that ends with status 0, every request of
/// every session has an outcome that stays, and the report tells of none that is open or down. Where no node is hostile and no crash line
/// stands none ended by a node's silence. And one worker alone, with its rights, does what `eval` says.
pub fn runs_are_complete()
    ensures { (x : Telling) (left left' written written' : Option (List ℕ)) (h : Headline (Some (Run x)) (IsWholeFor (Some (Run x))) left left' written written') → IsComplete h.start h.rights h.moves }
{}
