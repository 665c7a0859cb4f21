//! Laws of outcomes, over every run of the machine.
ghost use Rattle.fab_language.specs.Numbers.{resolved};
ghost use Rattle.fab_outcomes.specs.Causes.{AreOfSessions, AreOne, CountTries, HaveCauses, Stay, StoresAreWellFormed};
ghost use Rattle.fab_rights.specs.declared.rights.Rights.{Rights};
ghost use Rattle.fab_settings.specs.Settings.{IsAcceptedWith, setting_of};
ghost use Rattle.fab_tree.specs.declared.start.Start.{Start};
ghost use Rattle.fab_world.specs.Machine.{Setting};
ghost use Rattle.fab_world.specs.Serial.{IsEvaluation, IsSetting};

/// The outcome of a worker's request is this one exactly where the run has its cause. It is committed where
/// the worker wrote a record whole that says so, with this attempt and value; failed, or stopped at a limit,
/// where the request's meaning over the answers of the attempt did so; silent where the worker gave up
/// waiting for the store; denied where the store said that it may not have the object that it fetches, or
/// answered to that an object of another class or shape, at no version, or made by the worker in this
/// attempt or later; and in conflict where this was the eighth try in a row that a No vote or a missing object
/// ended. An event counts where it is done, or cut behind its whole record. Where none gives the request an
/// outcome, its node is down if its journal has failed, and else it is unfinished. Each cause is said of the
/// event itself and of the moves before it, whatever the setting is, in every run.
pub fn outcomes_have_causes()
    ensures { (S : Setting) → HaveCauses S }
{}

/// A request has one outcome, since two causes give the same, and it stays once it is there: over a longer
/// run it is the same, unless the request was unfinished or its node down.
pub fn outcomes_stay()
    ensures one { (S : Setting) → AreOne S }
    ensures stay { (S : Setting) → Stay S }
{}

/// No request beyond a worker's session has one.
pub fn outcomes_are_of_sessions()
    ensures { (S : Setting) → AreOfSessions S }
{}

/// What a worker that is up counts are the tries in a row that were lost, since its request began and since
/// it last came back.
pub fn tries_are_counted()
    ensures { (S : Setting) → CountTries S }
{}

/// No store that isn't hostile ends a request by an ill-formed object: what it answers is of the class and
/// shape of its name, at a version, and where the worker made it, of an earlier attempt. For a store has
/// what its roots are and what was prepared there, which it looked at; and of what a worker made it has only
/// what that worker has committed.
pub fn honest_stores_are_well_formed()
    ensures { (S : Setting) → IsSetting S → IsEvaluation S → StoresAreWellFormed S }
{}

/// So it is with every accepted bundle, and nothing else is asked of it.
pub fn bundles_have_causes()
    ensures causes { (s : Start) (rights : Rights) → IsAcceptedWith s rights → HaveCauses (setting_of (resolved s) rights) }
    ensures one { (s : Start) (rights : Rights) → IsAcceptedWith s rights → AreOne (setting_of (resolved s) rights) }
    ensures stay { (s : Start) (rights : Rights) → IsAcceptedWith s rights → Stay (setting_of (resolved s) rights) }
    ensures sessions { (s : Start) (rights : Rights) → IsAcceptedWith s rights → AreOfSessions (setting_of (resolved s) rights) }
    ensures well_formed { (s : Start) (rights : Rights) → IsAcceptedWith s rights → StoresAreWellFormed (setting_of (resolved s) rights) }
{}
