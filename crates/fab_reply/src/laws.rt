//! Laws of calls. The functions do nothing: their contracts are what they are for.

ghost use Rattle.fab_reply.specs.Alike.{AreCallsAlike};
ghost use Rattle.fab_reply.specs.Printed.{AreReadBack};
ghost use Rattle.fab_reply.specs.Shown.{ShowsWhatIsHeld};

/// Two calls over bundles of which everybody may know the same: with the headline of both, where the record of
/// the one goes on from that of the other, so do the messages into the set. Where the records are equal, so are
/// the messages, whatever the secrets are.
pub fn calls_are_isolated_alike()
    ensures { AreCallsAlike }
{}

/// The report that `replay` writes of its run, whole or up to the event in which a journal failed, and the one that
/// `run` writes of a run that nodes made by themselves, is the report of the lines that the run shows. `watch` writes such
/// a report, and behind it what is read beside the run: each time the values behind so many of its commits.
pub fn written_reports_are_read_back()
    ensures { AreReadBack }
{}

/// What `trust` writes of its run, whole or up to the event in which a journal failed, are the objects that the nodes
/// outside its set hold behind it, of the classes that exclude the set.
pub fn trust_shows_what_is_held()
    ensures { ShowsWhatIsHeld }
{}
