//! What isolation asks of bundles.
ghost use Rattle.fab_isolation.specs.Law.{BundlesPostFew, IsolatedAreAlike, RightsArePublic, SightsArePublic};
ghost use Rattle.fab_isolation.specs.Owed.{BundlesAreFollowed};

/// Every accepted bundle gives what isolation asks, of whatever set of nodes contains the hostile ones: what
/// everybody may know of it is a function of its public part, and whoever learns of a request the objects
/// that it touches in view, one after the other, computes of it what is in view.
pub fn bundles_are_followed()
    ensures { BundlesAreFollowed }
{}

/// Whatever hostile nodes do, a run posts no more than its bundle has to post, which is 10,000 at most.
pub fn bundles_post_few()
    ensures { BundlesPostFew }
{}

/// Of bundles with one public part a set of nodes sees the same.
pub fn sights_are_public()
    ensures { SightsArePublic }
{}

/// Of two settings of which everybody may know the same: if both are isolated, then where the record of a run of
/// the one goes on from that of a run of the other, so do the messages.
pub fn isolated_are_alike()
    ensures { IsolatedAreAlike }
{}

/// The rights of a bundle are those of its public part.
pub fn rights_are_public()
    ensures { RightsArePublic }
{}
