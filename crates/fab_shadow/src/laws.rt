//! What the nodes outside a set have sent into it is the public replay of what was released.
ghost use Rattle.fab_isolation.specs.Law.{AreIsolatedAlike, BundlesAreIsolated, IsIsolation};

/// Whatever nodes a set has, as long as the hostile ones are among them: each node outside it has sent each of
/// its nodes exactly what the public replay says, which knows the public part and the release record alone. This
/// is said of every run of at most 10,000 posts and 4,000,000,000 attempts and recoveries, whatever bytes the
/// hostile nodes send, with crashes at any event and cuts of any record at any byte.
///
/// What a node of the set learns of the others is what it is sent. So it learns no more than is released.
pub fn isolation()
    ensures { IsIsolation }
{}

/// So of two runs over one public part, where one record goes on from the other, the messages do.
pub fn are_isolated_alike()
    ensures { AreIsolatedAlike }
{}

/// Every accepted bundle is isolated from every set of nodes that contains the hostile ones.
pub fn bundles_are_isolated()
    ensures { BundlesAreIsolated }
{}
