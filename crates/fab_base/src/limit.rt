//! What has a limit.

/// What a bundle may not have too many of, in the order in which a refusal names it.
#[derive(Clone, Copy, Debug, PartialEq, Eq)]
pub enum What {
    Bytes,
    Depth,
    Principals,
    Nodes,
    Labels,
    Classes,
    Fields,
    Methods,
    Parameters,
    Locals,
    Sites,
    Roots,
    Requests,
    Posts,
    Crashes,
    Events,
    Cache,
}
