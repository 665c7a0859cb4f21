//! The requests of a worker's session.
ghost use Rattle.std.specs.Prelude.{◌≡◌, ◌==◌, map, slice_get, option_copied};
ghost use Rattle.std.specs.List.{find};
ghost use Rattle.fab_attempts.specs.Sessions.{requests_of};
ghost use Rattle.fab_settings.specs.Settings.{request_at as request_of};

use fab_tree::resolved::{Request, Resolved, Session};

/// A worker's request of this number, from 1, if there is one.
pub fn request_at(program: &Resolved, node: u16, number: u32) -> Option<&Request>
    ensures exact { option_copied result ≡ request_of program.now node number }
{
    if number == 0 {
        None
    } else {
        request_in(program, node, number as usize - 1)
    }
}

/// A request of a worker's session, by its place, if there is one.
fn request_in(program: &Resolved, node: u16, at: usize) -> Option<&Request>
    ensures { option_copied result ≡ slice_get (requests_of program.now node) at }
{
    match session_of(program, node) {
        Some(session) => asked_in(session, at),
        None => None,
    }
}

/// The session of a worker, if it has one.
fn session_of(program: &Resolved, node: u16) -> Option<&Session>
    ensures { option_copied result ≡ find (λ session. session.worker.number == node) program.now.sessions }
{
    program
        .sessions
        .as_slice()
        .iter()
        .find(|session| session.worker.number == node)
}

/// A request of a session, by its place.
fn asked_in(session: &Session, at: usize) -> Option<&Request>
    ensures { option_copied result ≡ slice_get (map (λ asked. asked.request) session.now.requests) at }
{
    match session.requests.as_slice().get(at) {
        Some(asked) => Some(&asked.request),
        None => None,
    }
}
