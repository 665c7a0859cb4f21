//! Where the commits of a run lie until the follower fetches them.

use fab_net::{Commit, Logged};
use fab_serial::commits;
use std::alloc::Global;
use std::mem;
use std::sync::{Mutex, Wait};
use std::thread::Parker;
use std::time::Duration;

/// How long the follower sleeps at most, in milliseconds.
const LONGEST: u64 = 1_000;

/// What the follower hasn't fetched yet, and whether nothing more will come.
#[derive(Drop)]
struct News {
    commits: Vec<Commit>,
    is_closed: bool,
}

/// The commits that came, in their order, and the bell by which the follower is woken. A bell that was rung before the follower slept isn't
/// lost.
#[derive(Drop)]
pub(crate) struct Board {
    news: Mutex<News>,
    bell: Parker,
}

impl Board {
    pub(crate) fn new(alloc: Global) -> Board {
        Board {
            news: Mutex::new(News {
                commits: Vec::new(alloc),
                is_closed: false,
            }),
            bell: Parker::new(),
        }
    }

    /// Leaves the commits of these events, unless the follower is at the board or memory runs out: all of them, or none. Whether they were
    /// left. It waits for nobody, and wakes the follower where there was a commit.
    pub(crate) fn tell(&self, alloc: Global, log: &[Logged]) -> bool {
        let Ok(news) = commits(alloc, log) else {
            return false;
        };
        if news.is_empty() {
            return true;
        }
        let is_told = match self.news.try_lock() {
            Some(mut board) => board.commits.append(&mut news.into_vec()).is_ok(),
            None => false,
        };
        if is_told {
            self.bell.unpark();
        }
        is_told
    }

    /// Leaves the commits of the last events, as far as there is memory, and says that no more will come.
    pub(crate) fn close<R: Wait>(&self, rt: &R, alloc: Global, log: &[Logged]) {
        let last = commits(alloc, log);
        let mut board = self.news.lock(rt);
        if let Ok(news) = last {
            let _ = board.commits.append(&mut news.into_vec());
        }
        board.is_closed = true;
        drop(board);
        self.bell.unpark();
    }

    /// The commits that came since the last call, and whether no more will come.
    pub(crate) fn fetch<R: Wait>(&self, rt: &R, alloc: Global) -> (Vec<Commit>, bool) {
        let mut board = self.news.lock(rt);
        let fetched = mem::replace(&mut board.commits, Vec::new(alloc));
        (fetched, board.is_closed)
    }

    /// The follower sleeps until the bell rings, or for a second. It may return early.
    pub(crate) fn sleep<R: Wait>(&self, rt: &R) {
        self.bell.park_timeout(rt, Duration::from_millis(LONGEST));
    }
}
