//! A hostile node sends its next bytes.

ghost use Rattle.std.specs.Prelude.{◌≡◌, ◌==◌, ◌&&◌, ◌<◌, ◌≢◌, ◌∷◌, [], length, slice_index};
ghost use Rattle.fab_net.specs.declared.event.Event.TheVariants.{Post as Posted};
ghost use Rattle.fab_world.specs.Crashing.{target_in};
ghost use Rattle.fab_world.specs.Machine.{Enabled, Posts, enabled};
ghost use Rattle.fab_world.specs.Serial.{attempts};
ghost use Rattle.fab_core.specs.Cores.{setting, unmarked, world};
ghost use Rattle.fab_core.specs.Moved.{IsMoved};
ghost use Rattle.fab_core.specs.Posts.{left_in};

use crate::applied::Applied;
use crate::core_state::Core;
use fab_base::{NoMemory, Seq};
use fab_device::Journal;
use fab_net::{Event, Logged};
use fab_node::Given;
use fab_nodes::{make_room_for, note, send_one};
use fab_tree::resolved::Post;

/// A node's next post behind a place in the list, and the place behind it.
fn next_post(posts: &[Post], from: usize, sender: u16) -> (&Post, usize)
    requires { left_in posts.now from sender ≢ [] }
    ensures { left_in posts.now from sender ≡ (result.0.now.receiver, result.0.now.bytes) ∷ left_in posts.now result.1 sender }
{
    let mut at = from;
    'posts: while at < posts.len() {
        let post = &posts[at];
        at += 1;
        if post.sender == sender {
            return (post, at);
        }
    }
    unreachable!()
}

/// A node's next post, and the place behind it, where the places are those behind the last ones.
fn next_of<'a>(given: &'a Given, places: &[usize], sender: u16) -> (&'a Post, usize)
    requires here { sender < length places.now }
    requires left { left_in given.now.program.posts (slice_index places.now sender) sender ≢ [] }
    ensures { left_in given.now.program.posts (slice_index places.now sender) sender
        ≡ (result.0.now.receiver, result.0.now.bytes) ∷ left_in given.now.program.posts result.1 sender }
{
    let from = places[usize::from(sender)];
    next_post(given.program().posts.as_slice(), from, sender)
}

impl<J: Journal> Core<J> {
    /// Whether a hostile node may post, and posts to this node next.
    pub fn may_post_to(&self, sender: u16, receiver: u16) -> bool
        ensures { result ≡ enabled (setting self.now.given) (world self.now) (Posts sender) && (target_in ((world self.now).posts sender) == receiver) }
    {
        if !self.may_whole(Event::Post(sender)) {
            return false;
        }
        let (post, _) = next_of(&self.given, self.places.as_slice(), sender);
        post.receiver == receiver
    }

    /// A hostile node sends what it posts next.
    pub(crate) fn posts(&mut self, h: u16) -> Result<Applied, NoMemory>
        requires enabled { Enabled (setting self.old.given) (world self.old) (unmarked (Posted h)) }
        requires few { attempts self.old.moves < 4000000000 }
        ensures { IsMoved (Posted h) result self.old self.new }
    {
        self.log.reserve(1)?;
        let (post, behind) = next_of(&self.given, self.places.as_slice(), h);
        let to = post.receiver;
        let bytes = Seq::from_slice(self.alloc, post.bytes.as_slice())?;
        let again = Seq::from_slice(self.alloc, post.bytes.as_slice())?;
        make_room_for(self.given.rights(), &mut self.queues, h, to)?;
        send_one(
            self.given.rights(),
            self.nodes.as_slice(),
            &mut self.queues,
            h,
            to,
            bytes,
        );
        self.places[usize::from(h)] = behind;
        let logged = Logged {
            event: Event::Post(h),
            bytes: again,
            notes: Seq::new(self.alloc),
            whole: true,
            marked: false,
        };
        note(&mut self.log, logged);
        Ok(Applied::Whole)
    }
}
