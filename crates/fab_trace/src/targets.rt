//! To whom hostile nodes post: each one's posts in the order of the text.
ghost use Rattle.std.specs.Prelude.{◌≡◌, ◌==◌, ℕ, cond, drop, OnOk, IfOk};
ghost use Rattle.fab_trace.specs.Targets.{targets_in, left_at, first_of, others_of, left_behind, target_left};

use fab_base::NoMemory;
use fab_net::Event;
use fab_tree::resolved::Post;
use std::collections::BTreeMap;

/// The target of a sender's first post from a place on, 0 where there is none, and the place behind it.
fn next_target(posts: &[Post], from: usize, sender: u16) -> (u16, usize)
    ensures target { result.0 ≡ first_of (targets_in sender (drop from posts.now)) }
    ensures left { targets_in sender (drop result.1 posts.now) ≡ others_of (targets_in sender (drop from posts.now)) }
{
    let mut at = from;
    'posts: while at < posts.len() {
        let post = &posts[at];
        at += 1;
        if post.sender == sender {
            return (post.receiver, at);
        }
    }
    (0, at)
}

/// The target of a sender's next post. The table has the place behind each sender's last one.
fn tell(places: &mut BTreeMap<u16, usize>, posts: &[Post], sender: u16) -> Result<u16, NoMemory>
    ensures target { IfOk result (λ n. n ≡ first_of (left_at posts.now places.old sender)) }
    ensures left { OnOk result ((h : ℕ) → left_at posts.now places.new h
        ≡ cond (sender == h) (others_of (left_at posts.now places.old h)) (left_at posts.now places.old h)) }
{
    let from = places.get(&sender).copied().unwrap_or(0);
    let (target, place) = next_target(posts, from, sender);
    places.insert(sender, place)?;
    Ok(target)
}

/// The target of an event's post, 0 for any other event.
pub(crate) fn target_of(
    places: &mut BTreeMap<u16, usize>,
    posts: &[Post],
    event: Event,
) -> Result<u16, NoMemory>
    ensures target { IfOk result (λ n. n ≡ target_left (left_at posts.now places.old) event) }
    ensures left { OnOk result ((h : ℕ) → left_at posts.now places.new h ≡ left_behind event (left_at posts.now places.old h) h) }
{
    match event {
        Event::Post(sender) => tell(places, posts, sender),
        _ => Ok(0),
    }
}
