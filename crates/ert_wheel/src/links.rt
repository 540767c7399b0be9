//! The links of nodes in rings. Each write keeps to the nodes that it names.
//!
//! The nodes from a number on aren't written: each of these counts as alone in its ring.

ghost use Rattle.std.specs.Prelude.{◌≡◌, ◌≢◌, ◌<◌, ◌≤◌, ℕ, length, vec_capacity};
ghost use Rattle.ert_wheel.specs.{Chained.{Changed, Spliced, Unspliced}, Links.{next_at, prev_at, node_link}};

/// The nodes after and before a node in its ring.
#[derive(Clone, Copy)]
pub struct Link {
    pub next: u32,
    pub prev: u32,
}

/// Writes nodes up to so many, each alone in its ring.
#[cold]
#[inline(never)]
pub fn add_alone(links: &mut Vec<Link>, count: u32)
    requires room { count ≤ vec_capacity links.old }
    requires more { length links.old.items ≤ count }
    ensures count { length links.new.items ≡ count }
    ensures same { (node : ℕ) → node_link links.new.items node ≡ node_link links.old.items node }
    ensures capacity { vec_capacity links.new ≡ vec_capacity links.old }
{
    for node in links.len() as u32..count {
        links.push_reserved(Link {
            next: node,
            prev: node,
        });
    }
}

/// Puts a slot in behind a head.
#[inline]
pub fn link_in(links: &mut [Link], head: u32, slot: u32)
    requires head { head < length links.old }
    requires slot { slot < length links.old }
    requires next { next_at links.old head < length links.old }
    requires apart { slot ≢ head }
    requires new { slot ≢ next_at links.old head }
    ensures { Spliced (next_at links.old) (prev_at links.old) (next_at links.new) (prev_at links.new) head slot }
{
    let next = next_of(links, head);
    set_next(links, slot, next);
    set_prev(links, slot, head);
    set_prev(links, next, slot);
    set_next(links, head, slot);
}

/// Makes the two neighbours of a slot neighbours of each other, and leaves the slot alone. Where it was alone
/// nothing changes.
#[inline]
pub fn unlink(links: &mut [Link], slot: u32)
    requires slot { slot < length links.old }
    requires next { next_at links.old slot < length links.old }
    requires prev { prev_at links.old slot < length links.old }
    ensures { Unspliced (next_at links.old) (prev_at links.old) (next_at links.new) (prev_at links.new) slot }
{
    let next = next_of(links, slot);
    let prev = prev_of(links, slot);
    set_next(links, prev, next);
    set_prev(links, next, prev);
    set_next(links, slot, slot);
    set_prev(links, slot, slot);
}

/// The node after a node in its ring. No call reads a link whole: where one half of it was just written alone, the
/// load would wait until that is in the cache.
#[inline]
pub fn next_of(links: &[Link], node: u32) -> u32
    requires { node < length links.now }
    ensures { result ≡ next_at links.now node }
{
    links[node as usize].next
}

/// The node before a node in its ring.
#[inline]
pub fn prev_of(links: &[Link], node: u32) -> u32
    requires { node < length links.now }
    ensures { result ≡ prev_at links.now node }
{
    links[node as usize].prev
}

#[inline]
fn set_next(links: &mut [Link], node: u32, next: u32)
    requires { node < length links.old }
    ensures next { Changed (next_at links.old) (next_at links.new) node next }
    ensures prev { (x : ℕ) → prev_at links.new x ≡ prev_at links.old x }
{
    links[node as usize].next = next;
}

#[inline]
fn set_prev(links: &mut [Link], node: u32, prev: u32)
    requires { node < length links.old }
    ensures prev { Changed (prev_at links.old) (prev_at links.new) node prev }
    ensures next { (x : ℕ) → next_at links.new x ≡ next_at links.old x }
{
    links[node as usize].prev = prev;
}
