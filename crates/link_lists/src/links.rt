//! The links of a node, and how they are written.

ghost use Rattle.std.specs.Prelude.{◌≡◌, ◌<◌, ◌≤◌, ◌++◌, ◌+◌, ◌-◌, ◌^◌, ℕ, List, length, replicate};
ghost use Rattle.std.specs.Prelude.{IfOk, cond, nat_lt, None, Some};
ghost use Rattle.link_lists.specs.Links.{next_of, prev_of, with_at};

use std::alloc::{AllocError, Global};

/// The nodes after and before one node.
#[derive(Clone, Copy, Drop)]
pub struct Link {
    pub next: usize,
    pub prev: usize,
}

/// The cell of a node, or `None` if the node is that of a list.
pub fn cell_of(node: usize, lists: u32) -> Option<u32>
    requires { node < lists + 2 ^ 32 }
    ensures { result ≡ cond (nat_lt node lists) None (Some (node - lists)) }
{
    let lists = lists as usize;
    if node < lists {
        None
    } else {
        Some((node - lists) as u32)
    }
}

fn set_next(links: &mut Vec<Link>, node: usize, next: usize)
    requires { node < length links.old.items }
    ensures next { next_of links.new.items ≡ with_at (next_of links.old.items) node next }
    ensures prev { prev_of links.new.items ≡ prev_of links.old.items }
    ensures length { length links.new.items ≡ length links.old.items }
{
    links[node].next = next;
}

fn set_prev(links: &mut Vec<Link>, node: usize, prev: usize)
    requires { node < length links.old.items }
    ensures next { next_of links.new.items ≡ next_of links.old.items }
    ensures prev { prev_of links.new.items ≡ with_at (prev_of links.old.items) node prev }
    ensures length { length links.new.items ≡ length links.old.items }
{
    links[node].prev = prev;
}

/// The node after this one.
pub fn next_node(links: &Vec<Link>, node: usize) -> usize
    requires { node < length links.now.items }
    ensures { result ≡ next_of links.now.items node }
{
    links[node].next
}

/// The node before this one.
pub fn prev_node(links: &Vec<Link>, node: usize) -> usize
    requires { node < length links.now.items }
    ensures { result ≡ prev_of links.now.items node }
{
    links[node].prev
}

/// Links the neighbours of the node to each other. The node's own links stay, and `restore` reads
/// them.
pub fn bypass(links: &mut Vec<Link>, node: usize)
    requires node { node < length links.old.items }
    requires near_prev { prev_of links.old.items node < length links.old.items }
    requires near_next { next_of links.old.items node < length links.old.items }
    ensures next { next_of links.new.items
        ≡ with_at (next_of links.old.items) (prev_of links.old.items node)
        (next_of links.old.items node) }
    ensures prev { prev_of links.new.items
        ≡ with_at (prev_of links.old.items) (next_of links.old.items node)
        (prev_of links.old.items node) }
    ensures length { length links.new.items ≡ length links.old.items }
{
    let prev = prev_node(links, node);
    let next = next_node(links, node);
    set_next(links, prev, next);
    set_prev(links, next, prev);
}

/// Links the node in again, between the neighbours in its own links.
pub fn restore(links: &mut Vec<Link>, node: usize)
    requires node { node < length links.old.items }
    requires near_prev { prev_of links.old.items node < length links.old.items }
    requires near_next { next_of links.old.items node < length links.old.items }
    ensures next { next_of links.new.items
        ≡ with_at (next_of links.old.items) (prev_of links.old.items node) node }
    ensures prev { prev_of links.new.items
        ≡ with_at (prev_of links.old.items) (next_of links.old.items node) node }
    ensures length { length links.new.items ≡ length links.old.items }
{
    let prev = prev_node(links, node);
    let next = next_node(links, node);
    set_next(links, prev, node);
    set_prev(links, next, node);
}

/// Links a new node in, just before `after`.
pub fn splice(links: &mut Vec<Link>, node: usize, after: usize)
    requires node { node < length links.old.items }
    requires after { after < length links.old.items }
    requires near { prev_of links.old.items after < length links.old.items }
    ensures next { next_of links.new.items
        ≡ with_at (with_at (next_of links.old.items) (prev_of links.old.items after) node) node
        after }
    ensures prev { prev_of links.new.items
        ≡ with_at (with_at (prev_of links.old.items) node (prev_of links.old.items after)) after
        node }
    ensures length { length links.new.items ≡ length links.old.items }
{
    let prev = prev_node(links, after);
    set_next(links, prev, node);
    set_next(links, node, after);
    set_prev(links, node, prev);
    set_prev(links, after, node);
}

/// Makes the vector at least `len` long. The links that it has stay.
pub fn lengthen(links: &mut Vec<Link>, len: usize) -> Result<(), AllocError>
    ensures next { next_of links.new.items ≡ next_of links.old.items }
    ensures prev { prev_of links.new.items ≡ prev_of links.old.items }
    ensures no_shorter { length links.old.items ≤ length links.new.items }
    ensures enough { IfOk result (λ _. len ≤ length links.new.items) }
{
    if links.len() < len {
        links.resize(len, Link { next: 0, prev: 0 })
    } else {
        Ok(())
    }
}

/// Makes the stack's vector at least `len` long. The cells on it stay.
pub fn lengthen_stack(stack: &mut Vec<u32>, len: usize) -> Result<(), AllocError>
    ensures behind { (more : List ℕ) × (stack.new.items ≡ stack.old.items ++ more) }
    ensures enough { IfOk result (λ _. len ≤ length stack.new.items) }
{
    if stack.len() < len {
        stack.resize(len, 0)
    } else {
        Ok(())
    }
}

/// One ring without cells for each list, and room for cells.
pub fn rings(alloc: Global, lists: usize, count: usize) -> Result<Vec<Link>, AllocError>
    requires { lists ≤ count }
    ensures length { IfOk result (λ links. length links.items ≡ count) }
    ensures next { IfOk result (λ links. (l : ℕ) → l < lists → next_of links.items l ≡ l) }
    ensures prev { IfOk result (λ links. (l : ℕ) → l < lists → prev_of links.items l ≡ l) }
{
    let nowhere = Link { next: 0, prev: 0 };
    let mut links = vec![in alloc; nowhere; count]?;
    for l in 0..lists {
        set_next(&mut links, l, l);
        set_prev(&mut links, l, l);
    }
    Ok(links)
}
