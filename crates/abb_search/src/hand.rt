//! What is stored for the open leaves, each under a key.
ghost use Rattle.std.specs.Prelude.{◌≡◌, ◌<◌, ◌≤◌, ◌+◌, [], ◌∷◌, ◌++◌, length, reverse, vec_len};
ghost use Rattle.std.specs.Prelude.{vec_capacity};
ghost use Rattle.slab.specs.Slab.{get, slab_len, HasRoomFor, Updates};
ghost use Rattle.abb_search.specs.Worth.{with_worth};
ghost use Rattle.abb_search.specs.Hand.{IsPlaced, ArePlaced};

use node_evaluation::{Fresh, Ready, Worth};
use slab::Slab;

/// Takes the last item of a list that has one.
fn take_last(ready: &mut Vec<Option<Ready>>) -> Option<Ready>
    requires { 0 < length ready.old.items }
    ensures { ready.old.items ≡ ready.new.items ++ result ∷ [] }
{
    match ready.pop() {
        None => None,
        Some(last) => last,
    }
}

/// Puts what a child brings along into the slab, if there is something, and notes its key. It takes
/// no memory.
pub(crate) fn place(fresh: Fresh, ready: Option<Ready>, hand: &mut Slab<Ready>) -> Fresh
    requires room { HasRoomFor hand.old 1 }
    ensures placed { IsPlaced fresh result ready hand.old hand.new }
    ensures len { slab_len hand.new ≤ slab_len hand.old + 1 }
    ensures capacity { hand.new.capacity ≡ hand.old.capacity }
{
    let Some(ready) = ready else {
        return fresh;
    };
    let mut cell = fresh.cell;
    cell.key = hand.insert_reserved(ready);
    Fresh {
        cell,
        value: fresh.value,
    }
}

/// Places each child in this way, the last one first, and gives the children in that order. It
/// takes no memory if the slab and `placed`, which is empty, have room for them.
pub(crate) fn place_all(
    children: Vec<Fresh>,
    ready: Vec<Option<Ready>>,
    hand: &mut Slab<Ready>,
    placed: Vec<Fresh>,
) -> Vec<Fresh>
    requires as_many { length ready.items ≡ length children.items }
    requires room { HasRoomFor hand.old (length children.items) }
    requires empty { placed.items ≡ [] }
    requires space { length children.items ≤ vec_capacity placed }
    ensures { ArePlaced children.items (reverse result.items) ready.items hand.old hand.new }
{
    let mut children = children;
    let mut ready = ready;
    let mut placed = placed;
    'children: while let Some(fresh) = children.pop() {
        let at_hand = take_last(&mut ready);
        placed.push_reserved(place(fresh, at_hand, hand));
    }
    placed
}

/// Stores another worth under a key, if something is stored there. It takes no memory.
pub(crate) fn put_worth(hand: &mut Slab<Ready>, key: usize, worth: Worth)
    ensures { Updates hand.old hand.new key (with_worth worth (get hand.old key)) }
{
    if let Some(ready) = hand.try_remove(key) {
        hand.insert_reserved(Ready {
            choice: ready.choice,
            worth,
        });
    }
}
