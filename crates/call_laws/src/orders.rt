//! `merge` of the same parts in another order.
ghost use Rattle.call_laws.specs.PartOrders.{EachOrderMerges, MergesAgree};

use studio::{
    claim_has_one_fault, grafts_are_partial, open_leaves_decide, open_leaves_stand, order_is_free,
    parts_are_read_once, read_parts_are_spelled, read_texts_are_spelled, spelled_texts_read,
    tree_has_one_fault,
};

/// Parts of different nodes make one tree in each order that merges. What `merge` prints with
/// status 0 for two orders of the parts is the text of one tree, with claims of one cost, and reads
/// as it.
pub fn merges_agree()
    ensures { MergesAgree }
{
    grafts_are_partial();
    open_leaves_decide();
    open_leaves_stand();
    order_is_free();
    parts_are_read_once();
    read_parts_are_spelled();
    read_texts_are_spelled();
    spelled_texts_read();
}

/// If each part is for a leaf of TREE, each order merges, or none. The leaves are open leaves of
/// TREE itself, and an order merges if `merge` ends with status 0.
pub fn each_order_merges()
    ensures { EachOrderMerges }
{
    claim_has_one_fault();
    grafts_are_partial();
    open_leaves_decide();
    open_leaves_stand();
    order_is_free();
    parts_are_read_once();
    read_parts_are_spelled();
    read_texts_are_spelled();
    spelled_texts_read();
    tree_has_one_fault();
}
