//! The text of a ranking, line by line.
ghost use Rattle.std.specs.Prelude.{◌≡◌, ◌≤◌, ◌++◌, ◌∷◌, [], map, flat_map, decimal};
ghost use Rattle.tree_text_laws.specs.problem_rules.Each.{Each};
ghost use Rattle.tree_text_laws.specs.tree_rules.Known.{KnowsEnd, KnowsNode, KnowsTree};
ghost use Rattle.tree_text_laws.specs.branch_tree.View.{end_of};
ghost use Rattle.tree_text_laws.specs.tree_text_rules.Spelling as trees;
ghost use Rattle.tree_text.specs.Prints.{Prints};
ghost use Rattle.rank_check.specs.rank_rules.Marked.{marked, marked_node, marked_end, marks_behind};
ghost use Rattle.rank_check.specs.View.{mark_of};
ghost use Rattle.rank_check.specs.Known.{KnowsNetwork};
ghost use Rattle.rank_text.specs.Known.{KnowsText};
ghost use Rattle.rank_check.specs.rank_rules.Spelling.{count_word, file_type, named_line};
ghost use Rattle.rank_check.specs.rank_rules.Spelling.{end_with_sets};
ghost use Rattle.rank_check.specs.rank_rules.Spelling.{node_lines, tree_lines, distinct_lines};
ghost use Rattle.rank_check.specs.rank_rules.Spelling.{listed_lines};
ghost use Rattle.rank_check.specs.rank_rules.Spelling.{rank_text_lines};

use crate::line::{count_line, named_line};
use rank_check::{Mark, Name, RankText};
use std::alloc::Global;
use tree_text::{
    PrintFault, Sink, begin, print_end, print_head, print_network, print_tail, put_line,
};
use tree_text_laws::{End, Network, Problem, TreeNode};

fn put_count<K: Sink>(alloc: Global, word: &str, count: u32, out: &mut K) -> Result<(), PrintFault>
    ensures prints { Prints ((word.now ∷ decimal count ∷ []) ∷ []) (K.state out.old)
        (K.state out.new) result }
    ensures later { (K.state out.old).faults ≤ (K.state out.new).faults }
{
    let mut line = String::new(alloc);
    let made = count_line(&mut line, word, count);
    put_line(out, &mut line, made)
}

// The first two lines.
fn put_front<K: Sink>(alloc: Global, text: &RankText, out: &mut K) -> Result<(), PrintFault>
    ensures prints { Prints
        ((file_type ∷ []) ∷ (count_word ∷ decimal text.now.count ∷ []) ∷ []) (K.state out.old)
        (K.state out.new) result }
    ensures later { (K.state out.old).faults ≤ (K.state out.new).faults }
{
    let mut line = String::new(alloc);
    let made = begin(&mut line, "file_type=PNS_rank_v1");
    put_line(out, &mut line, made)?;
    put_count(alloc, "count", text.count(), out)
}

// The line of a list of alternatives.
fn put_distinct<K: Sink>(alloc: Global, distinct: bool, out: &mut K) -> Result<(), PrintFault>
    ensures prints { Prints (distinct_lines distinct) (K.state out.old) (K.state out.new) result }
    ensures later { (K.state out.old).faults ≤ (K.state out.new).faults }
{
    if !distinct {
        return Ok(());
    }
    let mut line = String::new(alloc);
    let made = begin(&mut line, "distinct");
    put_line(out, &mut line, made)
}

fn put_networks<K: Sink>(
    alloc: Global,
    problem: &Problem,
    networks: &[Network],
    out: &mut K,
) -> Result<(), PrintFault>
    requires known { Each (KnowsNetwork problem.now) networks.now }
    ensures prints { Prints (flat_map (trees.network_lines problem.now) networks.now)
        (K.state out.old) (K.state out.new) result }
    ensures later { (K.state out.old).faults ≤ (K.state out.new).faults }
{
    'printing: for network in networks {
        print_network(alloc, problem, network, out)?;
    }
    Ok(())
}

// The line of a leaf that names a network.
fn put_named<K: Sink>(alloc: Global, name: &Name, out: &mut K) -> Result<(), PrintFault>
    ensures prints { Prints
        (named_line name.now.way name.now.network name.now.scaled.d name.now.scaled.ys ∷ [])
        (K.state out.old) (K.state out.new) result }
    ensures later { (K.state out.old).faults ≤ (K.state out.new).faults }
{
    let mut line = String::new(alloc);
    let made = named_line(&mut line, name);
    put_line(out, &mut line, made)
}

// The lines of an end, if the first mark is that of the first open leaf. A leaf without a mark is
// open.
fn put_end<K: Sink>(
    alloc: Global,
    problem: &Problem,
    end: &End,
    marks: &[Mark],
    out: &mut K,
) -> Result<(), PrintFault>
    requires known { KnowsEnd problem.now (end_of end.now) }
    ensures prints { Prints
        (end_with_sets problem.now (marked_end (map mark_of marks.now) (end_of end.now)))
        (K.state out.old) (K.state out.new) result }
    ensures later { (K.state out.old).faults ≤ (K.state out.new).faults }
{
    match end {
        End::Open(_) => match marks {
            [Mark::Named(name), ..] => put_named(alloc, name, out),
            [Mark::Open, ..] | [] => print_end(alloc, problem, end, out),
        },
        _ => print_end(alloc, problem, end, out),
    }
}

fn put_node<K: Sink>(
    alloc: Global,
    problem: &Problem,
    node: &TreeNode,
    marks: &[Mark],
    out: &mut K,
) -> Result<(), PrintFault>
    requires known { KnowsNode problem.now node.now }
    ensures prints { Prints (node_lines problem.now (marked_node (map mark_of marks.now) node.now))
        (K.state out.old) (K.state out.new) result }
    ensures later { (K.state out.old).faults ≤ (K.state out.new).faults }
{
    print_head(alloc, problem, node.option, node.steps.steps(), out)?;
    put_end(alloc, problem, &node.end, marks, out)
}

// The marks of the open leaves after the end.
fn marks_behind<'a>(end: &End, marks: &'a [Mark]) -> &'a [Mark]
    ensures { map mark_of result.now ≡ marks_behind (map mark_of marks.now) (end_of end.now) }
{
    match end {
        End::Open(_) => match marks {
            [_, rest @ ..] => rest,
            [] => marks,
        },
        _ => marks,
    }
}

fn put_nodes<K: Sink>(
    alloc: Global,
    problem: &Problem,
    nodes: &[TreeNode],
    marks: &[Mark],
    out: &mut K,
) -> Result<(), PrintFault>
    requires known { KnowsTree problem.now nodes.now }
    ensures prints { Prints (tree_lines problem.now (marked (map mark_of marks.now) nodes.now))
        (K.state out.old) (K.state out.new) result }
    ensures later { (K.state out.old).faults ≤ (K.state out.new).faults }
{
    let mut rest = marks;
    'printing: for node in nodes {
        put_node(alloc, problem, node, rest, out)?;
        rest = marks_behind(&node.end, rest);
    }
    Ok(())
}

// All lines from the number of networks on.
fn put_listed<K: Sink>(
    alloc: Global,
    problem: &Problem,
    text: &RankText,
    out: &mut K,
) -> Result<(), PrintFault>
    requires known { KnowsText problem.now text.now }
    ensures prints { Prints (listed_lines problem.now text.now) (K.state out.old) (K.state out.new)
        result }
    ensures later { (K.state out.old).faults ≤ (K.state out.new).faults }
{
    text.is_counted();
    put_count(alloc, "networks", text.networks().len() as u32, out)?;
    put_networks(alloc, problem, text.networks(), out)?;
    put_nodes(alloc, problem, text.tree().nodes(), text.marks(), out)?;
    print_tail(alloc, problem, text.tail(), out)
}

/// Prints a ranked tree, whole: its one text. `WriteFault` comes only if the sink's count of faults
/// rose; a front of the text is then printed. If there is no memory, first lines of it are printed,
/// each whole.
pub fn print_rank<K: Sink>(
    alloc: Global,
    problem: &Problem,
    text: &RankText,
    out: &mut K,
) -> Result<(), PrintFault>
    requires known { KnowsText problem.now text.now }
    ensures prints { Prints (rank_text_lines problem.now text.now) (K.state out.old)
        (K.state out.new) result }
    ensures later { (K.state out.old).faults ≤ (K.state out.new).faults }
{
    put_front(alloc, text, out)?;
    put_distinct(alloc, text.is_distinct(), out)?;
    put_listed(alloc, problem, text, out)
}
