//! The command `split`.
ghost use Rattle.std.specs.Prelude.{◌≡◌, ◌<◌, ◌^◌, IfOk, OnOk, length, map, string_bytes};
ghost use Rattle.network_commands.specs.number_sets.Sets.{has};
ghost use Rattle.network_commands.specs.branch_tree.View.{claim_of};
ghost use Rattle.network_commands.specs.cert_check.OpenLeaves.{leaf_at, leaves_at};
ghost use Rattle.network_commands.specs.studio_rules.Lines.{line, text_of};
ghost use Rattle.network_commands.specs.studio_rules.Reading.{TwoFilesSay};
ghost use Rattle.network_commands.specs.studio_rules.TreeFile.{OnTree};
ghost use Rattle.network_commands.specs.studio_rules.Split.{SplitWork, LeavesSay, part_line};
ghost use Rattle.network_commands.specs.studio_rules.Split.{token_in};
ghost use Rattle.network_commands.specs.studio_rules.Ending.{Ends, Says, Tells};
ghost use Rattle.network_commands.specs.studio_rules.Keeps.{Keeps};

use network_commands::outputs::put_answer;
use network_commands::say::{say, say_memory, tell_with};
use network_commands::{
    Claim, Graph, OpenLeaf, Outputs, Problem, Refusal, Shelf, Sink, Site, Status, Tree, UnitSet,
    open_leaves, print_token, problem_of, refused, tell_node, tree_of, why_word,
};
use std::alloc::{AllocError, Global};

fn token_in(alloc: Global, set: UnitSet) -> Result<String, AllocError>
    ensures { IfOk result (λ text. string_bytes text ≡ token_in (has set)) }
{
    set.rises();
    print_token(alloc, set)
}

fn part_line(alloc: Global, leaf: &OpenLeaf) -> Result<String, AllocError>
    ensures { IfOk result (λ text. string_bytes text ≡ line (part_line (leaf_at leaf.now))) }
{
    let inside = token_in(alloc, leaf.node.inside)?;
    let outside = token_in(alloc, leaf.node.outside)?;
    let number = leaf.number;
    let mut text = String::from_str(alloc, "part ")?;
    write!(text, "{number}")?;
    text.push(' ')?;
    text.push_str(inside.as_str())?;
    text.push(' ')?;
    text.push_str(outside.as_str())?;
    text.push('\n')?;
    Ok(text)
}

/// Prints a line for each open leaf, and the last line.
fn say_leaves<K: Sink, E: Sink>(
    alloc: Global,
    out: &mut Outputs<K, E>,
    leaves: &[OpenLeaf],
) -> Status
    ensures { Ends (Tells (LeavesSay (leaves_at leaves.now))) out.old out.new result }
{
    'telling: for leaf in leaves {
        let Ok(text) = part_line(alloc, leaf) else {
            return say_memory(out);
        };
        let Ok(()) = put_answer(out, text.as_bytes()) else {
            return Status::WriteFault;
        };
    }
    say(out, b"end\n", Status::Done)
}

/// Prints the open leaves of the tree, or the first line of the claim or the first node that fails.
fn say_open<K: Sink, E: Sink>(
    alloc: Global,
    out: &mut Outputs<K, E>,
    site: &Site<'_>,
    claim: &Claim,
    tree: &Tree,
) -> Status
    requires few { length tree.now < 2 ^ 32 }
    ensures { Ends (Tells (SplitWork site.now (claim_of claim.now) tree.now)) out.old out.new
        result }
{
    match open_leaves(alloc, site, claim, tree) {
        Ok(leaves) => say_leaves(alloc, out, &leaves),
        Err(Refusal::Claim(why)) => {
            let notes = refused(alloc, why);
            let words = ("refused claim ", why_word(why));
            tell_with(alloc, out, words, notes.bytes(), Status::BadClaim)
        }
        Err(Refusal::Node { node, why }) => tell_node(alloc, out, node, why),
        Err(Refusal::Memory) => say_memory(out),
    }
}

/// The same, once the problem's graph is made.
fn say_split<K: Sink, E: Sink>(
    alloc: Global,
    out: &mut Outputs<K, E>,
    problem: &Problem,
    claim: &Claim,
    tree: &Tree,
) -> Status
    requires few { length tree.now < 2 ^ 32 }
    ensures { Ends (Tells (SplitWork problem.now (claim_of claim.now) tree.now)) out.old out.new
        result }
{
    let Ok(graph) = Graph::of(alloc, problem) else {
        return say_memory(out);
    };
    let site = Site::of(problem, &graph);
    say_open(alloc, out, &site, claim, tree)
}

fn say_tree<F: Shelf, K: Sink, E: Sink>(
    alloc: Global,
    problem: &Problem,
    name: &str,
    shelf: &mut F,
    out: &mut Outputs<K, E>,
) -> Status
    ensures ends { Ends
        (Says (OnTree SplitWork (F.state shelf.old).held name.now problem.now)
        (λ other. other ≡ name.now) (F.state shelf.old) (F.state shelf.new)) out.old out.new
        result }
    ensures keeps { Keeps (F.state shelf.old) (F.state shelf.new) }
{
    match tree_of(alloc, shelf, out, name, problem) {
        Ok((claim, tree)) => say_split(alloc, out, problem, &claim, &tree),
        Err(status) => status,
    }
}

/// Prints the open leaves of the tree of the one file on the problem of the other, each with its
/// node. It does so only if the tree proves its claim but for them.
pub fn split<F: Shelf, K: Sink, E: Sink>(
    alloc: Global,
    file: &str,
    tree: &str,
    shelf: &mut F,
    out: &mut Outputs<K, E>,
) -> Status
    ensures ends { Ends
        (TwoFilesSay (OnTree SplitWork) file.now tree.now (F.state shelf.old) (F.state shelf.new))
        out.old out.new result }
    ensures keeps { Keeps (F.state shelf.old) (F.state shelf.new) }
{
    match problem_of(alloc, shelf, out, file) {
        Ok(problem) => say_tree(alloc, &problem, tree, shelf, out),
        Err(status) => status,
    }
}
