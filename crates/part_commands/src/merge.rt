//! The command `merge`.
ghost use Rattle.std.specs.Prelude.{◌≡◌, ◌<◌, ◌⊎◌, ◌++◌, List, ℕ, [], IfOk, get_or, length, map};
ghost use Rattle.std.specs.Prelude.{string_bytes};
ghost use Rattle.std.specs.List.{Contains};
ghost use Rattle.network_commands.specs.problem_rules.Each.{Each};
ghost use Rattle.network_commands.specs.tree_rules.Known.{KnowsClaim, KnowsTree};
ghost use Rattle.network_commands.specs.branch_tree.View.{claim_of};
ghost use Rattle.network_commands.specs.tree_rules.Tail.{whole};
ghost use Rattle.network_commands.specs.tree_text_rules.PartSpelling.{KnowsPart};
ghost use Rattle.network_commands.specs.tree_text_rules.Spelling.{tree_text_lines};
ghost use Rattle.network_commands.specs.studio_rules.Reading.{OnFile};
ghost use Rattle.network_commands.specs.studio_rules.TreeFile.{OnTree};
ghost use Rattle.network_commands.specs.studio_rules.Merge.{TreeRefused, PartRefused, FaultSays};
ghost use Rattle.network_commands.specs.studio_rules.Merge.{MergeSays};
ghost use Rattle.network_commands.specs.studio_rules.Merge.{MergeWork, part_claim_line};
ghost use Rattle.network_commands.specs.studio_rules.Merge.{part_node_line};
ghost use Rattle.network_commands.specs.studio_rules.Merge.{no_leaf_line};
ghost use Rattle.network_commands.specs.studio_rules.PartFile.{are_several};
ghost use Rattle.network_commands.specs.studio_rules.Lines.{line};
ghost use Rattle.network_commands.specs.studio_rules.Printed.{OneAnswer};
ghost use Rattle.network_commands.specs.studio_rules.Ending.{Ends, Says, Tells, Only, OrMemory};
ghost use Rattle.network_commands.specs.studio_rules.Ending.{IsRefusal};
ghost use Rattle.network_commands.specs.studio_rules.Keeps.{Keeps};
ghost use Rattle.network_commands.specs.studio_rules.declared.status.Status.TheVariants.{Done};

use crate::part_file::{parts_of, push_part};
use network_commands::say::{say_memory, say_printed, tell_made, tell_with};
use network_commands::{
    Claim, Graph, MergeFault, Outputs, Part, Problem, Refusal, Shelf, Sink, Site, Status, Tail,
    Tree, Why, merge_all, no_leaf, print_tree, problem_of, refused, tell_node, tree_of, why_word,
};
use std::alloc::{AllocError, Global};

fn part_claim_line(alloc: Global, several: bool, name: &str, why: Why) -> Result<String, AllocError>
    ensures { IfOk result
        (λ text. string_bytes text ≡ line (part_claim_line several name.now why)) }
{
    let mut text = String::from_str(alloc, "refused ")?;
    push_part(&mut text, several, name)?;
    text.push_str(" claim ")?;
    text.push_str(why_word(why))?;
    text.push('\n')?;
    Ok(text)
}

fn part_node_line(
    alloc: Global,
    several: bool,
    name: &str,
    node: u32,
    why: Why,
) -> Result<String, AllocError>
    ensures { IfOk result
        (λ text. string_bytes text ≡ line (part_node_line several name.now node why)) }
{
    let mut text = String::from_str(alloc, "refused ")?;
    push_part(&mut text, several, name)?;
    text.push_str(" node ")?;
    write!(text, "{node}")?;
    text.push(' ')?;
    text.push_str(why_word(why))?;
    text.push('\n')?;
    Ok(text)
}

fn no_leaf_line(alloc: Global, several: bool, name: &str) -> Result<String, AllocError>
    ensures { IfOk result (λ text. string_bytes text ≡ line (no_leaf_line several name.now)) }
{
    let mut text = String::from_str(alloc, "no leaf")?;
    if several {
        text.push(' ')?;
        text.push_str(name)?;
    }
    text.push('\n')?;
    Ok(text)
}

// Prints why the tree is refused.
fn say_tree_refused<K: Sink, E: Sink>(
    alloc: Global,
    out: &mut Outputs<K, E>,
    refusal: Refusal,
) -> Status
    ensures { Ends (Tells (TreeRefused refusal)) out.old out.new result }
{
    match refusal {
        Refusal::Claim(why) => {
            let notes = refused(alloc, why);
            let words = ("refused claim ", why_word(why));
            tell_with(alloc, out, words, notes.bytes(), Status::BadClaim)
        }
        Refusal::Node { node, why } => tell_node(alloc, out, node, why),
        Refusal::Memory => say_memory(out),
    }
}

// Prints why a part is refused.
fn say_part_refused<K: Sink, E: Sink>(
    alloc: Global,
    out: &mut Outputs<K, E>,
    several: bool,
    name: &str,
    refusal: Refusal,
) -> Status
    ensures { Ends (Tells (PartRefused several name.now refusal)) out.old out.new result }
{
    match refusal {
        Refusal::Claim(why) => {
            let notes = refused(alloc, why);
            let made = part_claim_line(alloc, several, name, why);
            tell_made(out, made, notes.bytes(), Status::BadClaim)
        }
        Refusal::Node { node, why } => {
            let notes = refused(alloc, why);
            let made = part_node_line(alloc, several, name, node, why);
            tell_made(out, made, notes.bytes(), Status::BadClaim)
        }
        Refusal::Memory => say_memory(out),
    }
}

// Prints why a part is not put back.
fn say_fault<K: Sink, E: Sink>(
    alloc: Global,
    out: &mut Outputs<K, E>,
    several: bool,
    name: &str,
    fault: MergeFault,
) -> Status
    ensures { Ends (Tells (FaultSays several name.now fault)) out.old out.new result }
{
    match fault {
        MergeFault::Tree(refusal) => say_tree_refused(alloc, out, refusal),
        MergeFault::Part(refusal) => say_part_refused(alloc, out, several, name, refusal),
        MergeFault::NoLeaf => {
            let notes = no_leaf(alloc);
            let made = no_leaf_line(alloc, several, name);
            tell_made(out, made, notes.bytes(), Status::NoLeaf)
        }
        MergeFault::Memory => say_memory(out),
    }
}

// Prints the tree and what it proves but for its open leaves.
fn say_tree_text<K: Sink, E: Sink>(
    alloc: Global,
    out: &mut Outputs<K, E>,
    problem: &Problem,
    claim: &Claim,
    tree: &Tree,
) -> Status
    requires claim { KnowsClaim problem.now (claim_of claim.now) }
    requires tree { KnowsTree problem.now tree.now }
    ensures { Ends
        (Tells (OneAnswer Done (tree_text_lines problem.now (claim_of claim.now) tree.now whole)))
        out.old out.new result }
{
    let printed = print_tree(alloc, problem, claim, tree, &Tail::Whole, &mut out.out);
    say_printed(out, printed, Status::Done)
}

// Puts the parts back in turn. Prints the resulting tree, or which part is not put back, and why.
fn say_put_back<K: Sink, E: Sink>(
    alloc: Global,
    out: &mut Outputs<K, E>,
    site: &Site<'_>,
    claim: Claim,
    tree: Tree,
    names: &[String],
    parts: &[Part],
) -> Status
    requires claim { KnowsClaim site.now (claim_of claim) }
    requires tree { KnowsTree site.now tree }
    requires parts { Each (KnowsPart site.now) parts.now }
    requires count { length parts.now ≡ length names.now }
    ensures { Ends
        (Tells (MergeSays (map string_bytes names.now) site.now (claim_of claim) tree parts.now))
        out.old out.new result }
{
    match merge_all(alloc, site, claim, tree, parts) {
        Ok((both, grown)) => say_tree_text(alloc, out, site.problem(), &both, &grown),
        Err(stop) => {
            let name = names[stop.part].as_str();
            say_fault(alloc, out, 1 < names.len(), name, stop.fault)
        }
    }
}

// The same, once the problem's graph is made.
fn say_merged<K: Sink, E: Sink>(
    alloc: Global,
    out: &mut Outputs<K, E>,
    problem: &Problem,
    claim: Claim,
    tree: Tree,
    names: &[String],
    parts: &[Part],
) -> Status
    requires claim { KnowsClaim problem.now (claim_of claim) }
    requires tree { KnowsTree problem.now tree }
    requires parts { Each (KnowsPart problem.now) parts.now }
    requires count { length parts.now ≡ length names.now }
    ensures { Ends
        (Tells
        (MergeSays (map string_bytes names.now) problem.now (claim_of claim) tree parts.now))
        out.old out.new result }
{
    let Ok(graph) = Graph::of(alloc, problem) else {
        return say_memory(out);
    };
    let site = Site::of(problem, &graph);
    say_put_back(alloc, out, &site, claim, tree, names, parts)
}

fn say_parts<F: Shelf, K: Sink, E: Sink>(
    alloc: Global,
    problem: &Problem,
    claim: Claim,
    tree: Tree,
    names: &[String],
    shelf: &mut F,
    out: &mut Outputs<K, E>,
) -> Status
    requires claim { KnowsClaim problem.now (claim_of claim) }
    requires tree { KnowsTree problem.now tree }
    ensures ends { Ends
        (Says
        (MergeWork (F.state shelf.old).held (map string_bytes names.now) problem.now
        (claim_of claim) tree) (Contains (map string_bytes names.now))
        (F.state shelf.old) (F.state shelf.new)) out.old out.new result }
    ensures keeps { Keeps (F.state shelf.old) (F.state shelf.new) }
{
    match parts_of(alloc, shelf, out, names, problem) {
        Ok(parts) => say_merged(alloc, out, problem, claim, tree, names, &parts),
        Err(status) => status,
    }
}

fn say_tree<F: Shelf, K: Sink, E: Sink>(
    alloc: Global,
    problem: &Problem,
    name: &str,
    names: &[String],
    shelf: &mut F,
    out: &mut Outputs<K, E>,
) -> Status
    ensures ends { Ends
        (Says
        (OnTree (MergeWork (F.state shelf.old).held (map string_bytes names.now))
        (F.state shelf.old).held name.now problem.now)
        (λ other. (other ≡ name.now) ⊎ Contains (map string_bytes names.now) other)
        (F.state shelf.old) (F.state shelf.new)) out.old out.new result }
    ensures keeps { Keeps (F.state shelf.old) (F.state shelf.new) }
{
    match tree_of(alloc, shelf, out, name, problem) {
        Ok((claim, tree)) => say_parts(alloc, problem, claim, tree, names, shelf, out),
        Err(status) => status,
    }
}

/// Puts the parts of the other files back in the tree of the one file, one after another. Prints
/// the resulting tree with what it proves but for its open leaves.
pub fn merge<F: Shelf, K: Sink, E: Sink>(
    alloc: Global,
    file: &str,
    tree: &str,
    parts: &[String],
    shelf: &mut F,
    out: &mut Outputs<K, E>,
) -> Status
    ensures ends { Ends
        (Says
        (OnFile
        (OnTree (MergeWork (F.state shelf.old).held (map string_bytes parts.now))
        (F.state shelf.old).held tree.now) (F.state shelf.old).held file.now)
        (λ other. (other ≡ file.now)
        ⊎ ((other ≡ tree.now) ⊎ Contains (map string_bytes parts.now) other))
        (F.state shelf.old) (F.state shelf.new)) out.old out.new result }
    ensures keeps { Keeps (F.state shelf.old) (F.state shelf.new) }
{
    match problem_of(alloc, shelf, out, file) {
        Ok(problem) => say_tree(alloc, &problem, tree, parts, shelf, out),
        Err(status) => status,
    }
}
