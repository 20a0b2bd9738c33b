//! The lines of each part, made in one buffer and handed over one after another.
ghost use Rattle.std.specs.Prelude.{◌≡◌, ◌∷◌, [], map};
ghost use Rattle.tree_text_rules.specs.problem_rules.Each.{Each};
ghost use Rattle.flow_program.specs.pgraph.View.{step_of};
ghost use Rattle.tree_text_rules.specs.tree_rules.Known.{AreUnits, KnowsStep, KnowsCover, KnowsEnd};
ghost use Rattle.tree_text_rules.specs.tree_rules.Known.{KnowsNode};
ghost use Rattle.tree_text_rules.specs.tree_rules.Known.{KnowsTree, KnowsClaim, KnowsColumn};
ghost use Rattle.tree_text_rules.specs.tree_rules.Known.{KnowsPlace, KnowsTail};
ghost use Rattle.tree_text_rules.specs.tree_rules.Tree as trees;
ghost use Rattle.tree_text_rules.specs.tree_rules.Leaf as leaves;
ghost use Rattle.flow_program.specs.pgraph.CoversView.{cover_of, covers_of};
ghost use Rattle.branch_tree.specs.View.{end_of, claim_of, tail_of};
ghost use Rattle.tree_text_rules.specs.Spelling.{step_line, cover_line, end_with_sets, head_lines};
ghost use Rattle.tree_text_rules.specs.Spelling.{node_lines, tree_lines, network_lines};
ghost use Rattle.tree_text_rules.specs.Spelling.{claim_lines, place_lines, tail_lines, rest_lines};
ghost use Rattle.tree_text.specs.Prints.{Puts};

use crate::fault::PrintFault;
use crate::line::{Field, put};
use branch_tree::{Claim, End, Network, Scaled, Tail, Tree, TreeNode};
use flow_program::{Cover, Covers, Problem, Step, UnitSet};
use pns_io::Sink;
use tree_text_rules::{Column, Place};

pub(crate) fn put_step<K: Sink>(
    line: &mut String,
    problem: &Problem,
    step: Step,
    out: &mut K,
) -> Result<(), PrintFault>
    requires { KnowsStep problem.now (step_of step) }
    ensures { Puts (step_line problem.now (step_of step) ∷ []) (K.state out.old) (K.state out.new)
        result }
{
    match step {
        Step::Raw(unit) => put(line, problem, "raw", &[Field::Unit(unit)], out),
        Step::Rival(unit) => put(line, problem, "rival", &[Field::Unit(unit)], out),
        Step::Starve(material) => put(line, problem, "starve", &[Field::Material(material)], out),
        Step::Loose(units) => put(line, problem, "loose", &[Field::Units(units)], out),
        Step::Sole { material, unit } => {
            let fields = [Field::Material(material), Field::Unit(unit)];
            put(line, problem, "sole", &fields, out)
        }
    }
}

pub(crate) fn put_head<K: Sink>(
    line: &mut String,
    problem: &Problem,
    option: UnitSet,
    steps: &[Step],
    out: &mut K,
) -> Result<(), PrintFault>
    requires option { AreUnits problem.now option }
    requires steps { Each (KnowsStep problem.now) (map step_of steps.now) }
    ensures { Puts (head_lines problem.now option (map step_of steps.now)) (K.state out.old)
        (K.state out.new) result }
{
    put(line, problem, "node", &[Field::Units(option)], out)?;
    'printing: for step in steps {
        put_step(line, problem, *step, out)?;
    }
    Ok(())
}

// The line of a set of a charge.
fn put_cover<K: Sink>(
    line: &mut String,
    problem: &Problem,
    cover: &Cover,
    out: &mut K,
) -> Result<(), PrintFault>
    requires { KnowsCover problem.now (cover_of cover.now) }
    ensures { Puts (cover_line problem.now (cover_of cover.now) ∷ []) (K.state out.old)
        (K.state out.new) result }
{
    match cover.beside {
        None => {
            let fields = [Field::Number(cover.weight), Field::Units(cover.units)];
            put(line, problem, "some", &fields, out)
        }
        Some(unit) => {
            let fields = [
                Field::Number(cover.weight),
                Field::Unit(unit),
                Field::Units(cover.units),
            ];
            put(line, problem, "with", &fields, out)
        }
    }
}

pub(crate) fn put_covers<K: Sink>(
    line: &mut String,
    problem: &Problem,
    covers: &[Cover],
    out: &mut K,
) -> Result<(), PrintFault>
    requires { Each (KnowsCover problem.now) (covers_of covers.now) }
    ensures { Puts (map (cover_line problem.now) (covers_of covers.now)) (K.state out.old)
        (K.state out.new) result }
{
    'printing: for cover in covers {
        put_cover(line, problem, cover, out)?;
    }
    Ok(())
}

// The line of a charge, and those of its sets.
fn put_charge<K: Sink>(
    line: &mut String,
    problem: &Problem,
    scaled: &Scaled,
    covers: &Covers,
    out: &mut K,
) -> Result<(), PrintFault>
    requires { Each (KnowsCover problem.now) covers.now }
    ensures { Puts
        (end_with_sets problem.now
        (trees.leaf
        (leaves.charged (record { d = scaled.now.d; ys = scaled.now.ys; covers = covers.now }))))
        (K.state out.old) (K.state out.new) result }
{
    let fields = [Field::Number(scaled.d()), Field::Numbers(scaled.ys())];
    put(line, problem, "charge", &fields, out)?;
    put_covers(line, problem, covers.covers(), out)
}

pub(crate) fn put_end<K: Sink>(
    line: &mut String,
    problem: &Problem,
    end: &End,
    out: &mut K,
) -> Result<(), PrintFault>
    requires { KnowsEnd problem.now (end_of end.now) }
    ensures { Puts (end_with_sets problem.now (end_of end.now)) (K.state out.old) (K.state out.new)
        result }
{
    match end {
        End::Dead(material) => put(line, problem, "dead", &[Field::Material(*material)], out),
        End::Clash(exclusion) => put(line, problem, "clash", &[Field::Exclusion(*exclusion)], out),
        End::Refuted(ys) => {
            let fields = [Field::Numbers(ys.numbers())];
            put(line, problem, "refuted", &fields, out)
        }
        End::Bound(scaled) => {
            let fields = [Field::Number(scaled.d()), Field::Numbers(scaled.ys())];
            put(line, problem, "bound", &fields, out)
        }
        End::Charge { scaled, covers } => put_charge(line, problem, scaled, covers, out),
        End::Branch { material, children } => {
            let fields = [Field::Material(*material), Field::Count(*children)];
            put(line, problem, "branch", &fields, out)
        }
        End::Either(unit) => put(line, problem, "either", &[Field::Unit(*unit)], out),
        End::Open(None) => put(line, problem, "open", &[], out),
        End::Open(Some(scaled)) => {
            let fields = [Field::Number(scaled.d()), Field::Numbers(scaled.ys())];
            put(line, problem, "open", &fields, out)
        }
    }
}

fn put_node<K: Sink>(
    line: &mut String,
    problem: &Problem,
    node: &TreeNode,
    out: &mut K,
) -> Result<(), PrintFault>
    requires { KnowsNode problem.now node.now }
    ensures { Puts (node_lines problem.now node.now) (K.state out.old) (K.state out.new) result }
{
    put_head(line, problem, node.option, node.steps.steps(), out)?;
    put_end(line, problem, &node.end, out)
}

pub(crate) fn put_nodes<K: Sink>(
    line: &mut String,
    problem: &Problem,
    nodes: &[TreeNode],
    out: &mut K,
) -> Result<(), PrintFault>
    requires { KnowsTree problem.now nodes.now }
    ensures { Puts (tree_lines problem.now nodes.now) (K.state out.old) (K.state out.new) result }
{
    'printing: for node in nodes {
        put_node(line, problem, node, out)?;
    }
    Ok(())
}

pub(crate) fn put_network<'a, K: Sink>(
    line: &mut String,
    problem: &Problem,
    network: &'a Network,
    out: &mut K,
) -> Result<(), PrintFault>
    requires { AreUnits problem.now network.now.units }
    ensures { Puts (network_lines problem.now network.now) (K.state out.old) (K.state out.new)
        result }
{
    // An array without a reference needs to be given the lifetime of those that have one.
    let units: [Field<'a>; 1] = [Field::Units(network.units())];
    put(line, problem, "network", &units, out)?;
    let sizes = [Field::Number(network.d()), Field::Numbers(network.sizes())];
    put(line, problem, "sizes", &sizes, out)?;
    let cost: [Field<'a>; 1] = [Field::Number(network.cost())];
    put(line, problem, "cost", &cost, out)
}

pub(crate) fn put_claim<K: Sink>(
    line: &mut String,
    problem: &Problem,
    claim: &Claim,
    out: &mut K,
) -> Result<(), PrintFault>
    requires { KnowsClaim problem.now (claim_of claim.now) }
    ensures { Puts (claim_lines problem.now (claim_of claim.now)) (K.state out.old)
        (K.state out.new) result }
{
    match claim {
        Claim::Network(network) => put_network(line, problem, network, out),
        Claim::Infeasible => put(line, problem, "infeasible", &[], out),
        Claim::Unknown => put(line, problem, "unknown", &[], out),
    }
}

pub(crate) fn put_place<'a, K: Sink>(
    line: &mut String,
    problem: &Problem,
    nonbasic: &'a [Column],
    place: Place,
    out: &mut K,
) -> Result<(), PrintFault>
    requires columns { Each (KnowsColumn problem.now) nonbasic.now }
    requires known { KnowsPlace problem.now place }
    ensures { Puts (place_lines problem.now nonbasic.now place) (K.state out.old) (K.state out.new)
        result }
{
    put(line, problem, "nonbasic", &[Field::Columns(nonbasic)], out)?;
    let place: [Field<'a>; 1] = [Field::Place(place)];
    put(line, problem, "place", &place, out)
}

pub(crate) fn put_tail<K: Sink>(
    line: &mut String,
    problem: &Problem,
    tail: &Tail,
    out: &mut K,
) -> Result<(), PrintFault>
    requires { KnowsTail problem.now (tail_of tail.now) }
    ensures { Puts (tail_lines problem.now (tail_of tail.now)) (K.state out.old) (K.state out.new)
        result }
{
    match tail {
        Tail::Whole => put(line, problem, "end", &[], out),
        Tail::Spent { next, options } => {
            let fields = [Field::Count(*next), Field::Options(*options)];
            put(line, problem, "spent", &fields, out)?;
            put(line, problem, "end", &[], out)
        }
        Tail::Past {
            node,
            nonbasic,
            place,
        } => {
            put(line, problem, "past", &[Field::Count(*node)], out)?;
            put_place(line, problem, nonbasic.columns(), *place, out)?;
            put(line, problem, "end", &[], out)
        }
    }
}

pub(crate) fn put_rest<K: Sink>(
    line: &mut String,
    problem: &Problem,
    claim: &Claim,
    tree: &Tree,
    tail: &Tail,
    out: &mut K,
) -> Result<(), PrintFault>
    requires claim { KnowsClaim problem.now (claim_of claim.now) }
    requires tree { KnowsTree problem.now tree.now }
    requires tail { KnowsTail problem.now (tail_of tail.now) }
    ensures { Puts (rest_lines problem.now (claim_of claim.now) tree.now (tail_of tail.now))
        (K.state out.old) (K.state out.new) result }
{
    put_claim(line, problem, claim, out)?;
    put_nodes(line, problem, tree.nodes(), out)?;
    put_tail(line, problem, tail, out)
}
