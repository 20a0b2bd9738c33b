//! The rule by which an open leaf is branched.
ghost use Rattle.std.specs.Prelude.{◌≡◌, ◌<◌, ℕ, true, length, IfSome, IsTrue};
ghost use Rattle.structure_list.specs.number_sets.Sets.{has};
ghost use Rattle.structure_list.specs.pns_rules.Shape.{shape_of};
ghost use Rattle.structure_list.specs.pns_rules.Structure.{is_needed};
ghost use Rattle.structure_list.specs.pns_rules.Nodes.{options};
ghost use Rattle.structure_list.specs.pns_rules.Ends.{IsReduced, IsSound, IsUndecided};
ghost use Rattle.structure_list.specs.pgraph.Tables.{shape};
ghost use Rattle.structure_list.specs.pgraph.View.{node_of};
ghost use Rattle.node_evaluation.specs.Choices.{IsChoice, option_count};

use crate::candidates::best_unit;
use crate::dues::Dues;
use structure_list::{Graph, MatSet, Node, Site, UnitSet};

/// How an open leaf is branched: at a material with three options, or in two at one unit.
#[derive(Clone, Copy, Debug)]
pub enum Choice {
    Material(u32),
    Unit(u32),
}

impl Choice {
    /// How many children the leaf gets.
    pub fn options(&self) -> u128
        ensures { result ≡ option_count self.now }
    {
        match *self {
            Choice::Material(_) => 3,
            Choice::Unit(_) => 2,
        }
    }
}

/// Whether no unit that is taken in makes the needed material and just two free ones do: then one
/// of them goes in, or both.
fn has_three_options(graph: &Graph, node: &Node, x: u32) -> bool
    requires known { x < (shape graph.now).materials }
    requires needed { is_needed (shape graph.now) (node_of node.now).inside x ≡ true }
    ensures undecided { IsTrue result → IsUndecided (shape graph.now) (node_of node.now) x }
    ensures three { IsTrue result → length (options (shape graph.now) (node_of node.now) x) ≡ 3 }
{
    search_tree::options_are_counted();
    let (base, free) = graph.options(*node, x);
    base.is_empty() && free.count() == 2
}

/// The least needed material with three options that two free units make.
fn least_with_three(graph: &Graph, node: &Node, needed: MatSet) -> Option<u32>
    requires { has needed ≡ is_needed (shape graph.now) (node_of node.now).inside }
    ensures undecided { IfSome result (λ x. IsUndecided (shape graph.now) (node_of node.now) x) }
    ensures three { IfSome result
        (λ x. length (options (shape graph.now) (node_of node.now) x) ≡ 3) }
{
    graph.is_proper();
    for x in needed {
        if has_three_options(graph, node, x) {
            return Some(x);
        }
    }
    None
}

/// Whether just two units are neither taken in nor left out.
fn has_two_free(graph: &Graph, node: &Node) -> bool {
    graph.is_proper();
    let units = UnitSet::below(graph.unit_count());
    units.minus(node.inside).minus(node.outside).count() == 2
}

/// How the leaf is branched. If just two units are free, and both make a needed material that no
/// unit taken in makes, it is at the least such material. Else it is at the free maker of a needed
/// material that has the greatest score, with the least number among equals.
///
/// A unit of a size above 0 scores what it owes of its fixed cost, and one more. Another unit makes
/// needed materials that no unit taken in makes. It scores the greatest share that one of them
/// owes. A free unit without a fixed cost may use a material that only one unit is left to make. If
/// that unit is free too, the first one owes what that unit owes. In use it scores the whole fixed
/// cost of that unit in the ratio of their sizes.
///
/// If the unit of the greatest score owes nothing, units downstream of units in use that owe
/// something come first: each ends a chain of free units, in which each unit uses what the one
/// before it makes. If there are none, units that lead on from units in use without a path to a
/// product come before all that score less than 2.
///
/// `first` is a material that is to decide. `sizes` has the sizes of the units that are not left
/// out, in rising order and in millionths; an entry that is missing counts as 0.
pub fn choose(site: &Site<'_>, node: Node, first: u32, sizes: &[i64]) -> Choice
    requires sound { IsSound (shape_of site.now) (node_of node) }
    requires reduced { IsReduced (shape_of site.now) (node_of node) }
    requires first { IsUndecided (shape_of site.now) (node_of node) first }
    ensures { IsChoice (shape_of site.now) (node_of node) result }
{
    let (problem, graph) = (site.problem(), site.graph());
    let needed = graph.needed(node.inside);
    if has_two_free(graph, &node) {
        if let Some(material) = least_with_three(graph, &node, needed) {
            return Choice::Material(material);
        }
    }
    graph.is_proper();
    let mut dues = Dues::of(problem, graph, &node, sizes);
    let unit = best_unit(graph, &node, needed, &dues, first);
    if dues.owes(unit) {
        return Choice::Unit(unit);
    }
    dues.look_behind(graph, &node);
    let unit = best_unit(graph, &node, needed, &dues, first);
    if dues.has_behind(unit) {
        return Choice::Unit(unit);
    }
    dues.find_leading(problem, graph, &node);
    Choice::Unit(best_unit(graph, &node, needed, &dues, first))
}
