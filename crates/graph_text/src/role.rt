//! The part of a unit in what is drawn.
ghost use Rattle.std.specs.Prelude.{◌≡◌, ◌<◌, Some, length};
ghost use Rattle.report_amounts.specs.number_sets.Sets.{has};
ghost use Rattle.report_amounts.specs.report_rules.Drawn.{role_of, is_built};
ghost use Rattle.report_amounts.specs.report_rules.Graph.{look_words};

use crate::limits::is_unit_limited;
use crate::picture::Picture;
use report_amounts::{Network, Problem, Role, size_at};

/// Whether the unit is one of the network.
pub(crate) fn is_in(problem: &Problem, network: &Network, u: u32) -> bool
    requires { u < length problem.now.units }
    ensures { result ≡ has network.now.units u }
{
    problem.is_valid();
    network.units().has(u)
}

/// The part of the unit.
pub(crate) fn role_of(picture: &Picture<'_>, u: u32) -> Role
    requires { u < length picture.now.problem.units }
    ensures { result ≡ role_of picture.now.problem picture.now.network u }
{
    match picture.network() {
        None => Role::Planned,
        Some(network) => role_in(picture.problem(), network, u),
    }
}

/// The part of the unit in this network.
pub(crate) fn role_in(problem: &Problem, network: &Network, u: u32) -> Role
    requires { u < length problem.now.units }
    ensures { result ≡ role_of problem.now (Some network.now) u }
{
    if !is_in(problem, network, u) {
        Role::LeftOut
    } else if size_at(network, u) == 0 {
        Role::Idle
    } else if is_unit_limited(problem, network, u) {
        Role::AtLimit
    } else {
        Role::Running
    }
}

/// Whether the unit is one of the network; without a network each unit is.
pub(crate) fn is_built(picture: &Picture<'_>, u: u32) -> bool
    requires { u < length picture.now.problem.units }
    ensures { result ≡ is_built picture.now.network u }
{
    match picture.network() {
        None => true,
        Some(network) => is_in(picture.problem(), network, u),
    }
}

/// How a unit of this part looks.
pub(crate) fn look(role: Role) -> &'static str
    ensures { result.now ≡ look_words role }
{
    match role {
        Role::Planned | Role::Running => "shape=box, style=filled, fillcolor=palegreen",
        Role::AtLimit => "shape=box, style=filled, fillcolor=orange",
        Role::Idle => "shape=box, style=dashed",
        Role::LeftOut => "shape=box, color=gray75, fontcolor=gray60",
    }
}
