//! What units and materials still owe at the last basis of a node. It guides a search, and nothing
//! is promised of it. The sums stay far inside their range, and would be clamped if they did not.
ghost use Rattle.std.specs.Prelude.{◌≡◌, ◌<◌, ℕ, length};
ghost use Rattle.structure_list.specs.pns_rules.Shape.{shape_of};
ghost use Rattle.structure_list.specs.pgraph.Tables.{shape};

use crate::paths::leading;
use structure_list::{Graph, Node, OperatingUnit, Problem, UnitSet};

/// What is known of a unit: its fixed cost, what it owes of it, and its size, all 0 if it is left
/// out.
#[derive(Clone, Copy)]
struct Due {
    fixed: i128,
    unpaid: i128,
    size: i64,
    // What it scores if it has a size above 0.
    share: i128,
    // The score that reaches it from upstream, if that was looked for.
    behind: i128,
}

const NOTHING: Due = Due {
    fixed: 0,
    unpaid: 0,
    size: 0,
    share: 0,
    behind: 0,
};

// A unit with such a score gets so much more, which is more than any other score.
const AHEAD: i128 = 1_000_000_000_000_000_000_000_000_000_000;

// This score is divided by `STEP` for each unit in use on the way, and by `STEP_NOT_IN_USE` for
// each other one.
const STEP: i128 = 2;

const STEP_NOT_IN_USE: i128 = 1024;

/// What each unit owes, and which units have a size above 0.
#[derive(Clone, Copy)]
pub(crate) struct Dues {
    dues: [Due; 128],
    used: UnitSet,
    // The units that lead on from units in use without a path to a product, if they were looked
    // for.
    leading: UnitSet,
}

/// The fixed cost of a unit over the payout period, in 10^-12 of the money unit.
fn fixed_of(unit: &OperatingUnit, payout: i64) -> i128 {
    let yearly = (unit.fix as i128).saturating_mul(payout as i128);
    let once = unit.investment_fix as i128;
    yearly.saturating_add(once).saturating_mul(1_000_000)
}

/// What a unit of a size owes: its fixed cost less what the slope of a free unit pays at this size.
fn due_of(unit: &OperatingUnit, payout: i64, size: i64) -> Due {
    let fixed = fixed_of(unit, payout);
    let paid = if unit.upper < 1 {
        0
    } else {
        let slope = fixed / unit.upper as i128;
        slope.saturating_mul(size.clamp(0, unit.upper) as i128)
    };
    let unpaid = fixed.saturating_sub(paid);
    Due {
        fixed,
        unpaid,
        size,
        share: unpaid,
        behind: 0,
    }
}

/// What a unit without a fixed cost owes that uses what this maker makes, and what it scores in
/// use: the whole fixed cost of the maker, in the ratio of their sizes.
fn passed(due: Due, maker: Due) -> Due {
    let share = if maker.size < 1 {
        0
    } else {
        maker.fixed.saturating_mul(due.size as i128) / maker.size as i128
    };
    Due {
        fixed: due.fixed,
        unpaid: due.unpaid.max(maker.unpaid),
        size: due.size,
        share: due.share.max(share),
        behind: 0,
    }
}

impl Dues {
    /// What the units owe, if those that are not left out have these sizes, in rising order.
    pub(crate) fn of(problem: &Problem, graph: &Graph, node: &Node, sizes: &[i64]) -> Dues
        requires { shape graph.now ≡ shape_of problem.now }
    {
        graph.is_proper();
        let (units, payout) = (problem.units(), problem.payout());
        let mut dues = Dues {
            dues: [NOTHING; 128],
            used: UnitSet::empty(),
            leading: UnitSet::empty(),
        };
        let mut costless = UnitSet::empty();
        let mut rest = sizes.iter();
        for u in 0..graph.unit_count() {
            if !node.outside.has(u) {
                let size = rest.next().copied().unwrap_or(0);
                let due = due_of(&units[u as usize], payout, size);
                dues.dues[u as usize] = due;
                if size > 0 {
                    dues.used = dues.used.with(u);
                }
                if due.fixed < 1 {
                    costless = costless.with(u);
                }
            }
        }
        let users = costless.minus(node.inside);
        if !users.is_empty() {
            dues.pass_on(graph, node, users);
        }
        dues
    }

    /// Lets each of the users, free units without a fixed cost, owe what the maker of a material
    /// that they use owes, if it is the only one left to make it, and free too.
    fn pass_on(&mut self, graph: &Graph, node: &Node, users: UnitSet) {
        graph.is_proper();
        for x in 0..graph.material_count() {
            let makers = graph.producers(x).minus(node.outside);
            if makers.count() == 1 && makers.meet(node.inside).is_empty() {
                makers.rises();
                if let Some(maker) = makers.least() {
                    let due = self.dues[maker as usize];
                    self.pass(due, graph.consumers(x).meet(users));
                }
            }
        }
    }

    /// Lets the units owe what their maker does.
    fn pass(&mut self, maker: Due, set: UnitSet) {
        for u in set {
            self.dues[u as usize] = passed(self.dues[u as usize], maker);
        }
    }

    /// Whether the unit owes something.
    pub(crate) fn owes(&self, u: u32) -> bool
        requires { u < 128 }
    {
        self.dues[u as usize].unpaid > 0
    }

    /// Looks for the scores that reach the free units from upstream. They start at units in use
    /// that owe something, and go from maker to user. A score gets less with each unit on the way,
    /// and much less with one that is not in use.
    pub(crate) fn look_behind(&mut self, graph: &Graph, node: &Node) {
        graph.is_proper();
        let units = UnitSet::below(graph.unit_count());
        let free = units.minus(node.inside).minus(node.outside);
        self.begin_behind(free.meet(self.used));
        for _turn in 0..graph.unit_count() {
            if !self.pass_behind(graph, free) {
                return;
            }
        }
    }

    /// Begins with the units that owe something themselves.
    fn begin_behind(&mut self, set: UnitSet) {
        for u in set {
            if let Some(due) = self.dues.get_mut(u as usize) {
                if due.unpaid > 0 {
                    due.behind = due.share;
                }
            }
        }
    }

    /// Passes the scores of the free makers of each material to its free users, and says whether
    /// that changed anything.
    fn pass_behind(&mut self, graph: &Graph, free: UnitSet) -> bool {
        graph.is_proper();
        let mut has_changed = false;
        for x in 0..graph.material_count() {
            let most = self.most_behind(graph.producers(x).meet(free));
            if most > 0 {
                let users = graph.consumers(x).meet(free);
                has_changed |= self.raise(users.meet(self.used), most / STEP);
                has_changed |= self.raise(users.minus(self.used), most / STEP_NOT_IN_USE);
            }
        }
        has_changed
    }

    /// The greatest such score of a unit of the set.
    fn most_behind(&self, set: UnitSet) -> i128 {
        let mut most = 0;
        for u in set {
            if let Some(due) = self.dues.get(u as usize) {
                most = due.behind.max(most);
            }
        }
        most
    }

    /// Raises the scores of the units to at least so much, and says whether that changed any.
    fn raise(&mut self, set: UnitSet, behind: i128) -> bool {
        let mut has_changed = false;
        for u in set {
            if let Some(due) = self.dues.get_mut(u as usize) {
                if due.behind < behind {
                    due.behind = behind;
                    has_changed = true;
                }
            }
        }
        has_changed
    }

    /// Whether a score reaches the unit from upstream.
    pub(crate) fn has_behind(&self, u: u32) -> bool
        requires { u < 128 }
    {
        self.dues[u as usize].behind > 0
    }

    /// Looks for the units that lead on from units in use without a path to a product. They score
    /// more than all that owe nothing.
    pub(crate) fn find_leading(&mut self, problem: &Problem, graph: &Graph, node: &Node)
        requires { shape graph.now ≡ shape_of problem.now }
    {
        self.leading = leading(problem, graph, node, self.used);
    }

    /// What a material owes that is needed and not made yet: the least that one of its makers owes,
    /// over the splits that it takes to have one of them.
    pub(crate) fn owed(&self, makers: UnitSet) -> i128 {
        let mut least = i128::MAX;
        for u in makers {
            least = least.min(self.dues[u as usize].unpaid);
        }
        let splits = makers.count().max(2) - 1;
        least / splits as i128
    }

    /// The score of a maker of a material that owes so much.
    pub(crate) fn score(&self, u: u32, owed: i128) -> i128
        requires { u < 128 }
    {
        let behind = self.dues[u as usize].behind;
        if behind > 0 {
            behind.saturating_add(AHEAD)
        } else if self.leading.has(u) {
            2
        } else if self.used.has(u) {
            self.dues[u as usize].share.saturating_add(1)
        } else {
            owed
        }
    }
}
