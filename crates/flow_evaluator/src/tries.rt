//! When the flows of a trial structure are tried. It saves time, and nothing is promised of it.
use dual_simplex::Mixed;
use node_evaluation::{Evaluation, FirstLook};

/// What was found so far: what the node is worth that was looked at last, or what it costs at
/// least; the least cost of a network; and how many structures were tried in vain since a network
/// was found.
#[derive(Clone, Copy)]
pub(crate) struct Tries {
    value: Mixed,
    least: Option<Mixed>,
    vain: u32,
    // How many leaves are still skipped.
    passed: u32,
    // How many nodes were looked at.
    nodes: u32,
}

impl Tries {
    /// Before anything is found.
    pub(crate) fn none() -> Tries {
        Tries {
            value: Mixed::of(0, 1),
            least: None,
            vain: 0,
            passed: 0,
            nodes: 0,
        }
    }

    fn count(&mut self) {
        self.nodes = self.nodes.wrapping_add(1);
    }

    /// Keeps what a first look says of a node, which counts it.
    pub(crate) fn keep_first(&mut self, first: &FirstLook) {
        self.count();
        match first {
            FirstLook::AtLeast(bound) => self.value = bound.low,
            FirstLook::Refuted(_) | FirstLook::Nothing => {}
        }
    }

    /// Keeps the answer for a node. One at which not all is decided was counted at its first look.
    pub(crate) fn keep(&mut self, evaluation: &Evaluation, decided: bool) {
        if decided {
            self.count();
        }
        match evaluation {
            Evaluation::Least(bound) => self.value = bound.value,
            Evaluation::Flows(bound, _) => self.keep_cost(bound.value),
            Evaluation::Refuted(_) | Evaluation::Stopped(_) => {}
        }
    }

    /// Keeps the cost of a network that is found.
    pub(crate) fn keep_cost(&mut self, cost: Mixed) {
        if self.is_cheaper(cost) {
            self.least = Some(cost);
        }
        self.vain = 0;
        self.passed = 0;
    }

    /// After a structure was tried in vain, as many leaves are skipped as were tried in vain one
    /// after the other.
    pub(crate) fn keep_vain(&mut self) {
        self.vain = self.vain.saturating_add(1);
        self.passed = self.vain;
    }

    /// Whether a network was found.
    pub(crate) fn has_network(&self) -> bool {
        self.least.is_some()
    }

    /// Whether it is the turn of a node at which any structure is tried: of one in 32.
    pub(crate) fn is_turn(&self) -> bool {
        self.nodes % 32 == 0
    }

    fn is_cheaper(&self, cost: Mixed) -> bool {
        match self.least {
            None => true,
            Some(least) => cost < least,
        }
    }

    /// Whether a structure of the node that was looked at last is to be tried: its network may be
    /// the cheapest that was found, and the leaf is not skipped.
    pub(crate) fn is_due(&mut self) -> bool {
        if !self.is_cheaper(self.value) {
            return false;
        }
        let is_due = self.passed == 0 || self.is_turn();
        self.passed = self.passed.saturating_sub(1);
        is_due
    }
}
