//! The text of a network with a head and a tree.
ghost use Rattle.std.specs.Prelude.{◌≡◌, ◌<◌, ◌^◌, Ok, length};
ghost use Rattle.tree_text.specs.tree_rules.Claim as claims;
ghost use Rattle.tree_text.specs.tree_rules.Tail as tails;
ghost use Rattle.tree_text.specs.tree_rules.Known.{AreUnits, KnowsTree};
ghost use Rattle.tree_text.specs.tree_rules.HeadKnown.{KnowsHead};
ghost use Rattle.tree_text.specs.tree_text_rules.Read.{read_headed_text};
ghost use Rattle.tree_text.specs.tree_text_rules.Spelling.{headed_text};
ghost use Rattle.command_files.specs.studio_rules.Solve.{SolvesBy, HeadedWork};
ghost use Rattle.command_files.specs.studio_rules.Ending.{Ends, Tells};
ghost use Rattle.searches.specs.Solution.{certificate_of};

use command_files::Status;
use command_files::say::say_printed;
use headed_search::{
    Claim, Head, Headed, Network, Outputs, Problem, Sink, Tail, Tree, spelled_headed_texts_read,
};
use std::alloc::Global;
use tree_text::print_headed;

// The text reads back as the network, the head and the tree. A call shows this to a proof, and does
// nothing.
fn reads_back(problem: &Problem, network: &Network, head: &Head, tree: &Tree)
    requires network { AreUnits problem.now network.now.units }
    requires head { KnowsHead problem.now head.now }
    requires tree { KnowsTree problem.now tree.now }
    requires few { length tree.now < 2 ^ 32 }
    ensures { read_headed_text problem.now
        (headed_text problem.now (claims.network network.now) head.now tree.now tails.whole)
        ≡ Ok (certificate_of network.now head.now tree.now) }
{
    problem.is_valid();
    network.is_sized();
    tree.is_tree();
    spelled_headed_texts_read();
}

/// Prints a network of least cost with the head and the tree that prove it.
pub(crate) fn say_headed<K: Sink, E: Sink>(
    alloc: Global,
    out: &mut Outputs<K, E>,
    problem: &Problem,
    headed: Headed,
) -> Status
    requires { SolvesBy problem.now (claims.network headed.network) headed.head headed.tree }
    ensures { Ends (Tells (HeadedWork problem.now)) out.old out.new result }
{
    reads_back(problem, &headed.network, &headed.head, &headed.tree);
    let claim = Claim::Network(headed.network);
    let tail = Tail::Whole;
    let text = tree_text::Headed {
        claim: &claim,
        head: &headed.head,
        tree: &headed.tree,
        tail: &tail,
    };
    let printed = print_headed(alloc, problem, &text, &mut out.out);
    say_printed(out, printed, Status::Done)
}
