//! From the bytes of a file to the text of what it holds.
ghost use Rattle.std.specs.Prelude.{◌≤◌, ℕ, List, length};
ghost use Rattle.report_commands.specs.Works.{TreeWork, RankWork, FormSays};
ghost use Rattle.network_commands.specs.studio_rules.RangesJson.{AnySays};
ghost use Rattle.network_commands.specs.studio_rules.HeadedFile.{HeadedSays};
ghost use Rattle.network_commands.specs.studio_rules.TextFile.{EitherSays};
ghost use Rattle.network_commands.specs.studio_rules.Ending.{Ends, Tells};

use crate::form::Form;
use crate::ranking::say_ranking;
use crate::say_stated;
use crate::table::say_table;
use json_text::{Plant, is_table};
use network_commands::say::say_memory;
use network_commands::{
    Format, NetworkText, Source, Status, say_claimed, say_reported, say_tree_fault,
};
use rank_text::{Graph, Headed, Outputs, Problem, Sink, Site, TreeFault, is_ranking, read_headed};
use std::alloc::Global;

/// Prints the tree of the bytes of a file in this form, with the head that it may have, or their
/// first fault.
fn say_tree<K: Sink, E: Sink>(
    alloc: Global,
    form: Form<'_>,
    out: &mut Outputs<K, E>,
    problem: &Problem,
    bytes: &[u8],
) -> Status
    requires { length bytes.now ≤ 268435456 }
    ensures { (name : List ℕ)
        → Ends (Tells (HeadedSays (TreeWork form.entry) name problem.now bytes.now)) out.old out.new
        result }
{
    match read_headed(alloc, problem, bytes) {
        Ok(text) => match form {
            Form::Report(measures) => {
                let Ok(graph) = Graph::of(alloc, problem) else {
                    return say_memory(out);
                };
                let site = Site::of(problem, &graph);
                let plant = Plant {
                    site: &site,
                    measures,
                };
                say_reported(alloc, out, &plant, &text)
            }
            Form::Json => say_stated(alloc, out, problem, &text),
            Form::Graph(scene) => {
                let Headed { claim, tree, .. } = text;
                say_claimed(alloc, NetworkText::Graph(scene), out, problem, claim, &tree)
            }
        },
        Err(TreeFault::At { line, kind }) => {
            let source = Source {
                text: bytes,
                format: Format::Tree,
            };
            say_tree_fault(alloc, out, source, line, kind)
        }
        Err(TreeFault::Memory) => say_memory(out),
    }
}

/// The same of a tree or of a ranking: the first line says which it is.
fn say_either<K: Sink, E: Sink>(
    alloc: Global,
    form: Form<'_>,
    out: &mut Outputs<K, E>,
    problem: &Problem,
    bytes: &[u8],
) -> Status
    requires { length bytes.now ≤ 268435456 }
    ensures { (name : List ℕ)
        → Ends
        (Tells (EitherSays (TreeWork form.entry) (RankWork form.entry) name problem.now bytes.now))
        out.old out.new result }
{
    if is_ranking(bytes) {
        say_ranking(alloc, form, out, problem, bytes)
    } else {
        say_tree(alloc, form, out, problem, bytes)
    }
}

/// For programs, a table of ranges too: the first line says so.
fn say_object<K: Sink, E: Sink>(
    alloc: Global,
    out: &mut Outputs<K, E>,
    problem: &Problem,
    bytes: &[u8],
) -> Status
    requires { length bytes.now ≤ 268435456 }
    ensures { (name : List ℕ)
        → Ends (Tells (AnySays name problem.now bytes.now)) out.old out.new result }
{
    if is_table(bytes) {
        say_table(alloc, out, problem, bytes)
    } else {
        say_either(alloc, Form::Json, out, problem, bytes)
    }
}

/// Prints in this form what the bytes of a file hold, or their first fault.
pub(crate) fn say_any<K: Sink, E: Sink>(
    alloc: Global,
    form: Form<'_>,
    out: &mut Outputs<K, E>,
    problem: &Problem,
    bytes: &[u8],
) -> Status
    requires { length bytes.now ≤ 268435456 }
    ensures { (name : List ℕ)
        → Ends (Tells (FormSays form.entry name problem.now bytes.now)) out.old out.new result }
{
    match form {
        Form::Report(measures) => say_either(alloc, Form::Report(measures), out, problem, bytes),
        Form::Json => say_object(alloc, out, problem, bytes),
        Form::Graph(scene) => say_either(alloc, Form::Graph(scene), out, problem, bytes),
    }
}
