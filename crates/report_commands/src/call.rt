//! The commands `report`, `json`, and `graph` with a second file.
ghost use Rattle.std.specs.Prelude.{◌≡◌};
ghost use Rattle.report_commands.specs.Works.{OnForm};
ghost use Rattle.network_commands.specs.studio_rules.Reading.{TwoFilesSay, TwoTextsSay};
ghost use Rattle.network_commands.specs.studio_rules.HeadedFile.{AnyHead};
ghost use Rattle.network_commands.specs.studio_rules.Network.{OnNetwork};
ghost use Rattle.network_commands.specs.studio_rules.Graph.{NetworkGraphWork};
ghost use Rattle.network_commands.specs.studio_rules.Report.{ReportWork};
ghost use Rattle.network_commands.specs.studio_rules.RankReport.{RankReportWork, ReportsOn};
ghost use Rattle.network_commands.specs.studio_rules.RankGraph.{RankGraphWork};
ghost use Rattle.network_commands.specs.studio_rules.RangesJson.{OnAny};
ghost use Rattle.network_commands.specs.studio_rules.TextFile.{OnEither};
ghost use Rattle.network_commands.specs.studio_rules.Ending.{Ends, Says};
ghost use Rattle.network_commands.specs.studio_rules.Keeps.{Keeps};

use crate::form::Form;
use crate::text::say_any;
use json_text::Measures;
use network_commands::say::say_memory;
use network_commands::{Scene, Status, bytes_of, plant_of, problem_of};
use rank_text::{Outputs, Problem, Shelf, Sink};
use std::alloc::Global;

/// The most bytes of a file that has a tree, a ranking or a table.
const TEXT_LIMIT: u64 = 268_435_456;

/// What is printed for the problem of a call: in this form, of the file of this name.
#[derive(Clone, Copy)]
struct Wanted<'a> {
    form: Form<'a>,
    name: &'a str,
}

fn say_file<F: Shelf, K: Sink, E: Sink>(
    alloc: Global,
    wanted: &Wanted<'_>,
    problem: &Problem,
    shelf: &mut F,
    out: &mut Outputs<K, E>,
) -> Status
    ensures ends { Ends
        (Says
        (OnForm wanted.now.form (F.state shelf.old).held wanted.now.name.now problem.now)
        (λ other. other ≡ wanted.now.name.now) (F.state shelf.old) (F.state shelf.new)) out.old
        out.new result }
    ensures keeps { Keeps (F.state shelf.old) (F.state shelf.new) }
{
    match bytes_of(alloc, shelf, out, wanted.name, TEXT_LIMIT) {
        Ok(bytes) => say_any(alloc, wanted.form, out, problem, &bytes),
        Err(status) => status,
    }
}

fn say_text<F: Shelf, K: Sink, E: Sink>(
    alloc: Global,
    file: &str,
    wanted: &Wanted<'_>,
    shelf: &mut F,
    out: &mut Outputs<K, E>,
) -> Status
    ensures ends { Ends
        (TwoFilesSay (OnForm wanted.now.form) file.now wanted.now.name.now (F.state shelf.old)
        (F.state shelf.new)) out.old out.new result }
    ensures keeps { Keeps (F.state shelf.old) (F.state shelf.new) }
{
    match problem_of(alloc, shelf, out, file) {
        Ok(problem) => say_file(alloc, wanted, &problem, shelf, out),
        Err(status) => status,
    }
}

/// A report that is wanted: with these units of measure in headings, of the file of this name.
#[derive(Clone, Copy)]
struct Headed<'a> {
    measures: &'a Measures,
    name: &'a str,
}

fn say_headed<F: Shelf, K: Sink, E: Sink>(
    alloc: Global,
    headed: &Headed<'_>,
    problem: &Problem,
    shelf: &mut F,
    out: &mut Outputs<K, E>,
) -> Status
    ensures ends { Ends
        (Says
        (OnEither (ReportWork headed.now.measures.now) (RankReportWork headed.now.measures.now)
        (F.state shelf.old).held headed.now.name.now problem.now)
        (λ other. other ≡ headed.now.name.now) (F.state shelf.old) (F.state shelf.new)) out.old
        out.new result }
    ensures keeps { Keeps (F.state shelf.old) (F.state shelf.new) }
{
    let wanted = Wanted {
        form: Form::Report(headed.measures),
        name: headed.name,
    };
    say_file(alloc, &wanted, problem, shelf, out)
}

/// Prints for people what the tree, or the ranking, of the other file proves on the problem of the
/// one, and its networks.
pub fn report<F: Shelf, K: Sink, E: Sink>(
    alloc: Global,
    file: &str,
    text: &str,
    shelf: &mut F,
    out: &mut Outputs<K, E>,
) -> Status
    ensures ends { Ends
        (TwoTextsSay ReportsOn file.now text.now (F.state shelf.old) (F.state shelf.new)) out.old
        out.new result }
    ensures keeps { Keeps (F.state shelf.old) (F.state shelf.new) }
{
    match plant_of(alloc, shelf, out, file) {
        Ok((bytes, problem)) => {
            let Ok(measures) = Measures::of(alloc, &bytes) else {
                return say_memory(out);
            };
            let wanted = Headed {
                measures: &measures,
                name: text,
            };
            say_headed(alloc, &wanted, &problem, shelf, out)
        }
        Err(status) => status,
    }
}

/// The same for programs; or the object of a table of ranges.
pub fn json<F: Shelf, K: Sink, E: Sink>(
    alloc: Global,
    file: &str,
    text: &str,
    shelf: &mut F,
    out: &mut Outputs<K, E>,
) -> Status
    ensures ends { Ends
        (TwoFilesSay OnAny file.now text.now (F.state shelf.old) (F.state shelf.new)) out.old
        out.new result }
    ensures keeps { Keeps (F.state shelf.old) (F.state shelf.new) }
{
    let wanted = Wanted {
        form: Form::Json,
        name: text,
    };
    say_text(alloc, file, &wanted, shelf, out)
}

/// A graph that is wanted: of this scene, with the network of the file of this name.
#[derive(Clone, Copy)]
pub struct Drawing<'a> {
    pub text: &'a str,
    pub scene: Scene,
}

/// Prints for Graphviz the graph of the plant of the one file, with the network in it that the tree
/// of the other file claims, or with the first network of a ranking and a table of all; or the
/// graph of that network alone.
pub fn graph<F: Shelf, K: Sink, E: Sink>(
    alloc: Global,
    file: &str,
    drawing: Drawing<'_>,
    shelf: &mut F,
    out: &mut Outputs<K, E>,
) -> Status
    ensures ends { Ends
        (TwoFilesSay
        (OnEither (AnyHead (OnNetwork (NetworkGraphWork drawing.entry.scene)))
        (RankGraphWork drawing.entry.scene))
        file.now drawing.entry.text.now (F.state shelf.old) (F.state shelf.new)) out.old out.new
        result }
    ensures keeps { Keeps (F.state shelf.old) (F.state shelf.new) }
{
    let wanted = Wanted {
        form: Form::Graph(drawing.scene),
        name: drawing.text,
    };
    say_text(alloc, file, &wanted, shelf, out)
}
