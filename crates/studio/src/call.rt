//! The call: it judges the words and does their command.
ghost use Rattle.std.specs.Prelude.{◌≡◌, ◌≤◌, ◌∷◌, [], List, ℕ, Some, None, OnOk, OnErr};
ghost use Rattle.std.specs.Prelude.{codes, map, string_bytes};
ghost use Rattle.std.specs.Io.KnownBytes.{Appends};
ghost use Rattle.structure_commands.specs.text_rules.Outside.{HasRisen, AppendsFront, last_count};
ghost use Rattle.structure_commands.specs.studio_rules.Lines.{line};
ghost use Rattle.structure_commands.specs.studio_rules.Command as rules;
ghost use Rattle.structure_commands.specs.studio_rules.Command.{command_of, AreWithin, IsFileWord};
ghost use Rattle.structure_commands.specs.studio_rules.Ending.{Ends, Finishes, Only, IsOneOf};
ghost use Rattle.structure_commands.specs.studio_rules.Ending.{HasFault};
ghost use Rattle.structure_commands.specs.studio_rules.Keeps.{Keeps};
ghost use Rattle.structure_commands.specs.studio_rules.Answers.{CommandSays, WordsSay};
ghost use Rattle.structure_commands.specs.studio_rules.Answers.{IsUndisturbed, IsNotStopped};
ghost use Rattle.structure_commands.specs.studio_rules.Answers.{SearchCanFinish, first_file};
ghost use Rattle.structure_commands.specs.studio_rules.Answers.{statuses_of};
ghost use Rattle.structure_commands.specs.studio_rules.Causes.{EndsExactly};
ghost use Rattle.structure_commands.specs.studio_words.View.{command_view};
ghost use Rattle.studio.specs.Noted.{ShowsFault, IsNoted};
ghost use Rattle.structure_commands.specs.studio_rules.Best.{FilesClaimBest};
ghost use Rattle.structure_commands.specs.studio_rules.Rankcheck.{FilesListBest};

use part_commands::expansion::expand;
use part_commands::graph::plant_graph;
use part_commands::merge::merge;
use part_commands::part::{part, part_against};
use part_commands::parts_are_read_once;
use part_commands::planned::periods;
use part_commands::solve::solve;
use part_commands::split::split;
use part_commands::table::table;
use part_commands::trial::trial;
use rank_commands::{accepted_are_best, alternatives, rank, rankcheck};
use report_commands::call::{Drawing, graph, json, report};
use report_commands::show::show;
use stability_commands::ranges::{Asked, ranges};
use stability_commands::stable::stable;
use std::alloc::Global;
use structure_commands::axioms::axioms;
use structure_commands::check::{accepted_is_best, check};
use structure_commands::edits::{edit, undo};
use structure_commands::flows::flows;
use structure_commands::list::list;
use structure_commands::make::make;
use structure_commands::max::max;
use structure_commands::migrate::migrate;
use structure_commands::say::{say_memory, say_text, tell};
use structure_commands::{
    Command, Effort, Failed, Outputs, Shelf, Sink, Status, Watch, command_of, lint, usage,
};

fn perform<F: Shelf, K: Sink, E: Sink, W: Watch>(
    alloc: Global,
    command: Command<'_>,
    shelf: &mut F,
    out: &mut Outputs<K, E>,
    watch: W,
) -> Status
    requires { AreWithin (command_view command) }
    ensures ends { Ends
        (CommandSays (F.state shelf.old) (F.state shelf.new) (command_view command.entry)) out.old
        out.new result }
    ensures keeps { Keeps (F.state shelf.old) (F.state shelf.new) }
{
    match command {
        Command::Max(file) => max(alloc, file, shelf, out),
        Command::Axioms(file, units) => axioms(alloc, file, &units, shelf, out),
        Command::Flows(file, units) => flows(alloc, file, &units, shelf, out),
        Command::Listing(file, after, count) => list(alloc, file, after, count, shelf, out),
        Command::Linting(file) => lint(alloc, file, shelf, out),
        Command::Make(number, units) => make(alloc, number, units, out),
        Command::Migrate(file, years) => migrate(alloc, file, years, shelf, out),
        Command::Editing(file, script) => edit(alloc, file, script, shelf, out),
        Command::Undoing(file, script) => undo(alloc, file, script, shelf, out),
        Command::Checking(file, tree) => check(alloc, file, tree, shelf, out),
        Command::RankChecking(file, rank) => rankcheck(alloc, file, rank, shelf, out),
        Command::Table(file, tree) => table(alloc, file, tree, shelf, out),
        Command::Reporting(file, tree) => report(alloc, file, tree, shelf, out),
        Command::Json(file, tree) => json(alloc, file, tree, shelf, out),
        Command::Splitting(file, tree) => split(alloc, file, tree, shelf, out),
        Command::Expanding(file, plan) => expand(alloc, file, plan, shelf, out),
        Command::Drawing(file) => plant_graph(alloc, file, shelf, out),
        Command::DrawingNetwork(file, tree, scene) => {
            graph(alloc, file, Drawing { text: tree, scene }, shelf, out)
        }
        Command::Ranging(file, tree, kind, name, budget) => {
            let effort = Effort {
                budget: budget as u32,
                watch,
            };
            stable(alloc, file, tree, kind, name, effort, shelf, out)
        }
        Command::RangingAll(file, tree, budget) => {
            let effort = Effort {
                budget: budget as u32,
                watch,
            };
            ranges(alloc, file, Asked { tree, effort }, shelf, out)
        }
        Command::Planning(file, plan, budget) => {
            let effort = Effort {
                budget: budget as u32,
                watch,
            };
            periods(alloc, file, plan, effort, shelf, out)
        }
        Command::Parting(file, inside, outside, budget) => {
            let effort = Effort {
                budget: budget as u32,
                watch,
            };
            part(alloc, file, inside, outside, effort, shelf, out)
        }
        Command::PartingAgainst(file, inside, outside, budget, tree) => {
            let effort = Effort {
                budget: budget as u32,
                watch,
            };
            part_against(alloc, file, inside, outside, effort, tree, shelf, out)
        }
        Command::Merging(file, tree, parts) => merge(alloc, file, tree, parts, shelf, out),
        Command::Solving(file, budget) => {
            let effort = Effort {
                budget: budget as u32,
                watch,
            };
            solve(alloc, file, effort, shelf, out)
        }
        Command::Showing(file, budget) => {
            let effort = Effort {
                budget: budget as u32,
                watch,
            };
            show(alloc, file, effort, shelf, out)
        }
        Command::Ranking(file, count, budget) => {
            let effort = Effort {
                budget: budget as u32,
                watch,
            };
            rank(alloc, file, count, effort, shelf, out)
        }
        Command::Alternatives(file, count, budget) => {
            let effort = Effort {
                budget: budget as u32,
                watch,
            };
            alternatives(alloc, file, count, effort, shelf, out)
        }
        Command::Trial(number, units, budget) => {
            let effort = Effort {
                budget: budget as u32,
                watch,
            };
            trial(alloc, number, units, effort, out)
        }
        Command::Telling(text) => say_text(out, text, Status::Done),
    }
}

// Says that the words have no form, and what is wrong with them.
fn tell_usage<K: Sink, E: Sink>(alloc: Global, words: &[String], out: &mut Outputs<K, E>) -> Status
    ensures { Ends (Only Status.Usage (line (codes "usage"))) out.old out.new result }
{
    let notes = usage(alloc, words);
    tell(out, b"usage\n", notes.bytes(), Status::Usage)
}

fn run<F: Shelf, K: Sink, E: Sink, W: Watch>(
    alloc: Global,
    words: &[String],
    shelf: &mut F,
    out: &mut Outputs<K, E>,
    watch: W,
) -> Status
    ensures ends { Ends
        (WordsSay (F.state shelf.old) (F.state shelf.new) (map string_bytes words.now)) out.old
        out.new result }
    ensures keeps { Keeps (F.state shelf.old) (F.state shelf.new) }
{
    let Ok(found) = command_of(alloc, words) else {
        return say_memory(out);
    };
    match found {
        Some(command) => perform(alloc, command, shelf, out, watch),
        None => tell_usage(alloc, words, out),
    }
}

// Puts the line `write fault` on standard error.
fn put_fault<K: Sink, E: Sink>(out: &mut Outputs<K, E>) -> Result<(), Failed>
    ensures ok { OnOk result
        (Appends out.old.err.written out.new.err.written (line (codes "write fault"))) }
    ensures err { OnErr result
        (AppendsFront out.old.err.written out.new.err.written (line (codes "write fault"))) }
    ensures cause { OnErr result (HasRisen out.old.err.faults out.new.err.faults) }
    ensures later { out.old.err.faults ≤ out.new.err.faults }
    ensures few { out.new.err.faults ≤ last_count }
    ensures quiet { out.new.out ≡ out.old.out }
{
    out.err.put(b"write fault\n")
}

// The same. If that fails, nothing more is done.
fn show_fault<K: Sink, E: Sink>(out: &mut Outputs<K, E>)
    ensures { ShowsFault out.old out.new }
{
    let _ = put_fault(out);
}

// If an output failed, says so on standard error.
fn note_fault<K: Sink, E: Sink>(out: &mut Outputs<K, E>, status: Status)
    ensures { IsNoted status out.old out.new }
{
    if let Status::WriteFault = status {
        show_fault(out);
    }
}

/// Does what the words say over the shelf's files, and puts the text on the outputs line by line:
/// an answer on `out`, and on `err` why there is none.
///
/// The watch gets reports of how far a search is. What is put does not depend on it.
///
/// If an output fails, the line `write fault` follows on `err`, or `err` fails as well.
///
/// The clause `ends` says which text is written with which status, and `keeps` and `later` what is
/// left of the shelf. The others are parts of `ends` in words of their own.
pub fn studio<F: Shelf, K: Sink, E: Sink, W: Watch>(
    alloc: Global,
    words: &[String],
    shelf: &mut F,
    out: &mut Outputs<K, E>,
    watch: W,
) -> Status
    ensures ends { Finishes
        (WordsSay (F.state shelf.old) (F.state shelf.new) (map string_bytes words.now)) out.old
        out.new result }
    // The files are known as before.
    ensures keeps { (name : List ℕ)
        → (F.state shelf.new).held name ≡ (F.state shelf.old).held name }
    // No count of faults fell.
    ensures later { (name : List ℕ)
        → (F.state shelf.old).faults name ≤ (F.state shelf.new).faults name }
    // `usage` comes only if the words have no form.
    ensures usage { result ≡ Status.Usage → command_of (map string_bytes words.now) ≡ None }
    // Words without a form get it, unless an output or memory fails.
    ensures no_form { command_of (map string_bytes words.now) ≡ None
        → IsOneOf (Status.Usage ∷ Status.WriteFault ∷ Status.Memory ∷ []) result }
    // A fault of reading comes only if the count of faults of a file of the words rose.
    ensures read_fault { result ≡ Status.ReadFault → (name : List ℕ)
        × IsFileWord (map string_bytes words.now) name
        × HasRisen ((F.state shelf.old).faults name) ((F.state shelf.new).faults name) }
    // A fault of writing comes only if the count of faults of an output rose.
    ensures write_fault { result ≡ Status.WriteFault → HasFault out.old out.new }
    // A command whose first file is missing says so, unless an output or memory fails.
    ensures missing { (command : rules.Command) (name : List ℕ)
        → command_of (map string_bytes words.now) ≡ Some command → first_file command ≡ Some name
        → (F.state shelf.old).held name ≡ Some None
        → IsOneOf (Status.ReadFault ∷ Status.WriteFault ∷ Status.Memory ∷ []) result }
    // Each status of `caused` comes only if it has its cause. If it has, and the shelf knows the
    // files of the command, it comes, unless a read, an output or memory fails. The causes are a
    // file above its limit, the first fault of its text, a bad token, an unknown name, words of no
    // sound node, and a problem that can't be migrated.
    ensures exact { (command : rules.Command)
        → command_of (map string_bytes words.now) ≡ Some command
        → EndsExactly (F.state shelf.old).held command result }
    // If the files of a command are there, within their limits, and no count of faults rises, the
    // call ends with a status of the command.
    ensures complete { (command : rules.Command)
        → command_of (map string_bytes words.now) ≡ Some command
        → IsUndisturbed (F.state shelf.old) (F.state shelf.new) out.old out.new command
        → IsOneOf (statuses_of command) result }
    // With a large enough budget and no overflow, a search ends neither with 4 nor 5, `flows`
    // not with 4.
    ensures finishes { (command : rules.Command)
        → command_of (map string_bytes words.now) ≡ Some command
        → SearchCanFinish (F.state shelf.old).held command → IsNotStopped result }
    // If `check` ends with status 0, its files give a valid problem and a claim that is best. The
    // network of the claim is a clash-free solution structure with flows of its cost, and none
    // costs less. Or none has flows.
    ensures accepted { (file : List ℕ) (tree : List ℕ)
        → command_of (map string_bytes words.now) ≡ Some (rules.Checking file tree)
        → result ≡ Status.Done → FilesClaimBest (F.state shelf.old).held file tree }
    // If `rankcheck` ends with status 0, its files give a valid problem and a list of alternatives
    // that is right, or a ranking. No flows for the units of a network of that cost less than it.
    // No other clash-free solution structure costs less than its last one; if fewer are listed than
    // were asked for, no other has flows.
    ensures ranked { (file : List ℕ) (rank : List ℕ)
        → command_of (map string_bytes words.now) ≡ Some (rules.RankChecking file rank)
        → result ≡ Status.Done → FilesListBest (F.state shelf.old).held file rank }
{
    accepted_is_best();
    accepted_are_best();
    parts_are_read_once();
    let status = run(alloc, words, shelf, out, watch);
    note_fault(out, status);
    status
}
