//! The words of a call.
ghost use Rattle.std.specs.Prelude.{◌≡◌, ◌∷◌, [], IfOk, map, option_map, string_bytes};
ghost use Rattle.studio_rules.specs.Command.{command_of, form_of, of_file, on_file, with_file};
ghost use Rattle.studio_rules.specs.Command.{made_by, tried_by, ranged_by, ranked_by, page_asked};
ghost use Rattle.studio_rules.specs.Command.{alternatives_by};
ghost use Rattle.studio_rules.specs.Command.{unit_names_of, count_of, seed_of, unit_count_of};
ghost use Rattle.studio_rules.specs.Command.{years_of, rank_count_of, budget_of, kind_of};
ghost use Rattle.studio_rules.specs.Command.{alone, Axioms, Flows, Listing, Migrate, Solving};
ghost use Rattle.studio_rules.specs.Command.{Showing, Planning, Parting, PartingAgainst, Telling};
ghost use Rattle.studio_rules.specs.Command.{RangingAll, DrawingNetwork, scene_of};
ghost use Rattle.studio_rules.specs.Pages.{page_text};
ghost use Rattle.studio_words.specs.View.{command_view};

use crate::file_words::are_both_files;
use crate::merging::merging_of;
use crate::number::number_within;
use crate::unit_names::UnitNames;
use crate::{command_page_on, overview_text, page_on, version_text};
use std::alloc::{AllocError, Global};
use studio_rules::{Scene, SpotKind};

/// A command with its words.
#[derive(Drop)]
pub enum Command<'a> {
    Max(&'a str),
    Axioms(&'a str, UnitNames),
    Flows(&'a str, UnitNames),
    Listing(&'a str, &'a str, u64),
    Linting(&'a str),
    Make(u64, u64),
    Migrate(&'a str, u64),
    Editing(&'a str, &'a str),
    Undoing(&'a str, &'a str),
    Checking(&'a str, &'a str),
    RankChecking(&'a str, &'a str),
    Table(&'a str, &'a str),
    Splitting(&'a str, &'a str),
    Expanding(&'a str, &'a str),
    Drawing(&'a str),
    DrawingNetwork(&'a str, &'a str, Scene),
    Reporting(&'a str, &'a str),
    Json(&'a str, &'a str),
    Ranging(&'a str, &'a str, SpotKind, &'a str, u64),
    RangingAll(&'a str, &'a str, u64),
    Planning(&'a str, &'a str, u64),
    Parting(&'a str, &'a str, &'a str, u64),
    PartingAgainst(&'a str, &'a str, &'a str, u64, &'a str),
    Merging(&'a str, &'a str, &'a [String]),
    Solving(&'a str, u64),
    Showing(&'a str, u64),
    Ranking(&'a str, u64, u64),
    Alternatives(&'a str, u64, u64),
    Trial(u64, u64, u64),
    /// A text of the program itself: help, or the version.
    Telling(&'static [u8]),
}

/// The command that the words are, if they have a form.
pub fn command_of(alloc: Global, words: &[String]) -> Result<Option<Command<'_>>, AllocError>
    ensures { IfOk result
        (λ found. option_map command_view found ≡ command_of (map string_bytes words.now)) }
{
    if let Some(command) = page_asked(words) {
        return Ok(Some(command));
    }
    match merging_of(words) {
        Some(command) => Ok(Some(command)),
        None => form_of(alloc, words),
    }
}

/// The page of the command that the first word is, if the second one asks for it.
fn page_asked(words: &[String]) -> Option<Command<'_>>
    ensures { option_map command_view result ≡ page_asked (map string_bytes words.now) }
{
    if words.len() < 2 {
        return None;
    }
    let next = words[1].as_str();
    if next == "--help" || next == "-h" {
        let page = command_page_on(words[0].as_str())?;
        Some(Command::Telling(page))
    } else {
        None
    }
}

fn form_of(alloc: Global, words: &[String]) -> Result<Option<Command<'_>>, AllocError>
    ensures { IfOk result
        (λ found. option_map command_view found ≡ form_of (map string_bytes words.now)) }
{
    match words {
        [word] => Ok(alone(word.as_str())),
        [word, file] => Ok(of_two(word.as_str(), file.as_str())),
        [word, first, second] => of_three(alloc, word.as_str(), first.as_str(), second.as_str()),
        [word, first, second, third] => Ok(of_four(
            word.as_str(),
            first.as_str(),
            second.as_str(),
            third.as_str(),
        )),
        [word, first, second, third, fourth] => Ok(of_five(
            word.as_str(),
            first.as_str(),
            second.as_str(),
            third.as_str(),
            fourth.as_str(),
        )),
        [word, first, second, third, fourth, fifth] => Ok(of_six(
            word.as_str(),
            first.as_str(),
            second.as_str(),
            third.as_str(),
            fourth.as_str(),
            fifth.as_str(),
        )),
        _ => Ok(None),
    }
}

fn alone<'a>(word: &str) -> Option<Command<'a>>
    ensures { option_map command_view result ≡ alone word.now }
{
    if word == "help" || word == "--help" || word == "-h" {
        Some(Command::Telling(overview_text()))
    } else if word == "version" || word == "--version" || word == "-V" {
        Some(Command::Telling(version_text()))
    } else {
        None
    }
}

fn help_on<'a>(topic: &str) -> Option<Command<'a>>
    ensures { option_map command_view result ≡ option_map Telling (page_text topic.now) }
{
    let page = page_on(topic)?;
    Some(Command::Telling(page))
}

fn of_two<'a>(word: &str, file: &'a str) -> Option<Command<'a>>
    ensures { option_map command_view result ≡ form_of (word.now ∷ file.now ∷ []) }
{
    if word == "help" {
        help_on(file)
    } else if !file.is_empty() {
        of_file(word, file)
    } else {
        None
    }
}

/// The most structures of a listing that does not say how many it wants.
const FIRST_COUNT: u64 = 1_000;

fn of_file<'a>(word: &str, file: &'a str) -> Option<Command<'a>>
    ensures { option_map command_view result ≡ of_file word.now file.now }
{
    match word {
        "max" => Some(Command::Max(file)),
        "graph" => Some(Command::Drawing(file)),
        "lint" => Some(Command::Linting(file)),
        "list" => Some(Command::Listing(file, "start", FIRST_COUNT)),
        "solve" => Some(Command::Solving(file, MOST_NODES)),
        "show" => Some(Command::Showing(file, MOST_NODES)),
        _ => None,
    }
}

fn of_three<'a>(
    alloc: Global,
    word: &str,
    first: &'a str,
    second: &'a str,
) -> Result<Option<Command<'a>>, AllocError>
    ensures { IfOk result
        (λ found. option_map command_view found
        ≡ form_of (word.now ∷ first.now ∷ second.now ∷ [])) }
{
    if word == "make" {
        Ok(made_by(first, second))
    } else if word == "trial" {
        Ok(tried_by(first, second, Some(MOST_NODES)))
    } else if !first.is_empty() {
        on_file(alloc, word, first, second)
    } else {
        Ok(None)
    }
}

/// The most operating units of a problem that is made.
const MOST_UNITS: u64 = 128;

fn unit_count_of(word: &str) -> Option<u64>
    ensures { result ≡ unit_count_of word.now }
{
    number_within(word.as_bytes(), 1, MOST_UNITS)
}

fn seed_of(word: &str) -> Option<u64>
    ensures { result ≡ seed_of word.now }
{
    number_within(word.as_bytes(), 0, u64::MAX)
}

/// The most nodes of a search, and its nodes if no budget is given.
const MOST_NODES: u64 = 1_000_000;

/// What the letters stand for that may end a budget.
const THOUSAND: u64 = 1_000;

const MILLION: u64 = 1_000_000;

fn budget_of(word: &str) -> Option<u64>
    ensures { result ≡ budget_of word.now }
{
    match word.as_bytes() {
        [front @ .., b'k'] => Some(THOUSAND * number_within(front, 1, MOST_NODES / THOUSAND)?),
        [front @ .., b'M'] => Some(MILLION * number_within(front, 1, MOST_NODES / MILLION)?),
        digits => number_within(digits, 1, MOST_NODES),
    }
}

fn made_by<'a>(number: &str, units: &str) -> Option<Command<'a>>
    ensures { option_map command_view result
        ≡ made_by (seed_of number.now) (unit_count_of units.now) }
{
    let number = seed_of(number)?;
    let units = unit_count_of(units)?;
    Some(Command::Make(number, units))
}

fn on_file<'a>(
    alloc: Global,
    word: &str,
    file: &'a str,
    second: &'a str,
) -> Result<Option<Command<'a>>, AllocError>
    ensures { IfOk result
        (λ found. option_map command_view found ≡ on_file word.now file.now second.now) }
{
    if word == "axioms" {
        axioms_of(alloc, file, second)
    } else if word == "flows" {
        flows_of(alloc, file, second)
    } else if word == "migrate" {
        Ok(migrate_of(file, second))
    } else if word == "solve" {
        Ok(solve_of(file, second))
    } else if word == "show" {
        Ok(show_of(file, second))
    } else if word == "rank" {
        Ok(ranked_by(file, second, Some(MOST_NODES)))
    } else if word == "alternatives" {
        Ok(alternatives_by(file, second, Some(MOST_NODES)))
    } else if are_both_files(file, second) {
        Ok(with_file(word, file, second))
    } else {
        Ok(None)
    }
}

/// The most years of a payout period.
const MOST_YEARS: u64 = 100;

fn migrate_of<'a>(file: &'a str, years: &str) -> Option<Command<'a>>
    ensures { option_map command_view result
        ≡ option_map (Migrate file.now) (years_of years.now) }
{
    let years = number_within(years.as_bytes(), 1, MOST_YEARS)?;
    Some(Command::Migrate(file, years))
}

fn solve_of<'a>(file: &'a str, budget: &str) -> Option<Command<'a>>
    ensures { option_map command_view result
        ≡ option_map (Solving file.now) (budget_of budget.now) }
{
    let budget = budget_of(budget)?;
    Some(Command::Solving(file, budget))
}

fn show_of<'a>(file: &'a str, budget: &str) -> Option<Command<'a>>
    ensures { option_map command_view result
        ≡ option_map (Showing file.now) (budget_of budget.now) }
{
    let budget = budget_of(budget)?;
    Some(Command::Showing(file, budget))
}

fn tried_by<'a>(number: &str, units: &str, budget: Option<u64>) -> Option<Command<'a>>
    ensures { option_map command_view result
        ≡ tried_by (seed_of number.now) (unit_count_of units.now) budget }
{
    let number = seed_of(number)?;
    let units = unit_count_of(units)?;
    Some(Command::Trial(number, units, budget?))
}

fn with_file<'a>(word: &str, file: &'a str, second: &'a str) -> Option<Command<'a>>
    ensures { option_map command_view result ≡ with_file word.now file.now second.now }
{
    match word {
        "edit" => Some(Command::Editing(file, second)),
        "undo" => Some(Command::Undoing(file, second)),
        "check" => Some(Command::Checking(file, second)),
        "rankcheck" => Some(Command::RankChecking(file, second)),
        "table" => Some(Command::Table(file, second)),
        "split" => Some(Command::Splitting(file, second)),
        "expand" => Some(Command::Expanding(file, second)),
        "graph" => Some(Command::DrawingNetwork(file, second, Scene::Plant)),
        "report" => Some(Command::Reporting(file, second)),
        "json" => Some(Command::Json(file, second)),
        "periods" => Some(Command::Planning(file, second, MOST_NODES)),
        "stable" => Some(Command::RangingAll(file, second, MOST_NODES)),
        _ => None,
    }
}

fn of_four<'a>(word: &str, first: &'a str, second: &'a str, third: &'a str) -> Option<Command<'a>>
    ensures { option_map command_view result
        ≡ form_of (word.now ∷ first.now ∷ second.now ∷ third.now ∷ []) }
{
    if word == "trial" {
        tried_by(first, second, budget_of(third))
    } else if word == "list" && !first.is_empty() {
        listing_of(first, second, third)
    } else if word == "periods" && are_both_files(first, second) {
        planning_of(first, second, third)
    } else if word == "stable" && are_both_files(first, second) {
        ranging_of(first, second, third)
    } else if word == "graph" && are_both_files(first, second) {
        drawing_of(first, second, third)
    } else if word == "rank" && !first.is_empty() {
        ranked_by(first, second, budget_of(third))
    } else if word == "alternatives" && !first.is_empty() {
        alternatives_by(first, second, budget_of(third))
    } else if word == "part" && !first.is_empty() {
        Some(Command::Parting(first, second, third, MOST_NODES))
    } else {
        None
    }
}

fn of_five<'a>(
    word: &str,
    first: &'a str,
    second: &'a str,
    third: &'a str,
    fourth: &'a str,
) -> Option<Command<'a>>
    ensures { option_map command_view result
        ≡ form_of (word.now ∷ first.now ∷ second.now ∷ third.now ∷ fourth.now ∷ []) }
{
    if word == "part" && !first.is_empty() {
        parting_of(first, second, third, fourth)
    } else if word == "stable" && are_both_files(first, second) {
        ranged_by(first, second, third, fourth, Some(MOST_NODES))
    } else {
        None
    }
}

fn of_six<'a>(
    word: &str,
    first: &'a str,
    second: &'a str,
    third: &'a str,
    fourth: &'a str,
    fifth: &'a str,
) -> Option<Command<'a>>
    ensures { option_map command_view result
        ≡ form_of (word.now ∷ first.now ∷ second.now ∷ third.now ∷ fourth.now ∷ fifth.now ∷ []) }
{
    if word == "part" && are_both_files(first, fifth) {
        parting_against(first, second, third, fourth, fifth)
    } else if word == "stable" && are_both_files(first, second) {
        ranged_by(first, second, third, fourth, budget_of(fifth))
    } else {
        None
    }
}

fn planning_of<'a>(file: &'a str, plan: &'a str, budget: &str) -> Option<Command<'a>>
    ensures { option_map command_view result
        ≡ option_map (Planning file.now plan.now) (budget_of budget.now) }
{
    let budget = budget_of(budget)?;
    Some(Command::Planning(file, plan, budget))
}

fn ranging_of<'a>(file: &'a str, tree: &'a str, budget: &str) -> Option<Command<'a>>
    ensures { option_map command_view result
        ≡ option_map (RangingAll file.now tree.now) (budget_of budget.now) }
{
    let budget = budget_of(budget)?;
    Some(Command::RangingAll(file, tree, budget))
}

fn scene_of(word: &str) -> Option<Scene>
    ensures { result ≡ scene_of word.now }
{
    if word == "network" {
        Some(Scene::Network)
    } else {
        None
    }
}

fn drawing_of<'a>(file: &'a str, tree: &'a str, scene: &str) -> Option<Command<'a>>
    ensures { option_map command_view result
        ≡ option_map (DrawingNetwork file.now tree.now) (scene_of scene.now) }
{
    let scene = scene_of(scene)?;
    Some(Command::DrawingNetwork(file, tree, scene))
}

/// The most networks that one call ranks.
const MOST_RANKED: u64 = 1_000;

fn rank_count_of(word: &str) -> Option<u64>
    ensures { result ≡ rank_count_of word.now }
{
    number_within(word.as_bytes(), 1, MOST_RANKED)
}

fn ranked_by<'a>(file: &'a str, count: &str, budget: Option<u64>) -> Option<Command<'a>>
    ensures { option_map command_view result
        ≡ ranked_by file.now (rank_count_of count.now) budget }
{
    let count = rank_count_of(count)?;
    Some(Command::Ranking(file, count, budget?))
}

fn alternatives_by<'a>(file: &'a str, count: &str, budget: Option<u64>) -> Option<Command<'a>>
    ensures { option_map command_view result
        ≡ alternatives_by file.now (rank_count_of count.now) budget }
{
    let count = rank_count_of(count)?;
    Some(Command::Alternatives(file, count, budget?))
}

fn parting_of<'a>(
    file: &'a str,
    inside: &'a str,
    outside: &'a str,
    budget: &str,
) -> Option<Command<'a>>
    ensures { option_map command_view result
        ≡ option_map (Parting file.now inside.now outside.now) (budget_of budget.now) }
{
    let budget = budget_of(budget)?;
    Some(Command::Parting(file, inside, outside, budget))
}

fn parting_against<'a>(
    file: &'a str,
    inside: &'a str,
    outside: &'a str,
    budget: &str,
    tree: &'a str,
) -> Option<Command<'a>>
    ensures { option_map command_view result
        ≡ option_map (λ n. PartingAgainst file.now inside.now outside.now n tree.now)
        (budget_of budget.now) }
{
    let budget = budget_of(budget)?;
    Some(Command::PartingAgainst(file, inside, outside, budget, tree))
}

fn kind_of(kind: &str) -> Option<SpotKind>
    ensures { result ≡ kind_of kind.now }
{
    if kind == "price" {
        Some(SpotKind::Price)
    } else if kind == "fix" {
        Some(SpotKind::Fix)
    } else if kind == "proportional" {
        Some(SpotKind::Proportional)
    } else {
        None
    }
}

fn ranged_by<'a>(
    file: &'a str,
    tree: &'a str,
    kind: &str,
    name: &'a str,
    budget: Option<u64>,
) -> Option<Command<'a>>
    ensures { option_map command_view result
        ≡ ranged_by file.now tree.now (kind_of kind.now) name.now budget }
{
    let kind = kind_of(kind)?;
    Some(Command::Ranging(file, tree, kind, name, budget?))
}

fn axioms_of<'a>(
    alloc: Global,
    file: &'a str,
    units: &str,
) -> Result<Option<Command<'a>>, AllocError>
    ensures { IfOk result
        (λ found. option_map command_view found
        ≡ option_map (Axioms file.now) (unit_names_of units.now)) }
{
    match UnitNames::read(alloc, units)? {
        Some(units) => Ok(Some(Command::Axioms(file, units))),
        None => Ok(None),
    }
}

fn flows_of<'a>(
    alloc: Global,
    file: &'a str,
    units: &str,
) -> Result<Option<Command<'a>>, AllocError>
    ensures { IfOk result
        (λ found. option_map command_view found
        ≡ option_map (Flows file.now) (unit_names_of units.now)) }
{
    match UnitNames::read(alloc, units)? {
        Some(units) => Ok(Some(Command::Flows(file, units))),
        None => Ok(None),
    }
}

/// The most structures that one call lists.
const MOST_COUNT: u64 = 1_000_000_000;

fn listing_of<'a>(file: &'a str, after: &'a str, count: &str) -> Option<Command<'a>>
    ensures { option_map command_view result
        ≡ option_map (Listing file.now after.now) (count_of count.now) }
{
    let count = number_within(count.as_bytes(), 1, MOST_COUNT)?;
    Some(Command::Listing(file, after, count))
}
