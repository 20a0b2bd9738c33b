//! The command `list`.
ghost use Rattle.std.specs.Prelude.{◌≡◌, ◌≤◌, ◌<◌, ◌++◌, ◌∷◌, ◌↔◌, [], ℕ, List, Some, IfOk, IfSome};
ghost use Rattle.std.specs.Prelude.{IfNone, OnOk, OnErr, length, codes};
ghost use Rattle.text_lines.specs.number_sets.Sets.{has, IsSet};
ghost use Rattle.std.specs.Io.KnownBytes.{Appends};
ghost use Rattle.text_lines.specs.text_rules.Outside.{HasRisen, AppendsFront};
ghost use Rattle.cert_check.specs.pns_rules.Shape.{shape_of};
ghost use Rattle.cert_check.specs.pns_rules.Tokens.{digit, token_of};
ghost use Rattle.cert_check.specs.structure_list.Rest.{IsToCome};
ghost use Rattle.command_files.specs.studio_rules.Lines.{line};
ghost use Rattle.command_files.specs.studio_rules.Reading.{FileSays};
ghost use Rattle.command_files.specs.studio_rules.Listing.{ListingWork, IsAfter, IsBadToken};
ghost use Rattle.command_files.specs.studio_rules.Listing.{structure_line};
ghost use Rattle.command_files.specs.studio_rules.Listing.{more_line};
ghost use Rattle.structure_commands.specs.Listing.{RestSays};
ghost use Rattle.command_files.specs.studio_rules.Ending.{Ends, Tells, Only, OrMemory};
ghost use Rattle.command_files.specs.studio_rules.Keeps.{Keeps};
ghost use Rattle.command_files.specs.studio_rules.declared.status.Status.TheVariants.{Done};
ghost use Rattle.command_files.specs.studio_rules.declared.status.Status.TheVariants.{BadToken};

use cert_check::{Graph, OpenFault, Problem, StructureList, UnitSet, print_token, read_token};
use command_files::line::push_unit_names;
use command_files::outputs::put_answer;
use command_files::say::{say, say_memory, say_of, tell};
use command_files::{Failed, Outputs, Shelf, Sink, Status, bad_token, problem_of};
use flow_evaluator::Steps;
use std::alloc::{AllocError, Global};
use std::marker::Brand;
use std::sync::ledger::{Blank, Ledger};

// Gives the next structure. It also counts viability tests, which nobody reads.
fn next_counted<L: Ledger>(blank: Blank, list: &mut StructureList<'_>) -> Option<UnitSet>
    requires { (blank.name ≡ L.name) × (blank.parts ≡ L.parts) × (0 < L.parts) }
    ensures head { IfSome result
        (λ r. (xs : List (List ℕ)) → IsToCome list.new xs ↔ IsToCome list.old (r ∷ xs)) }
    ensures end { IfNone result (IsToCome list.old []) }
{
    let mut steps = Steps::<L>::start(blank);
    list.next(&mut steps)
}

fn next(list: &mut StructureList<'_>) -> Option<UnitSet>
    ensures head { IfSome result
        (λ r. (xs : List (List ℕ)) → IsToCome list.new xs ↔ IsToCome list.old (r ∷ xs)) }
    ensures end { IfNone result (IsToCome list.old []) }
{
    next_counted::<Brand>(Blank::new(1), list)
}

// The byte of a hexadecimal digit.
fn digit_of(d: u8) -> u8
    requires { d < 16 }
    ensures { result ≡ digit d }
{
    if d < 10 { b'0' + d } else { b'a' - 10 + d }
}

// Appends the token of the set.
fn push_token(bytes: &mut Vec<u8>, set: UnitSet) -> Result<(), AllocError>
    ensures { OnOk result (bytes.new.items ≡ bytes.old.items ++ token_of set) }
{
    let bits = set.bits();
    for i in 0..32u32 {
        bytes.push(digit_of(((bits >> (124 - 4 * i)) % 16) as u8))?;
    }
    Ok(())
}

// Appends the line of a structure.
fn push_line(bytes: &mut Vec<u8>, problem: &Problem, set: UnitSet) -> Result<(), AllocError>
    requires { length problem.now.units ≤ 128 }
    ensures { OnOk result
        (bytes.new.items ≡ bytes.old.items ++ line (structure_line problem.now set)) }
{
    push_token(bytes, set)?;
    push_unit_names(bytes, problem.units(), set)?;
    bytes.push(b'\n')?;
    Ok(())
}

// Prints that more structures follow the last one given.
fn say_more<K: Sink, E: Sink>(alloc: Global, out: &mut Outputs<K, E>, last: UnitSet) -> Status
    ensures { Ends (OrMemory (Only Done (line (more_line last)))) out.old out.new result }
{
    match print_token(alloc, last) {
        Ok(token) => say_of(alloc, out, "more ", &token, Status::Done),
        Err(_) => say_memory(out),
    }
}

// Prints the lines that wait, so that none waits.
fn put_waiting<K: Sink, E: Sink>(out: &mut Outputs<K, E>, bytes: &mut Vec<u8>) -> Result<(), Failed>
    ensures ok { OnOk result (Appends out.old.out.written out.new.out.written bytes.old.items) }
    ensures none { OnOk result (bytes.new.items ≡ []) }
    ensures err { OnErr result
        (AppendsFront out.old.out.written out.new.out.written bytes.old.items) }
    ensures cause { OnErr result (HasRisen out.old.out.faults out.new.out.faults) }
    ensures later { out.old.out.faults ≤ out.new.out.faults }
    ensures quiet { out.new.err ≡ out.old.err }
{
    if !bytes.is_empty() {
        put_answer(out, bytes)?;
        bytes.clear();
    }
    Ok(())
}

// Prints the lines of the structures that follow, at most `count`, and the last line. The first
// line is printed at once, then two lines together, then four, eight and so on. Lines with 8 KiB
// together do not wait for more.
fn say_rest<K: Sink, E: Sink>(
    alloc: Global,
    out: &mut Outputs<K, E>,
    problem: &Problem,
    list: &mut StructureList<'_>,
    count: u64,
) -> Status
    requires { length problem.now.units ≤ 128 }
    ensures { Ends (Tells (RestSays problem.now count list.old)) out.old out.new result }
{
    let mut bytes = Vec::new(alloc);
    let mut last = UnitSet::empty();
    let mut together = 1u64;
    let mut room = 1u64;
    'giving: for given in 0..count {
        let Some(set) = next(list) else {
            let Ok(()) = put_waiting(out, &mut bytes) else {
                return Status::WriteFault;
            };
            return say(out, b"end\n", Status::Done);
        };
        list.is_one();
        let Ok(()) = push_line(&mut bytes, problem, set) else {
            return say_memory(out);
        };
        last = set;
        room = room.saturating_sub(1);
        if room == 0 || bytes.len() >= 8192 {
            let Ok(()) = put_waiting(out, &mut bytes) else {
                return Status::WriteFault;
            };
            together = together.saturating_mul(2);
            room = together;
        }
    }
    list.is_one();
    let Ok(()) = put_waiting(out, &mut bytes) else {
        return Status::WriteFault;
    };
    let Some(_) = next(list) else {
        return say(out, b"end\n", Status::Done);
    };
    list.is_one();
    say_more(alloc, out, last)
}

// The set of the token, or no set for `start`. There is no answer if the word is neither.
fn after_of(word: &str) -> Option<Option<UnitSet>>
    ensures start { IfSome result (λ after. IfNone after (word.now ≡ codes "start")) }
    ensures token { IfSome result
        (λ after. IfSome after (λ s. IsSet 128 s × (word.now ≡ token_of s))) }
    ensures other { IfNone result
        ((word.now ≡ codes "start" → ⊥) × ((s : List ℕ) → word.now ≡ token_of s → ⊥)) }
{
    if word == "start" {
        return Some(None);
    }
    match read_token(word) {
        Ok(set) => {
            set.rises();
            Some(Some(set))
        }
        Err(_) => None,
    }
}

fn say_bad_token<K: Sink, E: Sink>(alloc: Global, out: &mut Outputs<K, E>, word: &str) -> Status
    ensures { Ends (Only BadToken (line (codes "bad token"))) out.old out.new result }
{
    let notes = bad_token(alloc, word);
    tell(out, b"bad token\n", notes.bytes(), Status::BadToken)
}

fn say_listing<K: Sink, E: Sink>(
    alloc: Global,
    out: &mut Outputs<K, E>,
    problem: &Problem,
    after: &str,
    count: u64,
) -> Status
    ensures { Ends (Tells (ListingWork after.now count problem.now)) out.old out.new result }
{
    let Ok(graph) = Graph::of(alloc, problem) else {
        return say_memory(out);
    };
    graph.is_proper();
    let Some(behind) = after_of(after) else {
        return say_bad_token(alloc, out, after);
    };
    match StructureList::open(alloc, &graph, behind) {
        Ok(mut list) => say_rest(alloc, out, problem, &mut list, count),
        Err(OpenFault::NotAStructure) => say_bad_token(alloc, out, after),
        Err(OpenFault::Memory) => say_memory(out),
    }
}

/// Lists the structures of the file's problem that follow AFTER, at most `count` of them.
pub fn list<F: Shelf, K: Sink, E: Sink>(
    alloc: Global,
    file: &str,
    after: &str,
    count: u64,
    shelf: &mut F,
    out: &mut Outputs<K, E>,
) -> Status
    ensures ends { Ends
        (FileSays (ListingWork after.now count) file.now (F.state shelf.old) (F.state shelf.new))
        out.old out.new result }
    ensures keeps { Keeps (F.state shelf.old) (F.state shelf.new) }
{
    match problem_of(alloc, shelf, out, file) {
        Ok(problem) => say_listing(alloc, out, &problem, after, count),
        Err(status) => status,
    }
}
