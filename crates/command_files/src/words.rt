//! The words of causes, and the lines of what is refused.
ghost use Rattle.std.specs.Prelude.{◌≡◌, IfOk, string_bytes};
ghost use Rattle.studio_words.specs.studio_rules.Lines.{line};
ghost use Rattle.studio_words.specs.studio_rules.Ending.{Ends, Only, OrMemory};
ghost use Rattle.studio_words.specs.studio_rules.declared.status.Status.TheVariants.{Refused};
ghost use Rattle.studio_words.specs.studio_rules.declared.status.Status.TheVariants.{BadClaim};
ghost use Rattle.studio_words.specs.studio_rules.RefusalWords.{why_word, node_line, line_word};
ghost use Rattle.studio_words.specs.studio_rules.RefusalWords.{head_line};

use crate::say::{say, say_memory, tell};
use std::alloc::{AllocError, Global};
use studio_words::{Status, refused};
use tree_reading::{LineWhy, Why};
use tree_text::{Outputs, Sink};

/// The word for a cause.
pub fn why_word(why: Why) -> &'static str
    ensures { result.now ≡ why_word why }
{
    match why {
        Why::Unknown => "unknown",
        Why::Axiom => "axiom",
        Why::Exclusion => "exclusion",
        Why::Flows => "flows",
        Why::Cost => "cost",
        Why::Step => "step",
        Why::Options => "options",
        Why::Open => "open",
        Why::Dead => "dead",
        Why::Clash => "clash",
        Why::Refuted => "refuted",
        Why::Bound => "bound",
        Why::Cover => "some",
        Why::Sum => "sum",
    }
}

fn node_line(alloc: Global, node: u32, why: Why) -> Result<String, AllocError>
    ensures { IfOk result (λ text. string_bytes text ≡ line (node_line node why)) }
{
    let mut text = String::from_str(alloc, "refused node ")?;
    write!(text, "{node}")?;
    text.push(' ')?;
    text.push_str(why_word(why))?;
    text.push('\n')?;
    Ok(text)
}

/// Answers that the node, counted from 0 in preorder, is refused, and why.
pub fn say_node<K: Sink, E: Sink>(
    alloc: Global,
    out: &mut Outputs<K, E>,
    node: u32,
    why: Why,
) -> Status
    ensures { Ends (OrMemory (Only Refused (line (node_line node why)))) out.old out.new result }
{
    match node_line(alloc, node, why) {
        Ok(text) => say(out, text.as_bytes(), Status::Refused),
        Err(_) => say_memory(out),
    }
}

/// Puts on standard error that a command can't go on from a tree, whose node is refused, and why.
pub fn tell_node<K: Sink, E: Sink>(
    alloc: Global,
    out: &mut Outputs<K, E>,
    node: u32,
    why: Why,
) -> Status
    ensures { Ends (OrMemory (Only BadClaim (line (node_line node why)))) out.old out.new result }
{
    let notes = refused(alloc, why);
    match node_line(alloc, node, why) {
        Ok(text) => tell(out, text.as_bytes(), notes.bytes(), Status::BadClaim),
        Err(_) => say_memory(out),
    }
}

/// The word for the cause of a line at the head of a tree.
pub fn line_word(why: LineWhy) -> &'static str
    ensures { result.now ≡ line_word why }
{
    match why {
        LineWhy::Step => "step",
        LineWhy::Fact => "fact",
        LineWhy::Trim => "trim",
        LineWhy::Cover => "some",
        LineWhy::Bound => "bound",
        LineWhy::Sum => "sum",
    }
}

fn head_line(alloc: Global, number: usize, why: LineWhy) -> Result<String, AllocError>
    ensures { IfOk result (λ text. string_bytes text ≡ line (head_line number why)) }
{
    let mut text = String::from_str(alloc, "refused head ")?;
    write!(text, "{number}")?;
    text.push(' ')?;
    text.push_str(line_word(why))?;
    text.push('\n')?;
    Ok(text)
}

/// Answers that the line at the head of a tree, counted from 0, is refused, and why.
pub fn say_head<K: Sink, E: Sink>(
    alloc: Global,
    out: &mut Outputs<K, E>,
    number: usize,
    why: LineWhy,
) -> Status
    ensures { Ends (OrMemory (Only Refused (line (head_line number why)))) out.old out.new result }
{
    match head_line(alloc, number, why) {
        Ok(text) => say(out, text.as_bytes(), Status::Refused),
        Err(_) => say_memory(out),
    }
}
