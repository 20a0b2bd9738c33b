//! What a line begins with, and the first three lines.
ghost use Rattle.std.specs.Prelude.{◌≡◌, ◌≤◌, IfOk};
ghost use Rattle.tree_reading.specs.View.{line_of};
ghost use Rattle.rank_check.specs.rank_rules.Opened.{begins_by, way_of};
ghost use Rattle.rank_check.specs.rank_rules.Read.{file_type_read, word_read, count_read};
ghost use Rattle.rank_check.specs.rank_rules.Read.{is_distinct};
ghost use Rattle.rank_check.specs.rank_rules.Headed.{is_first_of_ranking};
ghost use Rattle.rank_check.specs.rank_rules.Read.{networks_read};

use rank_check::Naming;
use tree_reading::{Line, first_token, one_count, parts_of};
use tree_text_laws::TreeKind;

/// Whether the line begins with the word.
pub fn begins_by(word: &[u8], line: &Line) -> bool
    ensures { result ≡ begins_by word.now (line_of line.now) }
{
    let (token, _) = first_token(line.text);
    token == word
}

/// Whether it is the first line of a ranking.
pub fn is_first_of_ranking(line: &Line) -> bool
    ensures { result ≡ is_first_of_ranking (line_of line.now) }
{
    line.ended && line.text == b"file_type=PNS_rank_v1".as_slice()
}

/// How the line names a network, if it does. Only a list of alternatives has lines `over`.
pub fn way_of(distinct: bool, line: &Line) -> Option<Naming>
    ensures { result ≡ way_of distinct (line_of line.now) }
{
    if begins_by(b"named", line) {
        Some(Naming::Only)
    } else if distinct && begins_by(b"over", line) {
        Some(Naming::Within)
    } else {
        None
    }
}

/// The first line.
pub fn file_type_line(line: &Line) -> Result<(), TreeKind>
    ensures { result ≡ file_type_read (line_of line.now) }
{
    if line.ended && line.text == b"file_type=PNS_rank_v1".as_slice() {
        Ok(())
    } else {
        Err(TreeKind::FileType)
    }
}

// The one count after the word.
fn word_line(word: &[u8], line: &Line) -> Result<u32, TreeKind>
    ensures { result ≡ word_read word.now (line_of line.now) }
{
    if !parts_of(line).formed {
        return Err(TreeKind::BadLine);
    }
    let (token, fields) = first_token(line.text);
    if token == word {
        one_count(fields)
    } else {
        Err(TreeKind::BadLine)
    }
}

/// How many networks were asked for, at least 1.
pub fn count_line(line: &Line) -> Result<u32, TreeKind>
    ensures value { result ≡ count_read (line_of line.now) }
    ensures some { IfOk result (λ count. 1 ≤ count) }
{
    match word_line(b"count", line) {
        Ok(count) => {
            if 1 <= count {
                Ok(count)
            } else {
                Err(TreeKind::BadNumber)
            }
        }
        Err(kind) => Err(kind),
    }
}

/// Whether the line says that the text is a list of alternatives.
pub fn is_distinct(line: &Line) -> bool
    ensures { result ≡ is_distinct (line_of line.now) }
{
    line.ended && line.text == b"distinct".as_slice()
}

/// How many networks are there, at most the number that was asked for.
pub fn networks_line(count: u32, line: &Line) -> Result<u32, TreeKind>
    ensures value { result ≡ networks_read count (line_of line.now) }
    ensures few { IfOk result (λ k. k ≤ count) }
{
    match word_line(b"networks", line) {
        Ok(k) => {
            if k <= count {
                Ok(k)
            } else {
                Err(TreeKind::BadNumber)
            }
        }
        Err(kind) => Err(kind),
    }
}
