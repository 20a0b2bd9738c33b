//! Which of several faults is given.
ghost use Rattle.std.specs.Prelude.{◌≡◌, Ok, IfOk};
ghost use Rattle.tree_text_rules.specs.Token.{kind_number, lesser, both};

use tree_text_rules::TreeKind;

fn kind_number(kind: TreeKind) -> u32
    ensures { result ≡ kind_number kind }
{
    match kind {
        TreeKind::FileType => 1,
        TreeKind::BadLine => 2,
        TreeKind::UnknownName => 3,
        TreeKind::BadNumber => 4,
        TreeKind::Order => 5,
        TreeKind::WrongCount => 6,
        TreeKind::MoreNodes => 7,
        TreeKind::FewerNodes => 8,
        TreeKind::AfterEnd => 9,
    }
}

/// The one of two faults with the lesser number.
pub fn lesser(kind: TreeKind, other: TreeKind) -> TreeKind
    ensures { result ≡ lesser kind other }
{
    if kind_number(kind) <= kind_number(other) {
        kind
    } else {
        other
    }
}

/// Both of two values, or the lesser fault.
pub fn both<A: Copy, B: Copy>(
    first: Result<A, TreeKind>,
    second: Result<B, TreeKind>,
) -> Result<(A, B), TreeKind>
    ensures value { result ≡ both first second }
    ensures parts { IfOk result (λ found. (first ≡ Ok found.0) × (second ≡ Ok found.1)) }
{
    match (first, second) {
        (Ok(a), Ok(b)) => Ok((a, b)),
        (Err(kind), Ok(_)) | (Ok(_), Err(kind)) => Err(kind),
        (Err(kind), Err(other)) => Err(lesser(kind, other)),
    }
}
