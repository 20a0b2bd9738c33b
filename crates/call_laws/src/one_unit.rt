//! The shelf with the plant of one unit, and the words that solve it.
ghost use Rattle.std.specs.Prelude.{◌≡◌, ◌∷◌, [], Some, IfOk, codes, map, string_bytes};
ghost use Rattle.studio.specs.pns_io.NamedFiles.{file_of};
ghost use Rattle.call_laws.specs.OneUnit.{one_unit_text};

use std::alloc::{AllocError, Global};
use studio::MemShelf;

/// The text of the plant.
const PLANT: &str = "file_type=PNS_problem_v1
materials:
A: raw_material, price=2
P: product, flow_rate_lower_bound=0
operating_units:
U: fix_cost=5
material_to_operating_unit_flow_rates:
U: A => P
";

/// The bytes of the text.
fn plant_bytes(alloc: Global) -> Result<Vec<u8>, AllocError>
    ensures { IfOk result (λ bytes. bytes.items ≡ one_unit_text) }
{
    PLANT.as_bytes().to_vec(alloc)
}

/// A shelf in memory that holds the plant as `a.pns`.
pub(crate) fn plant_shelf(alloc: Global) -> Result<MemShelf, AllocError>
    ensures { IfOk result (λ shelf. file_of shelf.files (codes "a.pns") ≡ Some one_unit_text) }
{
    let name = String::from_str(alloc, "a.pns")?;
    let bytes = plant_bytes(alloc)?;
    let mut files = Vec::new(alloc);
    files.push((name, bytes))?;
    Ok(MemShelf::new(files, Vec::new(alloc)))
}

/// The words `solve a.pns 4`.
pub(crate) fn solve_words(alloc: Global) -> Result<Vec<String>, AllocError>
    ensures { IfOk result
        (λ words. map string_bytes words.items ≡ codes "solve" ∷ codes "a.pns" ∷ codes "4" ∷ []) }
{
    let mut words = Vec::new(alloc);
    words.push(String::from_str(alloc, "solve")?)?;
    words.push(String::from_str(alloc, "a.pns")?)?;
    words.push(String::from_str(alloc, "4")?)?;
    Ok(words)
}
