//! A basis in short numbers, as it is noted with a node: one for each variable outside it. The last
//! bit says whether the variable is at its high end, the one before whether it is a balance. The
//! other bits are the number of its unit or material.
use basis_guess::{Column, Variable};
use std::alloc::{AllocError, Global};

// A number of a unit or a material has at most 14 bits.
const MOST: usize = 16_383;

fn code_of(column: &Column) -> u16 {
    let (number, balance) = match column.variable {
        Variable::Size(unit) => (unit, 0u16),
        Variable::Balance(material) => (material, 2u16),
    };
    let end = if column.at_high { 1u16 } else { 0u16 };
    let place = number.min(MOST) as u16;
    place
        .wrapping_mul(4)
        .wrapping_add(balance)
        .wrapping_add(end)
}

/// The column of a number.
pub(crate) fn column_of(code: u16) -> Column {
    let number = (code / 4) as usize;
    let variable = if code % 4 < 2 {
        Variable::Size(number)
    } else {
        Variable::Balance(number)
    };
    Column {
        variable,
        at_high: code % 2 == 1,
    }
}

/// The columns in short numbers.
pub(crate) fn codes_of(alloc: Global, columns: &[Column]) -> Result<Vec<u16>, AllocError> {
    let mut codes = Vec::with_capacity(alloc, columns.len())?;
    for column in columns {
        codes.push(code_of(column))?;
    }
    Ok(codes)
}
