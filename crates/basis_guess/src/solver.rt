//! The two systems of a basis.
use crate::fractions::{Value, ZERO, common_denominator};
use crate::numbering::Numbering;
use crate::system::System;
use crate::{Column, Ends, Numbers, Standing, Variable};
use charges::Node;
use std::alloc::{AllocError, Global};

/// Room for the exact solution of one basis after the other.
#[derive(Drop)]
pub struct Solver {
    system: System,
    // The basic sizes, and the balances that are at an end.
    units: Numbering,
    materials: Numbering,
    standings: Vec<Standing>,
    // Which units are basic, and then which the node's program has; and which rows it has.
    has_unit: Vec<bool>,
    has_row: Vec<bool>,
    size_values: Vec<Value>,
    multiplier_values: Vec<Value>,
    sizes: Vec<i128>,
    d: i128,
    multipliers: Vec<i128>,
    scale: i128,
}

/// The end at which a variable is.
fn end_of(ends: Ends, at_high: bool) -> i128 {
    if at_high { ends.high } else { ends.low }
}

/// The end of a balance. That of a material that no unit of the node has is 0, and its range takes
/// that in.
fn balance_end(numbers: &Numbers, material: usize, standing: Standing, at_high: bool) -> i128 {
    let end = end_of(numbers.balance_ends(material, standing), at_high);
    match standing {
        Standing::Apart if at_high => end.max(0),
        Standing::Apart => end.min(0),
        _ => end,
    }
}

/// Writes the values that count over their least common denominator, which it gives.
fn bring_over(values: &[Value], counts: &[bool], list: &mut Vec<i128>) -> Option<i128> {
    let d = common_denominator(values)?;
    list.clear();
    for (value, is_counted) in values.iter().zip(counts) {
        if *is_counted {
            let number = value.over(d)?;
            if list.push(number).is_err() {
                return None;
            }
        }
    }
    Some(d)
}

/// Puts the rates of the basic units into the equations of the materials; or, `across`, the rates
/// of these materials into the equations of the units.
fn put_rates(
    system: &mut System,
    numbers: &Numbers,
    units: &Numbering,
    materials: &Numbering,
    across: bool,
) -> bool {
    for (p, unit) in units.items().iter().enumerate() {
        for rate in numbers.rates(*unit) {
            if let Some(q) = materials.place(rate.material) {
                let (equation, unknown) = if across { (p, q) } else { (q, p) };
                if !system.put(equation, unknown, rate.rate as i128) {
                    return false;
                }
            }
        }
    }
    true
}

/// Takes what a unit makes at this size from the right sides of the materials.
fn take_unit(
    system: &mut System,
    numbers: &Numbers,
    materials: &Numbering,
    unit: usize,
    size: i128,
) -> bool {
    if size == 0 {
        return true;
    }
    for rate in numbers.rates(unit) {
        if let Some(q) = materials.place(rate.material) {
            if !system.add_right(q, rate.rate.wrapping_neg(), size) {
                return false;
            }
        }
    }
    true
}

/// Writes the values of a solved system at the units or materials that are its unknowns.
fn read_values(system: &System, unknowns: &Numbering, values: &mut [Value]) -> bool {
    for r in 0..unknowns.count() {
        let Some((unknown, found)) = system.value(r) else {
            return false;
        };
        let Some(item) = unknowns.item(unknown) else {
            return false;
        };
        if let Some(value) = values.get_mut(item) {
            *value = found;
        }
    }
    true
}

impl Solver {
    /// Makes room for problems with at most so many units and materials. `Err` comes only when
    /// memory runs out.
    pub fn open(alloc: Global, units: u32, materials: u32) -> Result<Solver, AllocError> {
        let (width, height) = (units as usize, materials as usize);
        Ok(Solver {
            system: System::open(alloc, width)?,
            units: Numbering::open(alloc, width)?,
            materials: Numbering::open(alloc, height)?,
            standings: vec![in alloc; Standing::Apart; height]?,
            has_unit: vec![in alloc; false; width]?,
            has_row: vec![in alloc; false; height]?,
            size_values: vec![in alloc; ZERO; width]?,
            multiplier_values: vec![in alloc; ZERO; height]?,
            sizes: Vec::with_capacity(alloc, width)?,
            d: 1,
            multipliers: Vec::with_capacity(alloc, height)?,
            scale: 1,
        })
    }

    /// Solves the basis that has these columns outside, at the node, and keeps sizes and
    /// multipliers. `false` if a number leaves 128 bits, or if the basis is none: what is kept is
    /// then of no use. It takes no memory.
    pub fn solve(&mut self, numbers: &Numbers, columns: &[Column], node: &Node) -> bool {
        self.find_sizes(numbers, columns, node)
            && self.solve_multipliers(numbers, node)
            && self.bring_multipliers()
    }

    /// Solves the sizes of the basis alone, and keeps them; multipliers may be longer than they
    /// are. Otherwise it is as `solve`.
    pub fn find_sizes(&mut self, numbers: &Numbers, columns: &[Column], node: &Node) -> bool {
        numbers.stand(node, &mut self.standings);
        for (has_row, standing) in self.has_row.iter_mut().zip(&self.standings) {
            *has_row = *standing != Standing::Apart;
        }
        self.number(columns) && self.solve_sizes(numbers, columns, node) && self.bring_sizes(node)
    }

    /// The scaled sizes of the units of the node's program, in rising order, over `d`.
    pub fn sizes(&self) -> &[i128] {
        &self.sizes
    }

    /// The least common denominator of the sizes.
    pub fn d(&self) -> i128 {
        self.d
    }

    /// The scaled multipliers of the rows of the node's program, in rising order, over `scale`.
    pub fn multipliers(&self) -> &[i128] {
        &self.multipliers
    }

    /// The least common denominator of the multipliers.
    pub fn scale(&self) -> i128 {
        self.scale
    }

    /// Numbers the basic units, and the materials whose balances are at an end. There have to be as
    /// many of the one as of the other.
    fn number(&mut self, columns: &[Column]) -> bool {
        self.units.clear();
        self.materials.clear();
        for is_basic in self.has_unit.iter_mut() {
            *is_basic = true;
        }
        for column in columns {
            match column.variable {
                Variable::Size(unit) => {
                    if let Some(is_basic) = self.has_unit.get_mut(unit) {
                        *is_basic = false;
                    }
                }
                Variable::Balance(material) => {
                    if !self.materials.add(material) {
                        return false;
                    }
                }
            }
        }
        for (unit, is_basic) in self.has_unit.iter().enumerate() {
            if *is_basic && !self.units.add(unit) {
                return false;
            }
        }
        self.units.count() == self.materials.count()
    }

    /// The equations of the materials, in the basic sizes.
    fn solve_sizes(&mut self, numbers: &Numbers, columns: &[Column], node: &Node) -> bool {
        if !self.system.clear(self.units.count()) {
            return false;
        }
        for column in columns {
            if !self.put_end(numbers, *column, node) {
                return false;
            }
        }
        put_rates(
            &mut self.system,
            numbers,
            &self.units,
            &self.materials,
            false,
        ) && self.system.solve()
            && read_values(&self.system, &self.units, &mut self.size_values)
    }

    /// Puts the end of a column into the right sides.
    fn put_end(&mut self, numbers: &Numbers, column: Column, node: &Node) -> bool {
        match column.variable {
            Variable::Size(unit) => {
                let end = end_of(numbers.size_ends(node, unit), column.at_high);
                if let Some(value) = self.size_values.get_mut(unit) {
                    *value = Value::of(end, 1);
                }
                take_unit(&mut self.system, numbers, &self.materials, unit, end)
            }
            Variable::Balance(material) => {
                let Some(standing) = self.standings.get(material) else {
                    return false;
                };
                let end = balance_end(numbers, material, *standing, column.at_high);
                match self.materials.place(material) {
                    Some(q) => self.system.add_right(q, 1, end),
                    None => false,
                }
            }
        }
    }

    /// The equations of the basic units, in the multipliers of the materials.
    fn solve_multipliers(&mut self, numbers: &Numbers, node: &Node) -> bool {
        if !self.system.clear(self.units.count()) {
            return false;
        }
        for (p, unit) in self.units.items().iter().enumerate() {
            if !self.system.add_right(p, 1, numbers.cost(node, *unit)) {
                return false;
            }
        }
        for value in self.multiplier_values.iter_mut() {
            *value = ZERO;
        }
        put_rates(
            &mut self.system,
            numbers,
            &self.units,
            &self.materials,
            true,
        ) && self.system.solve()
            && read_values(&self.system, &self.materials, &mut self.multiplier_values)
    }

    /// Brings the sizes over their denominator. Those of units that the node's program does not
    /// have are dropped before.
    fn bring_sizes(&mut self, node: &Node) -> bool {
        for (unit, has_unit) in self.has_unit.iter_mut().enumerate() {
            *has_unit = unit < 128 && !node.outside.has(unit as u32);
        }
        drop_others(&mut self.size_values, &self.has_unit);
        let Some(d) = bring_over(&self.size_values, &self.has_unit, &mut self.sizes) else {
            return false;
        };
        self.d = d;
        true
    }

    /// Brings the multipliers over their denominator. Those of materials that are no row of the
    /// node's program are dropped before.
    fn bring_multipliers(&mut self) -> bool {
        drop_others(&mut self.multiplier_values, &self.has_row);
        let Some(scale) = bring_over(
            &self.multiplier_values,
            &self.has_row,
            &mut self.multipliers,
        ) else {
            return false;
        };
        self.scale = scale;
        true
    }
}

/// Makes 0 of the values that do not count.
fn drop_others(values: &mut [Value], counts: &[bool]) {
    for (value, is_counted) in values.iter_mut().zip(counts) {
        if !*is_counted {
            *value = ZERO;
        }
    }
}
