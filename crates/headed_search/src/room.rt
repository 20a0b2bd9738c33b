//! Room for a network that is known.
use tree_parts::{Facts, Network, UnitSet};

/// The size of a unit over `d`, or none for a unit that is not in the network.
fn size_of(network: &Network, unit: u32) -> Option<i128> {
    let units = network.units();
    if unit >= 128 || !units.has(unit) {
        return None;
    }
    let place = units.meet(UnitSet::below(unit)).count();
    match network.sizes().get(place as usize) {
        Some(size) => Some(*size),
        None => None,
    }
}

/// A greatest size that the unit has to have, so that there is room for its size over d.
fn room_for(size: i128, d: i128, most: i64) -> Option<i64> {
    if d < 1 {
        return None;
    }
    let whole = size / d;
    let rest = size % d;
    let most = most as i128;
    if whole < most || (whole == most && rest <= 0) {
        return None;
    }
    let more = whole.saturating_add(1);
    if more <= i64::MAX as i128 && more >= 0 {
        Some(more as i64)
    } else {
        None
    }
}

/// The facts with greater sizes of units, if the network needs them. Flows that cost less than the
/// network have room without them, but the network itself may not.
pub(crate) fn with_room(facts: &Facts, network: &Network) -> Facts {
    let mut wider = *facts;
    for unit in 0..128 {
        if let Some(size) = size_of(network, unit) {
            if let Some(most) = room_for(size, network.d(), wider.most_of(unit)) {
                wider = wider.with_most(unit, most);
            }
        }
    }
    wider
}
