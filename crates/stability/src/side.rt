//! The end of the range on one side of the present value.
ghost use Rattle.std.specs.Prelude.{◌≡◌, ◌+◌, ◌-◌, ◌<◌, ◌≤◌, true, false, IfOk, IfErr};
ghost use Rattle.stability_laws.specs.report_rules.Spot.{value_at};
ghost use Rattle.stability_laws.specs.report_rules.Range.{IsBestAt};
ghost use Rattle.stability.specs.Desk.{IsDesk};
ghost use Rattle.stability.specs.Refusal.{IsRefusal};
ghost use Rattle.stability.specs.Side.{IsBracket, IsSettled, IsEnd};

use crate::case::Case;
use crate::desk::Desk;
use crate::outcome::RangeFault;
use solver::{Network, Watch};
use stability_laws::{Side, best_away, best_between};

/// What is found at a value: a network that is cheaper there, or no answer.
#[derive(Drop)]
pub(crate) enum Beyond {
    Cheaper(Network),
    Wanting(RangeFault),
}

/// The network is optimal so far away, and farther away this was found.
#[derive(Drop)]
pub(crate) struct Bracket {
    good: u64,
    bad: u64,
    beyond: Beyond,
}

/// How far away the range ends, and the network that is cheaper a step beyond; none at the limit of
/// the values.
#[derive(Drop)]
pub(crate) struct End {
    pub(crate) away: u64,
    pub(crate) beyond: Option<Network>,
}

/// The number nearest to a guess between two others.
fn between(guess: u64, low: u64, high: u64) -> u64
    requires { low + 1 < high }
    ensures above { low < result }
    ensures below { result < high }
{
    if guess <= low {
        low + 1
    } else if guess >= high {
        high - 1
    } else {
        guess
    }
}

/// How many binary digits a number has.
fn digits(number: u64) -> u32
    ensures { result ≤ 64 }
{
    64 - number.leading_zeros()
}

/// A number between two others: in the middle by their lengths. It is at most half the greater, if
/// that is above the lesser.
fn middle(low: u64, high: u64) -> u64
    requires { low < high }
{
    let half = high / 2;
    if half <= low {
        return low + (high - low) / 2;
    }
    let shift = (digits(low) + digits(high)) / 2;
    if shift < 63 && (1u64 << shift) < half {
        1u64 << shift
    } else {
        half
    }
}

/// A number between two others on the way out from the lesser: four times it, or half the greater.
fn outwards(low: u64, high: u64) -> u64
    requires { low < high }
{
    if low == 0 && high > 65_536 {
        65_536
    } else if low == 0 {
        middle(low, high)
    } else if low < high / 4 {
        low * 4
    } else {
        high / 2
    }
}

impl Bracket {
    /// Whether this settles the end of the range, or that there is no answer.
    fn is_settled(&self) -> bool
        requires { self.now.good < self.now.bad }
        ensures settled { result ≡ true → IsSettled self.now }
        ensures open { result ≡ false → self.now.good + 1 < self.now.bad }
    {
        match &self.beyond {
            Beyond::Cheaper(_) => self.bad - self.good == 1,
            Beyond::Wanting(RangeFault::Memory) => true,
            Beyond::Wanting(_) => self.bad / 2 <= self.good,
        }
    }
}

impl<'a> Case<'a> {
    /// A guess how far away to look next. If a cheaper network is known, it is the place at which
    /// the lines of the two networks meet. After a spent budget, which costs all of it, it is on
    /// the way out. Else it is in between by length.
    fn guess<W: Watch>(&self, desk: &mut Desk<W>, side: Side, bracket: &Bracket) -> u64
        requires desk { IsDesk self.now desk.old }
        requires is_bracket { IsBracket self.now side bracket.now }
        requires open { bracket.now.good + 1 < bracket.now.bad }
        ensures { IsDesk self.now desk.new }
    {
        match &bracket.beyond {
            Beyond::Cheaper(network) => match self.meeting(desk, side, network) {
                Some(away) => away,
                None => middle(bracket.good, bracket.bad),
            },
            Beyond::Wanting(RangeFault::Spent { .. }) => outwards(bracket.good, bracket.bad),
            Beyond::Wanting(_) => middle(bracket.good, bracket.bad),
        }
    }

    /// Where to look next.
    fn next<W: Watch>(&self, desk: &mut Desk<W>, side: Side, bracket: &Bracket) -> u64
        requires desk { IsDesk self.now desk.old }
        requires is_bracket { IsBracket self.now side bracket.now }
        requires open { bracket.now.good + 1 < bracket.now.bad }
        ensures above { bracket.now.good < result }
        ensures below { result < bracket.now.bad }
        ensures desk { IsDesk self.now desk.new }
    {
        let guess = self.guess(desk, side, bracket);
        between(guess, bracket.good, bracket.bad)
    }

    /// The bracket after one more search.
    fn narrowed<W: Watch>(&self, desk: &mut Desk<W>, side: Side, bracket: Bracket) -> Bracket
        requires desk { IsDesk self.now desk.old }
        requires is_bracket { IsBracket self.now side bracket }
        requires open { bracket.good + 1 < bracket.bad }
        ensures is_bracket { IsBracket self.now side result }
        ensures narrower { result.bad - result.good < bracket.bad - bracket.good }
        ensures desk { IsDesk self.now desk.new }
    {
        let next = self.next(desk, side, &bracket);
        match self.probe_at(desk, side, next) {
            Ok(None) => Bracket {
                good: next,
                bad: bracket.bad,
                beyond: bracket.beyond,
            },
            Ok(Some(network)) => Bracket {
                good: bracket.good,
                bad: next,
                beyond: Beyond::Cheaper(network),
            },
            Err(fault) => Bracket {
                good: bracket.good,
                bad: next,
                beyond: Beyond::Wanting(fault),
            },
        }
    }

    /// What a bracket says of the end of the range.
    fn told(&self, side: Side, bracket: Bracket) -> Result<End, RangeFault>
        requires is_bracket { IsBracket self.now side bracket }
        requires settled { IsSettled bracket }
        ensures end { IfOk result (IsEnd self.now side) }
        ensures refusal { IfErr result
            (IsRefusal self.now.problem self.now.spot self.now.network self.now.budget) }
    {
        best_between();
        let away = bracket.good;
        let beyond = bracket.beyond;
        match beyond {
            Beyond::Cheaper(network) => Ok(End {
                away,
                beyond: Some(network),
            }),
            Beyond::Wanting(fault) => Err(fault),
        }
    }

    fn narrow<W: Watch>(
        &self,
        desk: &mut Desk<W>,
        side: Side,
        bracket: Bracket,
    ) -> Result<End, RangeFault>
        requires desk { IsDesk self.now desk.old }
        requires is_bracket { IsBracket self.now side bracket }
        ensures end { IfOk result (IsEnd self.now side) }
        ensures refusal { IfErr result
            (IsRefusal self.now.problem self.now.spot self.now.network self.now.budget) }
        ensures desk { IsDesk self.now desk.new }
    {
        let mut bracket = bracket;
        'narrowing: loop {
            if bracket.is_settled() {
                return self.told(side, bracket);
            }
            bracket = self.narrowed(desk, side, bracket);
        }
    }

    /// The end of the range on this side, if the network is optimal now. If its cost rises as
    /// little as any can, the range goes to the limit of the values. Else the limit is looked at
    /// first.
    pub(crate) fn end<W: Watch>(&self, desk: &mut Desk<W>, side: Side) -> Result<End, RangeFault>
        requires desk { IsDesk self.now desk.old }
        requires best { IsBestAt self.now.problem self.now.spot self.now.network
            (value_at self.now.problem self.now.spot) }
        ensures end { IfOk result (IsEnd self.now side) }
        ensures refusal { IfErr result
            (IsRefusal self.now.problem self.now.spot self.now.network self.now.budget) }
        ensures desk { IsDesk self.now desk.new }
    {
        best_away();
        self.is_known();
        let room = self.room(side);
        if room == 0 {
            return Ok(End {
                away: 0,
                beyond: None,
            });
        }
        if self.rises_least(desk, side) {
            return Ok(End {
                away: room,
                beyond: None,
            });
        }
        match self.probe_at(desk, side, room) {
            Ok(None) => Ok(End {
                away: room,
                beyond: None,
            }),
            Ok(Some(network)) => self.narrow(
                desk,
                side,
                Bracket {
                    good: 0,
                    bad: room,
                    beyond: Beyond::Cheaper(network),
                },
            ),
            Err(fault) => self.narrow(
                desk,
                side,
                Bracket {
                    good: 0,
                    bad: room,
                    beyond: Beyond::Wanting(fault),
                },
            ),
        }
    }
}
