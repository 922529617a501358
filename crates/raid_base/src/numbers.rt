//! Hosts, bays, rows, and the numbers by which attempts are ordered.
ghost use Rattle.std.specs.Prelude.{◌≡◌, ◌<◌, ◌^◌, ◌↔◌, IfSome, IsNone};
ghost use Rattle.raid_base.specs.Numbers.{least_above, next_number};
ghost use Rattle.raid_base.specs.Least.{IsLeastAbove, IsSpentAbove};

use thiserror::Error;

/// Every number is below this.
pub const NUMBERS_END: u64 = 1 << 62;

/// How many hosts share the numbers.
const HOSTS: u64 = 16;

/// A host, below 16. Host 0 is the operator.
#[derive(Clone, Copy, Debug, Default, PartialEq, Eq)]
pub struct HostNo(pub u8);

/// A bay: the place of one device. It outlives its device.
#[derive(Clone, Copy, Debug, Default, PartialEq, Eq)]
pub struct BayNo(pub u8);

/// A row: one slot on each bay, of the same number on all.
#[derive(Clone, Copy, Debug, Default, PartialEq, Eq)]
pub struct RowNo(pub u16);

/// The id of an attempt, or its place in the serial order: from 1 to 2^62 - 1, and 0 where there was none yet.
///
/// Numbers leave their host when divided by 16, so two hosts never draw the same one (after Lamport 1978).
#[derive(Clone, Copy, Debug, Default, PartialEq, Eq)]
pub struct Number(pub u64);

/// No number is left above this one.
#[derive(Clone, Copy, Debug, PartialEq, Eq, Error)]
#[error("no number is left above {}", seen.0)]
pub struct Spent {
    pub seen: Number,
}

/// The least number above the floor that leaves this host when divided by 16, be it too great or not.
fn least_above(host: u8, floor: u64) -> u64
    requires host { host < 16 }
    requires floor { floor < 2 ^ 62 }
    ensures { result ≡ least_above host floor }
{
    let round = HOSTS * (floor / HOSTS);
    if floor % HOSTS < host as u64 {
        round + host as u64
    } else {
        round + HOSTS + host as u64
    }
}

/// The least number above the floor that leaves this host when divided by 16, or `None` where that is no number any more.
pub fn next_number(host: HostNo, floor: Number) -> Option<Number>
    requires { host.0 < 16 }
    ensures value { result ≡ next_number host floor }
    ensures least { IfSome result (λ n. IsLeastAbove host.0 floor.0 n.0) }
    ensures below { IfSome result (λ n. n.0 < 2 ^ 62) }
    ensures spent { IsNone result ↔ IsSpentAbove host.0 floor.0 }
{
    if floor.0 >= NUMBERS_END {
        return None;
    }
    let next = least_above(host.0, floor.0);
    if next < NUMBERS_END {
        Some(Number(next))
    } else {
        None
    }
}

#[cfg(test)]
mod tests {
    use super::*;

    #[test]
    fn next_numbers(rt: HostRuntime) {
        let cases = [
            (3, 18, Some(19)),
            (3, 19, Some(35)),
            (0, 0, Some(16)),
            (1, 0, Some(1)),
            (15, 0, Some(15)),
            (1, NUMBERS_END - 16, Some(NUMBERS_END - 15)),
            (1, NUMBERS_END - 15, None),
            (0, NUMBERS_END - 16, None),
            (7, u64::MAX, None),
        ];
        for (host, floor, next) in cases {
            if host < 16 {
                assert_eq!(rt; next_number(HostNo(host), Number(floor)), next.map(Number));
            }
        }
    }
}
