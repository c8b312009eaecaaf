ghost use Rattle.std.specs.Prelude.{◌≡◌, ℕ, ◌+◌, ◌<◌, ◌≤◌, IfSome, IfNone};
ghost use Rattle.mb_tables.specs.Limits.{choose, half, IsX, IsH, IsK, IsLeastS, IsL, IsRow, IsOut, IsOddFrom, IsMade};

use crate::Row;

/// X of K source symbols.
fn x_of(k: u16) -> u32
    requires { IsK k }
    ensures x { IsX k result }
    ensures most { result ≤ 129 }
{
    let wanted = 2 * u32::from(k);
    for x in 1..129u32 {
        if wanted <= x * (x - 1) {
            return x;
        }
    }
    129
}

/// In how many ways half of so many half symbols, upwards, can be chosen.
fn ways(h: u16) -> u32
    requires { h ≤ 16 }
    ensures { result ≡ choose h (half h) }
{
    match h {
        0 => 1,
        1 => 1,
        2 => 2,
        3 => 3,
        4 => 6,
        5 => 10,
        6 => 20,
        7 => 35,
        8 => 70,
        9 => 126,
        10 => 252,
        11 => 462,
        12 => 924,
        13 => 1_716,
        14 => 3_432,
        15 => 6_435,
        _ => 12_870,
    }
}

/// H, the half symbols of K + S symbols.
pub fn h_of(symbols: u32) -> u16
    requires { symbols ≤ 12870 }
    ensures h { IsH symbols result }
    ensures most { result ≤ 16 }
{
    for h in 0..16u16 {
        if symbols <= ways(h) {
            return h;
        }
    }
    16
}

/// The fewest LDPC symbols of K source symbols.
fn least_s(k: u16) -> u32
    requires { IsK k }
    ensures fewest { IsLeastS k result }
    ensures most { result ≤ 211 }
{
    (u32::from(k) + 99) / 100 + x_of(k)
}

/// L of K source and S LDPC symbols.
fn l_of(k: u16, s: u16) -> u32
    requires k { IsK k }
    requires s { s ≤ 512 }
    ensures l { IsL k s result }
    ensures most { result ≤ k + s + 16 }
    ensures some { k ≤ result }
{
    let symbols = u32::from(k) + u32::from(s);
    symbols + u32::from(h_of(symbols))
}

/// The first number of the row that is outside its limits, by its place in the row.
pub(crate) fn first_out(row: Row) -> Option<u8>
    ensures good { IfNone result (IsRow row) }
    ensures out { IfSome result (λ field. IsOut field row) }
{
    if row.k < 4 || 8_192 < row.k {
        return Some(0);
    }
    if u32::from(row.s) < least_s(row.k) || 512 < row.s {
        return Some(2);
    }
    let l = l_of(row.k, row.s);
    if u32::from(row.lp) < l || 2 * l <= u32::from(row.lp) {
        return Some(3);
    }
    None
}

/// The least odd number from another one on.
fn odd_from(least: u32) -> u32
    requires { least ≤ 65534 }
    ensures odd { IsOddFrom least result }
    ensures most { result ≤ least + 1 }
{
    least + 1 - least % 2
}

/// The numbers of the row that is made for K and J.
pub(crate) fn made_row(k: u16, j: u16) -> Row
    requires { IsK k }
    ensures made { IsMade k j result }
    ensures row { IsRow result }
{
    let s = odd_from(least_s(k)) as u16;
    let lp = odd_from(l_of(k, s)) as u16;
    Row { k, j, s, lp }
}
