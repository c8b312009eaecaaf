ghost use Rattle.std.specs.Prelude.{◌≡◌, ◌<◌, ◌≤◌, ◌^◌, length};
ghost use Rattle.mb_rows.specs.Triple as of;

use mb_tables::Row;

/// The modulus of the systematic index.
const Q: u32 = 65_521;

/// What an ESI is turned into: its degree, the step of its walk, and where that begins (RFC 5053 section 5.4.4.4).
#[derive(Clone, Copy, Debug, PartialEq, Eq)]
pub struct Triple {
    /// How many intermediate symbols are taken, at most.
    pub d: u8,
    /// The step of the walk.
    pub a: u16,
    /// Where the walk begins.
    pub b: u16,
}

// Rand[Y, i, m].
fn rand(v0: &[u32], v1: &[u32], y: u16, i: u8, m: u32) -> u32
    requires v0 { length v0.now ≡ 256 }
    requires v1 { length v1.now ≡ 256 }
    requires some { 0 < m }
    ensures value { result ≡ of.rand v0.now v1.now y i m }
    ensures below { result < m }
{
    let low = (usize::from(y) + usize::from(i)) % 256;
    let high = (usize::from(y / 256) + usize::from(i)) % 256;
    (v0[low] ^ v1[high]) % m
}

// Deg[v].
fn degree(v: u32) -> u8
    requires { v < 2 ^ 20 }
    ensures value { result ≡ of.degree v }
    ensures some { 1 ≤ result }
{
    match v {
        0..10_241 => 1,
        10_241..491_582 => 2,
        491_582..712_794 => 3,
        712_794..831_695 => 4,
        831_695..948_446 => 10,
        948_446..1_032_189 => 11,
        _ => 40,
    }
}

// Y of an ESI.
fn seed(j: u16, esi: u16) -> u16
    ensures { result ≡ of.seed j esi }
{
    let a = (53_591 + u64::from(j) * 997) % u64::from(Q);
    let b = 10_267 * (u64::from(j) + 1) % u64::from(Q);
    ((b + u64::from(esi) * a) % u64::from(Q)) as u16
}

/// The triple of an ESI, by V0, V1 and the numbers of its block size.
pub(crate) fn triple_for(v0: &[u32], v1: &[u32], row: Row, esi: u16) -> Triple
    requires v0 { length v0.now ≡ 256 }
    requires v1 { length v1.now ≡ 256 }
    requires lp { 2 ≤ row.lp }
    ensures triple { result ≡ of.triple_for v0.now v1.now row esi }
    ensures degree { 1 ≤ result.d }
    ensures step { 1 ≤ result.a }
    ensures step_below { result.a < row.lp }
    ensures begin { result.b < row.lp }
{
    let y = seed(row.j, esi);
    let v = rand(v0, v1, y, 0, 1 << 20);
    Triple {
        d: degree(v),
        a: 1 + rand(v0, v1, y, 1, u32::from(row.lp) - 1) as u16,
        b: rand(v0, v1, y, 2, u32::from(row.lp)) as u16,
    }
}
