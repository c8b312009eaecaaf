ghost use Rattle.std.specs.Prelude.{◌≡◌, ℕ, ◌+◌, ◌<◌, ◌≤◌, List, length, slice_set};
ghost use Rattle.mb_way.specs.Heard.{hear_pairs};
ghost use Rattle.mb_block.specs.Block.{IsBlock};
ghost use Rattle.mb_block.specs.Blocks.{way_at, kept_at, AreWhole};
ghost use Rattle.mb_file.specs.File.{pairs_from};
ghost use Rattle.mb_file.specs.Hearing.{count_of};
ghost use Rattle.mb_way.specs.Way.{Way};
ghost use Rattle.mb_file.specs.FileView.{AreBlocks, HasRoom, AreHeard};

use crate::blocks::Blocks;
use mb_block::{BlockRx, BlocksRx};
use mb_way::Heard;

/// How many symbols are kept more.
fn count_of(heard: Heard) -> u32
    ensures { result ≡ count_of heard }
{
    match heard {
        Heard::Kept => 1,
        Heard::Determined | Heard::OutOfRange => 0,
    }
}

/// Hears so many symbols of a payload in a block of a file under Compact No-Code, and answers how many were kept.
pub(crate) fn hear_in_file(
    file: &mut BlocksRx,
    sbn: u16,
    symbol: u16,
    esi: u16,
    count: usize,
    payload: &[u8],
) -> u32
    requires whole { AreWhole file.old }
    requires block { sbn < length file.old.sizes }
    requires symbol { file.old.symbol ≡ symbol }
    requires within { esi + count ≤ 65536 }
    ensures blocks { file.new ≡ record file.old { kept = slice_set file.old.kept sbn (hear_pairs (way_at file.old sbn) (kept_at file.old sbn) (pairs_from count symbol esi payload.now)) } }
    ensures kept { result + length (kept_at file.old sbn) ≡ length (kept_at file.new sbn) }
    ensures few { result ≤ count }
    ensures whole { AreWhole file.new }
{
    let symbol = usize::from(symbol);
    let mut next = usize::from(esi);
    let mut left = count;
    let mut rest = payload;
    let mut kept = 0;
    while left > 0 {
        let (bytes, others) = rest.split_at(symbol.min(rest.len()));
        kept += count_of(file.hear(sbn, next as u16, bytes));
        rest = others;
        next += 1;
        left -= 1;
    }
    kept
}

/// The same in a block that stands alone.
pub(crate) fn hear_in_block(
    block: &mut BlockRx,
    symbol: u16,
    esi: u16,
    count: usize,
    payload: &[u8],
) -> u32
    requires symbol { block.old.symbol ≡ symbol }
    requires within { esi + count ≤ 65536 }
    ensures block { block.new ≡ record block.old { kept = hear_pairs block.old.way block.old.kept (pairs_from count symbol esi payload.now) } }
    ensures kept { result + length block.old.kept ≡ length block.new.kept }
    ensures few { result ≤ count }
    ensures whole { IsBlock block.new }
{
    let symbol = usize::from(symbol);
    let mut next = usize::from(esi);
    let mut left = count;
    let mut rest = payload;
    let mut kept = 0;
    while left > 0 {
        let (bytes, others) = rest.split_at(symbol.min(rest.len()));
        kept += count_of(block.hear(next as u16, bytes));
        rest = others;
        next += 1;
        left -= 1;
    }
    let _all = block.kept();
    kept
}

/// Hears so many symbols of a payload in a block that has room, and answers how many were kept.
pub(crate) fn hear_run(
    blocks: &mut Blocks,
    sbn: u16,
    symbol: u16,
    esi: u16,
    count: usize,
    payload: &[u8],
) -> u32
    requires room { HasRoom symbol sbn blocks.old }
    requires within { esi + count ≤ 65536 }
    ensures heard { (ways : List Way) → AreBlocks ways symbol blocks.old → AreHeard ways symbol sbn (pairs_from count symbol esi payload.now) result blocks.old blocks.new }
    ensures few { result ≤ count }
{
    match blocks {
        Blocks::Nothing => 0,
        Blocks::NoCode(file) => hear_in_file(file, sbn, symbol, esi, count, payload),
        Blocks::Raptor(places) => match &mut places[usize::from(sbn)] {
            Some(block) => hear_in_block(block, symbol, esi, count, payload),
            None => 0,
        },
    }
}
