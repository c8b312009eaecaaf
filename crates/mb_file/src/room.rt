ghost use Rattle.std.specs.Prelude.{◌≡◌, ℕ, ◌<◌, ◌≤◌, None, length, replicate, slice_index_or, IfOk, OnOk, OnErr};
ghost use Rattle.mb_geom.specs.Description.{IsGood, block_count};
ghost use Rattle.mb_way.specs.Ways.{AreWaysOf};
ghost use Rattle.mb_way.specs.Way.{NoCode};
ghost use Rattle.mb_file.specs.File.{nothing_kept};
ghost use Rattle.mb_file.specs.FileView.{kept_of, kept_seen, AreBlocks, IsPlace, IsThere, HasRoom, AreStarted, IsNothing};

use crate::blocks::Blocks;
use mb_base::Memory;
use mb_block::{BlockRx, BlocksRx};
use mb_geom::{Desc, Scheme};
use mb_way::Ways;
use std::alloc::Global;

/// Places for so many blocks, none of which stands there.
fn no_blocks(alloc: Global, count: u32) -> Result<Vec<Option<BlockRx>>, Memory>
    ensures { IfOk result (λ places. places.items ≡ replicate count None) }
{
    let mut places = Vec::with_capacity(alloc, count as usize)?;
    for _number in 0..count {
        places.push(None)?;
    }
    Ok(places)
}

/// The blocks of a file of which nothing was heard. Under Raptor the blocks themselves take no memory here.
fn start(alloc: Global, desc: &Desc, ways: &Ways) -> Result<Blocks, Memory>
    requires { AreWaysOf desc.now ways.now }
    ensures are { IfOk result (AreBlocks ways.now desc.now.symbol) }
    ensures kept { IfOk result (λ b. kept_seen ways.now b ≡ nothing_kept ways.now) }
    ensures started { IfOk result AreStarted }
{
    match desc.scheme() {
        Scheme::NoCode { .. } => Ok(Blocks::NoCode(BlocksRx::start(alloc, desc)?)),
        Scheme::Raptor { .. } => Ok(Blocks::Raptor(no_blocks(alloc, ways.count())?)),
    }
}

/// Starts the block of a place where none stands there.
fn fill_place(
    alloc: Global,
    place: &mut Option<BlockRx>,
    ways: &Ways,
    sbn: u16,
    symbol: u16,
) -> Result<(), Memory>
    requires block { sbn < length ways.now }
    requires symbol { 0 < symbol }
    requires place { IsPlace (slice_index_or ways.now sbn (NoCode 0)) symbol place.old }
    ensures place { IsPlace (slice_index_or ways.now sbn (NoCode 0)) symbol place.new }
    ensures kept { kept_of place.new ≡ kept_of place.old }
    ensures there { OnOk result (IsThere symbol place.new) }
    ensures refused { OnErr result (place.new ≡ place.old) }
{
    if place.is_none() {
        let block = BlockRx::start(alloc, ways.way(sbn)?, symbol)?;
        let _kept = block.kept();
        *place = Some(block);
    }
    Ok(())
}

/// Makes room for the symbols of a block. After `Memory` the blocks keep what they kept.
pub(crate) fn make_room(
    blocks: &mut Blocks,
    alloc: Global,
    desc: &Desc,
    ways: &Ways,
    sbn: u16,
) -> Result<(), Memory>
    requires good { IsGood desc.now }
    requires ways { AreWaysOf desc.now ways.now }
    requires block { sbn < block_count desc.now }
    requires are { AreBlocks ways.now desc.now.symbol blocks.old }
    ensures are { AreBlocks ways.now desc.now.symbol blocks.new }
    ensures kept { kept_seen ways.now blocks.new ≡ kept_seen ways.now blocks.old }
    ensures room { OnOk result (HasRoom desc.now.symbol sbn blocks.new) }
{
    if is_nothing(blocks) {
        *blocks = start(alloc, desc, ways)?;
    }
    fill_block(blocks, alloc, ways, sbn, desc.symbol())
}

/// Whether no symbol came.
pub(crate) fn is_nothing(blocks: &Blocks) -> bool
    ensures { IsNothing result blocks.now }
{
    match blocks {
        Blocks::Nothing => true,
        Blocks::NoCode(_) | Blocks::Raptor(_) => false,
    }
}

/// Starts a block of a file under Raptor where it does not stand there.
fn fill_block(
    blocks: &mut Blocks,
    alloc: Global,
    ways: &Ways,
    sbn: u16,
    symbol: u16,
) -> Result<(), Memory>
    requires started { AreStarted blocks.old }
    requires block { sbn < length ways.now }
    requires symbol { 0 < symbol }
    requires are { AreBlocks ways.now symbol blocks.old }
    ensures are { AreBlocks ways.now symbol blocks.new }
    ensures kept { kept_seen ways.now blocks.new ≡ kept_seen ways.now blocks.old }
    ensures room { OnOk result (HasRoom symbol sbn blocks.new) }
{
    match blocks {
        Blocks::Nothing | Blocks::NoCode(_) => Ok(()),
        Blocks::Raptor(places) => {
            fill_place(alloc, &mut places[usize::from(sbn)], ways, sbn, symbol)
        }
    }
}
