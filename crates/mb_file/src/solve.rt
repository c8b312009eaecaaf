ghost use Rattle.std.specs.Prelude.{◌≡◌, ℕ, ◌+◌, ◌*◌, ◌<◌, ◌≤◌, length, map, IfOk};
ghost use Rattle.std.specs.List.{concat};
ghost use Rattle.mb_geom.specs.Description.{IsGood, block_count, block_size};
ghost use Rattle.mb_geom.specs.SourceSymbol.{joined_file, IsBlockPut};
ghost use Rattle.mb_way.specs.Solution.{sources};
ghost use Rattle.mb_file.specs.FileView.{IsReady, AreReadyAt, AreReady, sources_of, file_from, IsSpace, HasSpace};

use crate::blocks::Blocks;
use mb_base::{Gate, Memory};
use mb_block::BlockRx;
use mb_geom::Desc;
use std::alloc::Global;
use std::thread::Threads;

/// The memory that handing a file out needs.
#[derive(Drop)]
pub(crate) struct Space {
    /// The bytes of the file.
    file: Vec<u8>,
    /// Room for the source symbols of the largest block.
    block: Vec<u8>,
}

/// Bytes that are all zero.
fn zeros(alloc: Global, count: usize) -> Result<Vec<u8>, Memory>
    ensures { IfOk result (λ bytes. length bytes.items ≡ count) }
{
    Ok(vec![in alloc; 0; count]?)
}

/// Space for a file and one of its blocks at a time.
fn space_for(alloc: Global, desc: &Desc) -> Result<Space, Memory>
    ensures { IfOk result (λ s. IsSpace desc.now s.file.items s.block.items) }
{
    let largest = desc.parts().il as usize * usize::from(desc.symbol());
    let file = zeros(alloc, desc.length() as usize)?;
    let block = zeros(alloc, largest)?;
    Ok(Space { file, block })
}

/// The memory that handing out a file of these blocks needs: none under Compact No-Code, where the blocks are the file.
pub(crate) fn take_space(alloc: Global, desc: &Desc, blocks: &Blocks) -> Result<Space, Memory>
    ensures { IfOk result (λ s. HasSpace desc.now blocks.now s.file.items s.block.items) }
{
    match blocks {
        Blocks::Nothing | Blocks::NoCode(_) => Ok(Space {
            file: Vec::new(alloc),
            block: Vec::new(alloc),
        }),
        Blocks::Raptor(_) => space_for(alloc, desc),
    }
}

/// Solves a block and puts its source symbols into the file.
fn put_block<R: Threads + Sync, G: Gate>(
    rt: &R,
    solved: BlockRx,
    desc: &Desc,
    sbn: u16,
    workers: u32,
    gate: &G,
    block: &mut [u8],
    file: &mut [u8],
)
    requires number { sbn < block_count desc.now }
    requires ready { IsReady (block_size desc.now sbn) desc.now.symbol solved }
    requires workers { (1 ≤ workers) × (workers ≤ 64) }
    requires space { IsSpace desc.now file.old block.old }
    ensures put { IsBlockPut desc.now sbn (concat (sources solved.way solved.symbol solved.kept)) file.old file.new }
    ensures space { length block.new ≡ length block.old }
{
    let size = desc.k_of(sbn) as usize * usize::from(desc.symbol());
    let symbols = &mut block[..size];
    solved.solve(rt, workers, gate, symbols);
    desc.put_block(sbn, symbols, file);
}

/// Solves the blocks of a file and puts them into it.
fn put_blocks<R: Threads + Sync, G: Gate>(
    rt: &R,
    mut places: Vec<Option<BlockRx>>,
    desc: &Desc,
    workers: u32,
    gate: &G,
    block: &mut [u8],
    file: &mut [u8],
)
    requires good { IsGood desc.now }
    requires ready { AreReadyAt desc.now places.items }
    requires workers { (1 ≤ workers) × (workers ≤ 64) }
    requires space { IsSpace desc.now file.old block.old }
    ensures { file.new ≡ joined_file desc.now (map sources_of places.items) }
{
    for sbn in 0..desc.blocks() {
        if let Some(solved) = places[sbn as usize].take() {
            put_block(rt, solved, desc, sbn as u16, workers, gate, block, file);
        }
    }
}

/// The file that follows from blocks that are determined.
pub(crate) fn solve<R: Threads + Sync, G: Gate>(
    rt: &R,
    blocks: Blocks,
    desc: &Desc,
    workers: u32,
    gate: &G,
    space: Space,
) -> Vec<u8>
    requires good { IsGood desc.now }
    requires ready { AreReady desc.now blocks }
    requires workers { (1 ≤ workers) × (workers ≤ 64) }
    requires space { HasSpace desc.now blocks space.file.items space.block.items }
    ensures { result.items ≡ file_from desc.now blocks }
{
    let Space {
        mut file,
        mut block,
    } = space;
    match blocks {
        Blocks::Nothing => file,
        Blocks::NoCode(all) => {
            let mut bytes = all.into_bytes();
            bytes.truncate(desc.length() as usize);
            bytes
        }
        Blocks::Raptor(places) => {
            put_blocks(rt, places, desc, workers, gate, &mut block, &mut file);
            file
        }
    }
}
