ghost use Rattle.std.specs.Prelude.{◌≡◌, ◌<◌, length, slice_index_or};
ghost use Rattle.mb_way.specs.Way.{NoCode};
ghost use Rattle.mb_file.specs.FileView.{HasWayOf, HasWay};

use crate::blocks::Blocks;
use mb_block::BlockRx;
use mb_way::Ways;

/// Notes that the code of a block is usable, where the block at this place shows it.
fn learn_from(ways: &mut Ways, sbn: u16, place: &Option<BlockRx>)
    requires block { sbn < length ways.old }
    requires way { HasWayOf (slice_index_or ways.old sbn (NoCode 0)) place.now }
    ensures { ways.new ≡ ways.old }
{
    if let Some(block) = place {
        if block.shows_usable() {
            ways.learn(sbn);
        }
    }
}

/// Notes that the code of a block is usable where the block shows it, once so many of its symbols were kept.
pub(crate) fn learn(ways: &mut Ways, blocks: &Blocks, sbn: u16, kept: u32)
    requires block { sbn < length ways.old }
    requires way { HasWay ways.old sbn blocks.now }
    ensures { ways.new ≡ ways.old }
{
    // A block of which nothing more was kept shows nothing new.
    if kept == 0 {
        return;
    }
    match blocks {
        Blocks::Nothing | Blocks::NoCode(_) => {}
        Blocks::Raptor(places) => learn_from(ways, sbn, &places[usize::from(sbn)]),
    }
}
