ghost use Rattle.std.specs.Prelude.{◌≡◌, ℕ, ◌+◌, ◌*◌, ◌^◌, ◌<◌, ◌≤◌, length, sum_by};
ghost use Rattle.mb_file.specs.FileView.{place_bytes, bytes_seen, AreFew};

use crate::blocks::Blocks;
use mb_block::BlockRx;

/// The bytes of a place for a block beside those of the block.
const PLACE_BYTES: u64 = 256;

/// The bytes of a place and of the block that stands there.
fn bytes_at(place: &Option<BlockRx>) -> u64
    ensures exact { result ≡ place_bytes place.now }
    ensures small { result ≤ 2 ^ 33 }
{
    match place {
        Some(block) => {
            let _size = block.size();
            let _symbol = block.symbol();
            let _kept = block.kept();
            PLACE_BYTES + block.buffered()
        }
        None => PLACE_BYTES,
    }
}

/// The bytes of all places and of the blocks that stand there.
fn bytes_of(places: &[Option<BlockRx>]) -> u64
    requires { length places.now ≤ 65536 }
    ensures exact { result ≡ sum_by place_bytes places.now }
    ensures small { result ≤ 2 ^ 49 }
{
    let mut bytes = 0;
    for place in places {
        bytes += bytes_at(place);
    }
    bytes
}

/// The bytes of all blocks.
pub(crate) fn blocks_bytes(blocks: &Blocks) -> u64
    requires { AreFew blocks.now }
    ensures { result ≡ bytes_seen blocks.now }
{
    match blocks {
        Blocks::Nothing => 0,
        Blocks::NoCode(all) => all.buffered(),
        Blocks::Raptor(places) => bytes_of(places),
    }
}
