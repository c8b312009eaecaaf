ghost use Rattle.std.specs.Prelude.{◌≡◌, IfOk, IsUtf8};
ghost use Rattle.md5.specs.Md5.{md5};
ghost use Rattle.mb_files.specs.Description.{described_by};

use mb_base::{Bytes, Memory};
use mb_geom::{Desc, DescFault, DescParts, Scheme};
use md5::{Digest, Md5};
use std::alloc::Global;

/// How files are cut into symbols and blocks.
#[derive(Clone, Copy, Debug, PartialEq, Eq)]
pub struct Layout {
    /// The bytes of a symbol (T).
    pub symbol: u16,
    /// The FEC scheme and its parameters.
    pub scheme: Scheme,
}

/// The MD5 of bytes (RFC 1321).
fn digest_of(bytes: &[u8]) -> [u8; 16]
    ensures { result ≡ md5 bytes.now }
{
    let mut hasher = Md5::new();
    hasher.update(bytes);
    hasher.finalize()
}

/// The description of the file with these bytes at this location, which is a text in UTF-8. Content and transfer
/// length are the number of the bytes, which are not encoded, and it has their MD5.
///
/// The inner error is that of [`Desc::new`]: the first fault, in the order of [`DescFault`], by which the layout
/// can't describe the file. `Memory` where there is no room for a copy of the location.
#[tactic(auto, unfolding(crate::specs::Description::described_by))]
pub fn describe(
    alloc: Global,
    layout: &Layout,
    location: &[u8],
    bytes: &[u8],
) -> Result<Result<Desc, DescFault>, Memory>
    requires { IsUtf8 location.now }
    ensures { IfOk result (λ described. described ≡ described_by layout.now location.now bytes.now) }
{
    let length = bytes.len() as u64;
    let parts = DescParts {
        location: Bytes::from_vec(location.to_vec(alloc)?),
        content_length: Some(length),
        transfer_length: Some(length),
        encoded: false,
        symbol: Some(layout.symbol),
        scheme: Some(layout.scheme),
        md5: Some(digest_of(bytes)),
    };
    Ok(Desc::new(parts))
}
