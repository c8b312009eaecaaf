ghost use Rattle.std.specs.Prelude.{◌≡◌, ℕ, ◌+◌, ◌*◌, ◌^◌, ◌<◌, ◌≤◌, []};
ghost use Rattle.mb_base.specs.Number.{AreBytes};

use crate::parts::{Parts, partition};
use mb_base::Bytes;
use std::error::Error;
use std::fmt;
use std::marker::Model;

/// The most bytes of a file.
const MAX_LENGTH: u64 = 1 << 28;

/// The most blocks of a file.
const MAX_BLOCKS: u64 = 65_536;

/// The most symbols of a block under Compact No-Code.
const NO_CODE_MOST: u64 = 65_536;

/// The fewest symbols of a block under Raptor (RFC 5053 section 5.7).
const RAPTOR_LEAST: u64 = 4;

/// The most symbols of a block under Raptor (RFC 5053 section 5.7).
const RAPTOR_MOST: u64 = 8_192;

/// The bytes of a block's equations that do not depend on its symbols.
const BLOCK_BYTES: u64 = 256;

/// The bits of a word, each of which stands for a symbol in an equation.
const WORD_BITS: u64 = 64;

/// The bytes that all Raptor blocks of a file share, for each word of the largest block.
const SHARED_BYTES: u64 = 2 * 4_224;

/// A FEC scheme and its parameters for one file.
#[derive(Clone, Copy, Debug, PartialEq, Eq)]
pub enum Scheme {
    /// Compact No-Code (RFC 3695): as few blocks as hold the symbols with at most `max_block` each
    /// (RFC 3926 section 5.1.2). A block has 1 to 65,536 symbols.
    NoCode { max_block: u32 },
    /// Raptor (RFC 5053 section 3.2.3): `z` blocks, each of `n` sub-blocks, and symbols aligned to
    /// `al` bytes. A block has 4 to 8,192 symbols.
    Raptor { z: u16, n: u8, al: u8 },
}

/// What an entry of an FDT Instance says of a file, before it is known to make sense.
#[derive(Drop)]
pub struct DescParts {
    /// The file's location, a text in UTF-8.
    pub location: Bytes,
    /// The bytes of the content, if they are given.
    pub content_length: Option<u64>,
    /// The bytes that are carried, if they are given.
    pub transfer_length: Option<u64>,
    /// Whether the content is carried in an encoded form.
    pub encoded: bool,
    /// The bytes of a symbol, if they are given.
    pub symbol: Option<u16>,
    /// The scheme with its parameters, if it is given.
    pub scheme: Option<Scheme>,
    /// The MD5 of the file's bytes, if it is given.
    pub md5: Option<[u8; 16]>,
}

/// Why parts describe no file. Where several reasons hold, the first in this order is given.
#[derive(Clone, Copy, Debug, PartialEq, Eq)]
pub enum DescFault {
    /// The content is encoded.
    Encoded,
    /// Neither length is given.
    NoLength,
    /// Both lengths are given and differ.
    LengthsDiffer,
    /// The file has more than 2^28 bytes.
    TooLong,
    /// The scheme or the symbol length is not given.
    NoScheme,
    /// The symbol length is 0.
    ZeroSymbol,
    /// A parameter of the scheme is 0, the symbol length is no multiple of `al`, or there are more
    /// sub-blocks than units of `al` bytes in a symbol.
    Parameters,
    /// There are more than 65,536 blocks.
    TooManyBlocks,
    /// The first block whose number of symbols is outside its scheme's limits, and that number.
    BlockSize(u16, u32),
}

impl fmt::Display for DescFault {
    fn fmt<W: fmt::Write>(&self, f: &mut fmt::Formatter<W>) -> fmt::Result {
        match self {
            DescFault::Encoded => f.write_str("the content is encoded"),
            DescFault::NoLength => f.write_str("no length is given"),
            DescFault::LengthsDiffer => f.write_str("the two lengths differ"),
            DescFault::TooLong => f.write_str("the file has more than 2^28 bytes"),
            DescFault::NoScheme => f.write_str("the scheme or the symbol length is not given"),
            DescFault::ZeroSymbol => f.write_str("the symbol length is 0"),
            DescFault::Parameters => f.write_str("the scheme's parameters do not fit"),
            DescFault::TooManyBlocks => f.write_str("there are more than 65,536 blocks"),
            DescFault::BlockSize(number, size) => write!(f, "block {number} has {size} symbols"),
        }
    }
}

impl Error for DescFault {}

/// The description of a file that is known to make sense. A contract sees it as a `Description`.
#[derive(Drop)]
pub struct Desc {
    location: Bytes,
    length: u64,
    symbol: u16,
    scheme: Scheme,
    md5: Option<[u8; 16]>,
    /// How the source symbols are divided into blocks, which each packet asks for.
    blocks: Parts,
}

impl Model for Desc {
    ghost use Rattle.std.specs.Prelude.{ℕ};
    ghost use Rattle.mb_geom.specs.Description.{Description, IsDivided};

    ghost Value = { Description };

    ghost view = { λ d. record { location = d.location; length = d.length; symbol = d.symbol; scheme = d.scheme; md5 = d.md5 } };

    ghost invariant = { λ d. IsDivided (record { location = d.location; length = d.length; symbol = d.symbol; scheme = d.scheme; md5 = d.md5 }) d.blocks };
}

impl Scheme {
    ghost use Rattle.std.specs.Prelude.{true, false, not, position, length, sum, IfSome};
    ghost use Rattle.mb_geom.specs.Partition.{ceiling, sizes_of};
    ghost use Rattle.mb_geom.specs.SourceSymbol.{sub_sizes_of};
    ghost use Rattle.mb_geom.specs.Description.{is_no_code, SchemeFits, are_parameters, is_block_size, blocking, equations_of, equations_once};

    /// Whether it is Compact No-Code (RFC 3695), which has no repair symbols.
    pub fn is_no_code(self) -> bool
        ensures { result ≡ is_no_code self }
    {
        match self {
            Scheme::NoCode { .. } => true,
            Scheme::Raptor { .. } => false,
        }
    }

    // Whether symbols of so many bytes can have these parameters.
    fn fits(self, symbol: u16) -> bool
        ensures exact { result ≡ are_parameters symbol self }
        ensures fields { SchemeFits self }
    {
        match self {
            Scheme::NoCode { max_block } => max_block > 0,
            Scheme::Raptor { z, n, al } => {
                let unit = u16::from(al);
                z > 0 && n > 0 && unit > 0 && symbol % unit == 0 && u16::from(n) <= symbol / unit
            }
        }
    }

    // Whether a block may have so many symbols.
    fn allows(self, size: u64) -> bool
        ensures { result ≡ is_block_size self size }
    {
        match self {
            Scheme::NoCode { .. } => size >= 1 && size <= NO_CODE_MOST,
            Scheme::Raptor { .. } => size >= RAPTOR_LEAST && size <= RAPTOR_MOST,
        }
    }

    // How the symbols of a file of so many bytes are divided into blocks.
    fn blocks(self, length: u64, symbol: u16) -> Parts
        requires symbol { 0 < symbol }
        requires parameters { are_parameters symbol self ≡ true }
        ensures exact { result ≡ blocking (ceiling length symbol) self }
        ensures things { result.jl * result.il + result.js * result.is ≡ ceiling length symbol }
        ensures number { result.jl + result.js ≤ length + 2 ^ 16 }
        ensures longer { result.il ≤ length }
        ensures shorter { result.is ≤ result.il }
    {
        let symbols = length.div_ceil(u64::from(symbol));
        match self {
            Scheme::NoCode { max_block } => match symbols.div_ceil(u64::from(max_block)) {
                0 => Parts::NONE,
                blocks => partition(symbols, blocks),
            },
            Scheme::Raptor { z, .. } => partition(symbols, u64::from(z)),
        }
    }

    // How a symbol of so many bytes is divided into sub-symbols of so many bytes each.
    pub(crate) fn sub_symbols(self, symbol: u16) -> Parts
        requires { are_parameters symbol self ≡ true }
        ensures exact { sizes_of result ≡ sub_sizes_of symbol self }
        ensures whole { sum (sizes_of result) ≡ symbol }
        ensures few { result.jl + result.js < 2 ^ 16 }
    {
        match self {
            Scheme::NoCode { .. } => partition(u64::from(symbol), 1),
            Scheme::Raptor { n, al, .. } => {
                let unit = u64::from(al);
                let units = partition(u64::from(symbol) / unit, u64::from(n));
                Parts {
                    il: units.il * unit,
                    is: units.is * unit,
                    ..units
                }
            }
        }
    }

    // The number of the first block that has too few or too many symbols.
    fn bad_block(self, blocks: Parts) -> Option<u64>
        ensures exact { result ≡ position (λ k. not (is_block_size self k)) (sizes_of blocks) }
        ensures within { IfSome result (λ number. number < length (sizes_of blocks)) }
    {
        if blocks.jl > 0 && !self.allows(blocks.il) {
            Some(0)
        } else if blocks.js > 0 && !self.allows(blocks.is) {
            Some(blocks.jl)
        } else {
            None
        }
    }

    // The bytes of the equations of one block of so many symbols.
    fn block_equations(self, size: u64) -> u64
        requires { size ≤ 65536 }
        ensures exact { result ≡ equations_of self size }
        ensures bound { result ≤ 2 ^ 31 }
    {
        let words = size.div_ceil(WORD_BITS);
        match self {
            Scheme::NoCode { .. } => BLOCK_BYTES + 8 * words,
            Scheme::Raptor { .. } => BLOCK_BYTES + 2 * size + 16 * size * words,
        }
    }

    // The bytes that the equations of all blocks share, the largest of which has so many symbols.
    fn shared_equations(self, largest: u64) -> u64
        requires { largest ≤ 65536 }
        ensures exact { result ≡ equations_once self largest }
        ensures bound { result ≤ 2 ^ 24 }
    {
        match self {
            Scheme::NoCode { .. } => 0,
            Scheme::Raptor { .. } => SHARED_BYTES * largest.div_ceil(WORD_BITS),
        }
    }
}

// What the type of the bytes says of each of them, as a clause.
fn are_bytes(bytes: &[u8])
    ensures { AreBytes bytes.now }
{}

impl DescParts {
    ghost use Rattle.std.specs.Prelude.{Some, None, true, take, drop, MatchResult, IfOk, IfSome};
    ghost use Rattle.mb_geom.specs.Description.{description_of, refusals, first_fault, are_parameters, SchemeFits, IsDigest};

    // The length of the file, which is given once, or twice the same.
    fn length(&self) -> Result<u64, DescFault>
        ensures length { IfOk result (λ n. n ≡ (description_of self.now).length) }
        ensures most { IfOk result (λ n. n ≤ 2 ^ 28) }
        ensures refused { MatchResult result (λ n. first_fault (take 4 (refusals self.now)) ≡ None) (λ e. first_fault (take 4 (refusals self.now)) ≡ Some e) }
    {
        if self.encoded {
            return Err(DescFault::Encoded);
        }
        let Some(length) = self.content_length.or(self.transfer_length) else {
            return Err(DescFault::NoLength);
        };
        if self.transfer_length.unwrap_or(length) != length {
            return Err(DescFault::LengthsDiffer);
        }
        if length > MAX_LENGTH {
            return Err(DescFault::TooLong);
        }
        Ok(length)
    }

    // The MD5, if it is given.
    fn digest(&self) -> Option<[u8; 16]>
        ensures exact { result ≡ self.now.md5 }
        ensures bytes { IfSome result IsDigest }
    {
        let md5 = self.md5?;
        are_bytes(&md5);
        Some(md5)
    }

    // The length of a symbol and the scheme, whose parameters fit it.
    fn coding(&self) -> Result<(u16, Scheme), DescFault>
        ensures symbol { IfOk result (λ c. c.0 ≡ (description_of self.now).symbol) }
        ensures scheme { IfOk result (λ c. c.1 ≡ (description_of self.now).scheme) }
        ensures positive { IfOk result (λ c. 0 < c.0) }
        ensures parameters { IfOk result (λ c. are_parameters c.0 c.1 ≡ true) }
        ensures fields { IfOk result (λ c. SchemeFits c.1) }
        ensures refused { MatchResult result (λ c. first_fault (take 3 (drop 4 (refusals self.now))) ≡ None) (λ e. first_fault (take 3 (drop 4 (refusals self.now))) ≡ Some e) }
    {
        let (Some(symbol), Some(scheme)) = (self.symbol, self.scheme) else {
            return Err(DescFault::NoScheme);
        };
        if symbol == 0 {
            return Err(DescFault::ZeroSymbol);
        }
        if !scheme.fits(symbol) {
            return Err(DescFault::Parameters);
        }
        Ok((symbol, scheme))
    }
}

impl Desc {
    ghost use Rattle.std.specs.Prelude.{IsTrue, ◌↔◌, IsUtf8, sum};
    ghost use Rattle.mb_geom.specs.Partition.{sizes_of};
    ghost use Rattle.mb_geom.specs.SourceSymbol.{sub_sizes};
    ghost use Rattle.mb_geom.specs.Description.{IsGood, described, symbols, blocking, block_sizes, block_count, block_size, plain, equations, tail, same_description};

    /// The description that the parts make. A file has at most 2^28 bytes and 65,536 blocks, and each
    /// block as many symbols as its scheme allows.
    ///
    /// # Errors
    ///
    /// The first fault, in the order of [`DescFault`], whose condition the parts meet.
    pub fn new(parts: DescParts) -> Result<Desc, DescFault>
        requires { IsUtf8 parts.location }
        ensures { result ≡ described parts }
    {
        let length = parts.length()?;
        let (symbol, scheme) = parts.coding()?;
        let blocks = scheme.blocks(length, symbol);
        if blocks.count() > MAX_BLOCKS {
            return Err(DescFault::TooManyBlocks);
        }
        if let Some(number) = scheme.bad_block(blocks) {
            let size = blocks.size(number);
            return Err(DescFault::BlockSize(number as u16, size as u32));
        }
        Ok(Desc {
            md5: parts.digest(),
            location: parts.location,
            length,
            symbol,
            scheme,
            blocks,
        })
    }

    /// The file's location, a text in UTF-8.
    pub fn location(&self) -> &[u8]
        ensures { result.now ≡ self.now.location }
    {
        self.location.as_slice()
    }

    /// The file's length in bytes.
    pub fn length(&self) -> u64
        ensures exact { result ≡ self.now.length }
        ensures good { IsGood self.now }
    {
        self.length
    }

    /// The length of a symbol in bytes.
    pub fn symbol(&self) -> u16
        ensures { result ≡ self.now.symbol }
    {
        self.symbol
    }

    /// The FEC scheme and its parameters.
    pub fn scheme(&self) -> Scheme
        ensures { result ≡ self.now.scheme }
    {
        self.scheme
    }

    /// The MD5 of the file's bytes, if it is known.
    pub fn md5(&self) -> Option<[u8; 16]>
        ensures { result ≡ self.now.md5 }
    {
        self.md5
    }

    /// The number of source symbols of the file, in all its blocks.
    pub fn symbols(&self) -> u64
        ensures exact { result ≡ symbols self.now }
        ensures bound { result * self.now.symbol < self.now.length + self.now.symbol }
        ensures whole { self.now.length ≤ result * self.now.symbol }
        ensures most { result ≤ self.now.length }
    {
        self.length.div_ceil(u64::from(self.symbol))
    }

    /// How the source symbols are divided into blocks (RFC 5053 section 5.3.1.2).
    #[tactic(auto, unfolding(crate::specs::Description::block_sizes))]
    pub fn parts(&self) -> Parts
        ensures sizes { sizes_of result ≡ block_sizes self.now }
        ensures exact { result ≡ blocking (symbols self.now) self.now.scheme }
        ensures things { result.jl * result.il + result.js * result.is ≡ symbols self.now }
        ensures few { result.jl * result.il + result.js * result.is ≤ 2 ^ 28 }
        ensures number { result.jl + result.js ≤ 65536 }
        ensures longer { result.il ≤ 65536 }
        ensures shorter { result.is ≤ result.il }
    {
        self.blocks
    }

    // The lengths of the sub-symbols of a symbol, in bytes.
    pub(crate) fn sub_symbols(&self) -> Parts
        ensures exact { sizes_of result ≡ sub_sizes self.now }
        ensures whole { sum (sizes_of result) ≡ self.now.symbol }
        ensures few { result.jl + result.js < 2 ^ 16 }
    {
        self.scheme.sub_symbols(self.symbol)
    }

    /// The number of blocks, at most 65,536 (RFC 5053 section 5.3.1.2). An empty file has none.
    #[tactic(auto, unfolding(crate::specs::Description::block_sizes))]
    pub fn blocks(&self) -> u32
        ensures { result ≡ block_count self.now }
    {
        self.parts().count() as u32
    }

    /// The number of symbols of a block (K of RFC 5053), by the block's number from 0.
    #[tactic(auto, unfolding(crate::specs::Description::block_sizes))]
    pub fn k_of(&self, sbn: u16) -> u32
        requires { sbn < block_count self.now }
        ensures { result ≡ block_size self.now sbn }
    {
        self.parts().size(u64::from(sbn)) as u32
    }

    /// The bytes of all source symbols, the last one filled up to its whole length.
    pub fn plain(&self) -> u64
        ensures exact { result ≡ plain self.now }
        ensures bound { result ≤ 2 ^ 28 + 2 ^ 16 }
    {
        self.symbols() * u64::from(self.symbol)
    }

    /// The bytes that the equations of all blocks take. Under Compact No-Code a block of K symbols takes
    /// 256 bytes and 8 for each 64 symbols begun. Under Raptor it takes 256 bytes, 2 for each symbol and
    /// 16 K for each 64 symbols begun, and all blocks share 2 * 4,224 bytes for each 64 symbols begun of
    /// the largest.
    #[tactic(auto, unfolding(crate::specs::Description::block_sizes))]
    pub fn equations(&self) -> u64
        ensures exact { result ≡ equations self.now }
        ensures bound { result ≤ 2 ^ 48 }
    {
        let parts = self.parts();
        parts.jl * self.scheme.block_equations(parts.il)
            + parts.js * self.scheme.block_equations(parts.is)
            + self.scheme.shared_equations(parts.il)
    }

    /// The bytes of the file in its last symbol, from 1 to the length of a symbol.
    pub fn tail(&self) -> u16
        requires { 0 < self.now.length }
        ensures { result ≡ tail self.now }
    {
        (self.length - (self.symbols() - 1) * u64::from(self.symbol)) as u16
    }

    /// Whether two descriptions are equal in every part.
    #[tactic(auto, unfolding(crate::specs::Description::same_description))]
    pub fn is_same(&self, other: &Desc) -> bool
        ensures same { IsTrue result ↔ (self.now ≡ other.now) }
        ensures exact { result ≡ same_description self.now other.now }
    {
        self.location() == other.location()
            && self.length == other.length
            && self.symbol == other.symbol
            && self.scheme == other.scheme
            && self.md5 == other.md5
    }
}

// Several workers read a description at once, so it is checked here that it can be sent and shared.
fn is_shared<T: Send + Sync>(_value: &T) {}

fn desc_is_shared(desc: &Desc) {
    is_shared(desc);
}

#[cfg(test)]
mod tests {
    use super::*;

    const NO_CODE: Scheme = Scheme::NoCode { max_block: 4 };

    const ONES: Scheme = Scheme::NoCode { max_block: 1 };

    const NO_BLOCK: Scheme = Scheme::NoCode { max_block: 0 };

    fn raptor(z: u16, n: u8) -> Option<Scheme> {
        Some(Scheme::Raptor { z, n, al: 4 })
    }

    fn parts(
        rt: &HostRuntime,
        length: Option<u64>,
        symbol: Option<u16>,
        scheme: Option<Scheme>,
    ) -> DescParts
        ensures { result.location ≡ [] }
    {
        DescParts {
            location: Bytes::from_vec(Vec::new(rt.alloc())),
            content_length: length,
            transfer_length: None,
            encoded: false,
            symbol,
            scheme,
            md5: None,
        }
    }

    #[test]
    fn partitions_longer_parts_first(rt: HostRuntime) {
        let rows = [
            (10, 3, (4, 3, 1, 2)),
            (12, 3, (4, 4, 0, 3)),
            (2, 5, (1, 0, 2, 3)),
        ];
        for (things, count, want) in rows {
            let parts = partition(things, count);
            assert_eq!(rt;
                (parts.il, parts.is, parts.jl, parts.js),
                want,
                "{things} by {count}"
            );
        }
    }

    #[test]
    fn refuses_lengths(rt: HostRuntime) {
        let rows = [
            (true, None, None, DescFault::Encoded),
            (false, None, None, DescFault::NoLength),
            (false, Some(12), Some(13), DescFault::LengthsDiffer),
            (false, Some(MAX_LENGTH + 1), None, DescFault::TooLong),
            (false, None, Some(12), DescFault::NoScheme),
        ];
        for (encoded, content_length, transfer_length, want) in rows {
            let mut parts = parts(&rt, content_length, None, None);
            parts.encoded = encoded;
            parts.transfer_length = transfer_length;
            assert_eq!(rt; Desc::new(parts).err(), Some(want));
        }
    }

    #[test]
    fn refuses_schemes_and_blocks(rt: HostRuntime) {
        let rows = [
            (12, None, Some(NO_CODE), DescFault::NoScheme),
            (12, Some(0), None, DescFault::NoScheme),
            (12, Some(0), Some(NO_BLOCK), DescFault::ZeroSymbol),
            (12, Some(4), Some(NO_BLOCK), DescFault::Parameters),
            (12, Some(4), raptor(0, 1), DescFault::Parameters),
            (12, Some(6), raptor(1, 1), DescFault::Parameters),
            (12, Some(4), raptor(1, 2), DescFault::Parameters),
            (65_537, Some(1), Some(ONES), DescFault::TooManyBlocks),
            (12, Some(4), raptor(1, 1), DescFault::BlockSize(0, 3)),
            (28, Some(4), raptor(2, 1), DescFault::BlockSize(1, 3)),
            (0, Some(4), raptor(2, 1), DescFault::BlockSize(0, 0)),
        ];
        for (length, symbol, scheme, want) in rows {
            let parts = parts(&rt, Some(length), symbol, scheme);
            assert_eq!(rt; Desc::new(parts).err(), Some(want));
        }
    }

    #[test]
    fn divides_files_into_blocks(rt: HostRuntime) {
        let rows = [
            (Some(NO_CODE), 38, 4, [4, 3, 3].as_slice(), 40, 792, 2),
            (Some(NO_CODE), 4, 4, [1].as_slice(), 4, 264, 4),
            (raptor(1, 1), 1_600, 16, [100].as_slice(), 1_600, 20_552, 16),
            (raptor(2, 1), 137, 16, [5, 4].as_slice(), 144, 9_122, 9),
        ];
        for (scheme, length, symbol, sizes, plain, equations, tail) in rows {
            let parts = parts(&rt, Some(length), Some(symbol), scheme);
            let desc = Desc::new(parts).expect(&rt, "a good file");
            assert_eq!(rt; desc.blocks() as usize, sizes.len());
            for (sbn, size) in sizes.iter().enumerate() {
                assert_eq!(rt; desc.k_of(sbn as u16), *size, "block {sbn}");
            }
            assert_eq!(rt; (desc.plain(), desc.equations()), (plain, equations));
            assert_eq!(rt;
                desc.scheme().is_no_code(),
                sizes.len() != 2 && length != 1_600
            );
            assert!(rt; desc.length() > 0);
            assert_eq!(rt; desc.tail(), tail);
        }
    }

    #[test]
    fn empty_file_has_no_block(rt: HostRuntime) {
        let parts = parts(&rt, Some(0), Some(4), Some(NO_CODE));
        let desc = Desc::new(parts).expect(&rt, "an empty file");
        assert_eq!(rt; (desc.blocks(), desc.plain(), desc.equations()), (0, 0, 0));
    }

    #[test]
    fn tells_what_it_was_made_of(rt: HostRuntime) {
        let mut given = parts(&rt, Some(38), Some(4), Some(NO_CODE));
        given.md5 = Some([7; 16]);
        let desc = Desc::new(given).expect(&rt, "a good file");
        let other = Desc::new(parts(&rt, Some(38), Some(4), Some(NO_CODE))).expect(
            &rt,
            "a good file",
        );
        assert_eq!(rt;
            (desc.location().len(), desc.length(), desc.symbol()),
            (0, 38, 4)
        );
        assert_eq!(rt; (desc.scheme(), desc.md5()), (NO_CODE, Some([7; 16])));
        assert!(rt; desc.is_same(&desc));
        assert!(rt; !desc.is_same(&other));
    }
}
