ghost use Rattle.std.specs.Prelude.{◌≡◌, ℕ, List, ◌++◌, ◌∷◌, [], ◌%◌, ◌≤◌, ◌==◌, if◌then◌else◌, length, take, drop, Some, None, Ok, Err, ◌↔◌, IfOk, IfErr};
ghost use Rattle.mb_alc.specs.Extensions.{IsExtension, front_fault, exts_in, IsExts, IsExtsFault, exts_of, het, instance_id, fti_of, algorithm};

use crate::fault::ExtFault;
use crate::packet::{Exts, Fti};
use mb_base::{be16, be32, be48};
use mb_lct::WORD;

/// The least HET of an extension that is a single word.
const SINGLE_WORD: u8 = 128;

/// HET of EXT_FTI.
pub(crate) const FTI: u8 = 64;

/// HET of EXT_FDT.
pub(crate) const FDT: u8 = 192;

/// HET of EXT_CENC.
pub(crate) const CENC: u8 = 193;

/// HEL of EXT_FTI.
pub(crate) const FTI_WORDS: u8 = 4;

/// The FLUTE version that is spoken (RFC 3926 section 3.4.1).
pub(crate) const FLUTE_VERSION: u8 = 1;

/// The weight of the FLUTE version in its byte.
const VERSION_WEIGHT: u8 = 16;

/// How many FDT Instance IDs there are.
pub(crate) const INSTANCE_IDS: u32 = 1 << 20;

/// The extension at the front of the bytes, which begin at an offset of the area.
fn first_extension(bytes: &[u8], offset: usize) -> Result<&[u8], ExtFault>
    requires { 4 ≤ length bytes.now }
    ensures found { IfOk result (λ extension. IsExtension extension.now × (extension.now ≡ take (length extension.now) bytes.now)) }
    ensures refused { IfErr result (λ fault. front_fault offset bytes.now ≡ Some fault) }
{
    let (het, second) = (bytes[0], bytes[1]);
    let words = if het < SINGLE_WORD { second } else { 1 };
    let size = WORD * usize::from(words);
    if size == 0 {
        return Err(ExtFault::ZeroLength(offset));
    }
    if bytes.len() < size {
        return Err(ExtFault::Overrun(offset));
    }
    if het == FTI && words != FTI_WORDS {
        return Err(ExtFault::FtiLength(offset));
    }
    let version = second / VERSION_WEIGHT;
    if het == FDT && version != FLUTE_VERSION {
        return Err(ExtFault::FluteVersion(version));
    }
    Ok(&bytes[..size])
}

/// The FDT Instance ID, where the extension is EXT_FDT.
fn instance_in(extension: &[u8]) -> Option<u32>
    requires { IsExtension extension.now }
    ensures { result ≡ (if het extension.now == 192 then Some (instance_id extension.now) else None) }
{
    if extension[0] == FDT {
        Some(be32(&extension[..WORD]) % INSTANCE_IDS)
    } else {
        None
    }
}

/// The fields, where the extension is EXT_FTI.
fn fti_in(extension: &[u8]) -> Option<Fti>
    requires { IsExtension extension.now }
    ensures { result ≡ (if het extension.now == 64 then Some (fti_of extension.now) else None) }
{
    if extension[0] != FTI {
        return None;
    }
    let tail = &extension[12..];
    Some(Fti {
        transfer: be48(&extension[2..8]),
        instance: be16(&extension[8..10]),
        symbol: be16(&extension[10..12]),
        tail: [tail[0], tail[1], tail[2], tail[3]],
    })
}

/// The algorithm, where the extension is EXT_CENC.
fn algorithm_in(extension: &[u8]) -> Option<u8>
    requires { IsExtension extension.now }
    ensures { result ≡ (if het extension.now == 193 then Some (algorithm extension.now) else None) }
{
    if extension[0] == CENC {
        Some(extension[1])
    } else {
        None
    }
}

impl Exts {
    /// What extensions say with one more behind them: the first of each kind counts.
    fn with(self, extension: &[u8]) -> Exts
        requires { IsExtension extension.now }
        ensures { (extensions : List (List ℕ)) → self ≡ exts_in extensions → result ≡ exts_in (extensions ++ extension.now ∷ []) }
    {
        Exts {
            fdt: self.fdt.or(instance_in(extension)),
            fti: self.fti.or(fti_in(extension)),
            cenc: self.cenc.or(algorithm_in(extension)),
        }
    }
}

/// What the extensions from the area's start on say, or the first fault.
fn exts_in(area: &[u8]) -> Result<Exts, ExtFault>
    requires { length area.now % 4 ≡ 0 }
    ensures { result ≡ exts_of area.now }
{
    let mut exts = Exts::NONE;
    let mut offset = 0;
    while offset < area.len() {
        let extension = first_extension(&area[offset..], offset)?;
        exts = exts.with(extension);
        offset += extension.len();
    }
    Ok(exts)
}

/// Reads the header extensions that fill an area, whose length is a multiple of four (RFC 3451 section 5.2). The
/// first of each kind counts; other kinds are passed over, EXT_NOP and EXT_AUTH among them.
///
/// The faults, by the first extension that is none, and for it the first that holds:
/// - `ZeroLength`: its length in words is 0.
/// - `Overrun`: it passes the end of the area.
/// - `FtiLength`: it is an EXT_FTI whose length is not four words.
/// - `FluteVersion`: it is an EXT_FDT with another FLUTE version than 1.
pub(crate) fn read_exts(area: &[u8]) -> Result<Exts, ExtFault>
    requires { length area.now % 4 ≡ 0 }
    ensures exact { result ≡ exts_of area.now }
    ensures found { (exts : Exts) → IsExts area.now exts ↔ (result ≡ Ok exts) }
    ensures refused { (fault : ExtFault) → IsExtsFault area.now fault ↔ (result ≡ Err fault) }
{
    exts_in(area)
}
