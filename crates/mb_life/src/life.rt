ghost use Rattle.std.specs.Prelude.{◌≡◌, ℕ, ◌+◌, ◌-◌, ◌<◌, ◌≤◌, ◌^◌, if◌then◌else◌, true, false, length, IfOk, OnOk, OnErr};
ghost use Rattle.md5.specs.Md5.{md5};
ghost use Rattle.mb_geom.specs.Partition.{ceiling};
ghost use Rattle.mb_geom.specs.Description.{plain, equations};
ghost use Rattle.mb_way.specs.Ways.{AreWaysOf};
ghost use Rattle.mb_file.specs.File.{nothing_kept};
ghost use Rattle.mb_life.specs.Life.{start_life, prolong, kept_in, has_digest, is_wrongly_empty, is_ready, missing, held, hand_out};
ghost use Rattle.mb_life.specs.Hearing.{CanHear, hear_payload};
ghost use Rattle.mb_life.specs.Taking.{IsTaken, IsJudged, is_file, settled};

use crate::taken::Taken;
use mb_base::{Bytes, Gate, Memory};
use mb_file::{FileRx, News};
use mb_geom::Desc;
use mb_way::{Codes, Ways};
use md5::{Digest, Md5};
use std::alloc::Global;
use std::marker::Model;
use std::thread::Threads;

/// One TOI under one description, and what was heard of its file. A contract sees the life of the definitions.
#[derive(Drop)]
pub struct Life {
    toi: u128,
    desc: Desc,
    /// The NTP second up to which it stands.
    expires: u64,
    /// Its blocks as far as they were heard, and none once the file was handed out.
    file: FileRx,
    done: bool,
}

impl Model for Life {
    ghost use Rattle.mb_life.specs.Life.{Life};

    ghost Value = { Life };

    ghost use Rattle.mb_life.specs.LifeView.{Stands};

    ghost view = { λ l. record { toi = l.toi; desc = l.desc; expires = l.expires; ways = l.file.ways; kept = l.file.kept; done = l.done } };

    ghost invariant = { λ l. Stands l.desc l.file l.done };
}

/// Whether bytes have this digest, where one is given.
fn has_digest(given: Option<[u8; 16]>, bytes: &[u8]) -> bool
    ensures { result ≡ has_digest given bytes.now }
{
    match given {
        Some(given) => digest_of(bytes) == given,
        None => true,
    }
}

/// The MD5 of bytes (RFC 1321).
fn digest_of(bytes: &[u8]) -> [u8; 16]
    ensures { result ≡ md5 bytes.now }
{
    let mut hasher = Md5::new();
    hasher.update(bytes);
    hasher.finalize()
}

/// Whether an empty file has another digest than that of no bytes.
fn is_wrongly_empty(desc: &Desc) -> bool
    ensures { result ≡ is_wrongly_empty desc.now }
{
    desc.length() == 0 && !has_digest(desc.md5(), &[])
}

/// The file, unless its bytes have another digest than is given.
fn judge(given: Option<[u8; 16]>, location: Bytes, bytes: Vec<u8>) -> Taken
    ensures { IsJudged given location bytes.items result }
{
    if let Some(given) = given {
        let found = digest_of(&bytes);
        if found != given {
            return Taken::Damaged { given, found };
        }
    }
    Taken::File {
        location,
        bytes: Bytes::from_vec(bytes),
    }
}

/// Whether it is the file that was handed out.
fn is_file(taken: &Taken) -> bool
    ensures { result ≡ is_file taken.now }
{
    match taken {
        Taken::File { .. } => true,
        Taken::Damaged { .. } => false,
    }
}

impl Life {
    /// A life of which nothing was heard, whose blocks have these ways. It takes no memory: many lives may be described
    /// whose symbols never come.
    pub fn start(expires: u64, toi: u128, desc: Desc, ways: Ways) -> Life
        requires { AreWaysOf desc ways }
        ensures { result ≡ start_life expires toi desc ways }
    {
        let _length = desc.length();
        let file = FileRx::new(&desc, ways);
        Life {
            toi,
            desc,
            expires,
            file,
            done: false,
        }
    }

    /// Its TOI.
    pub fn toi(&self) -> u128
        ensures { result ≡ self.now.toi }
    {
        self.toi
    }

    /// The description of its file.
    pub fn desc(&self) -> &Desc
        ensures exact { result.now ≡ self.now.desc }
        ensures ways { self.now.done ≡ false → AreWaysOf self.now.desc self.now.ways }
    {
        &self.desc
    }

    /// The NTP second up to which it stands.
    pub fn expires(&self) -> u64
        ensures { result ≡ self.now.expires }
    {
        self.expires
    }

    /// Whether its file was handed out.
    pub fn is_done(&self) -> bool
        ensures { result ≡ self.now.done }
    {
        self.done
    }

    /// Lets it stand up to `expires` at least.
    pub fn prolong(&mut self, expires: u64)
        ensures { self.new ≡ prolong expires self.old }
    {
        self.expires = self.expires.max(expires);
    }

    /// Hears the symbols of a payload in a block, the first of which has this ESI. It takes memory only for the first
    /// symbol of a block or of the file. After `Memory` it is as before.
    pub fn hear(
        &mut self,
        alloc: Global,
        sbn: u16,
        esi: u16,
        payload: &[u8],
    ) -> Result<News, Memory>
        requires { CanHear self.old sbn esi (length payload.now) }
        ensures block { OnOk result (sbn < length self.old.kept) }
        ensures heard { IfOk result (λ n. self.new ≡ hear_payload sbn esi payload.now self.old) }
        ensures kept { IfOk result (λ n. n.kept ≡ length (kept_in sbn self.new) - length (kept_in sbn self.old)) }
        ensures determined { IfOk result (λ n. n.determined ≡ ceiling (length payload.now) self.old.desc.symbol - n.kept) }
        ensures refused { OnErr result (self.new ≡ self.old) }
    {
        self.file.hear(alloc, &self.desc, sbn, esi, payload)
    }

    /// Notes in the codes of its session which codes of its blocks are known to be usable.
    pub fn tell(&self, codes: &mut Codes)
        ensures { codes.new ≡ codes.old }
    {
        self.file.tell(codes);
    }

    /// Notes which codes of its blocks are known to be usable in its session, before its first symbol is heard.
    pub fn learn(&mut self, codes: &Codes)
        ensures { self.new ≡ self.old }
    {
        self.file.learn(codes);
    }

    /// How many symbols of its blocks are not determined. A life that was handed out misses none.
    pub fn missing(&self) -> u64
        ensures { result ≡ missing self.now }
    {
        if self.done {
            return 0;
        }
        self.file.missing()
    }

    /// The bytes of the buffers of its symbols and of their equations.
    pub fn buffered(&self) -> u64
        ensures most { result ≤ (if self.now.done then 0 else plain self.now.desc + equations self.now.desc) }
        ensures least { held self.now ≤ result }
        ensures small { result ≤ 2 ^ 50 }
    {
        if self.done {
            return 0;
        }
        self.file.buffered(&self.desc)
    }

    /// Hands the file out, or finds it damaged, and then keeps nothing. After `Memory` the life is as before. The gate
    /// and the workers are for blocks whose symbols need solving.
    pub fn take<R: Threads + Sync, G: Gate>(
        &mut self,
        rt: &R,
        alloc: Global,
        workers: u32,
        gate: &G,
    ) -> Result<Taken, Memory>
        requires ready { is_ready self.old ≡ true }
        requires workers { (0 < workers) × (workers ≤ 64) }
        ensures taken { IfOk result (IsTaken self.old) }
        ensures left { IfOk result (λ _. self.new ≡ hand_out self.old) }
        ensures refused { OnErr result (self.new ≡ self.old) }
    {
        let location = Bytes::from_vec(Vec::from_slice(alloc, self.desc.location())?);
        let bytes = self.file.take(rt, alloc, &self.desc, workers, gate)?;
        Ok(self.settle(location, bytes))
    }

    /// Judges the bytes that followed from its symbols, none of which is kept any more. Where they are the file, it is
    /// done.
    fn settle(&mut self, location: Bytes, bytes: Vec<u8>) -> Taken
        requires live { self.old.done ≡ false }
        requires kept { self.old.kept ≡ nothing_kept self.old.ways }
        ensures judged { IsJudged self.old.desc.md5 location bytes.items result }
        ensures left { self.new ≡ settled (is_file result) self.old }
    {
        let taken = judge(self.desc.md5(), location, bytes);
        if is_file(&taken) {
            self.file.forget();
            self.done = true;
        }
        taken
    }

    /// Whether each block is complete and the file was not handed out.
    pub fn is_ready(&self) -> bool
        ensures { result ≡ is_ready self.now }
    {
        !self.done && !is_wrongly_empty(&self.desc) && self.file.missing() == 0
    }
}

// Several workers solve blocks of a life at once, so it is checked here that it can be sent and shared.
fn is_shared<T: Send + Sync>(_value: &T) {}

fn life_is_shared(life: &Life) {
    is_shared(life);
}
