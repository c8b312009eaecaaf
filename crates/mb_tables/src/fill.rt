ghost use Rattle.std.specs.Prelude.{◌≡◌, ℕ, ◌<◌, ◌≤◌, length, take, IfOk, OnErr};
ghost use Rattle.mb_base.specs.Outside.{HasCause, Loses, EndsAt};

use mb_base::{Failed, Source};

/// Reads until `buf` is full or the source ends, and answers how many bytes were read.
pub(crate) fn fill<S: Source>(src: &mut S, buf: &mut [u8]) -> Result<usize, Failed>
    ensures within { IfOk result (λ n. n ≤ length buf.new) }
    ensures moved { IfOk result (λ n. Loses (S.left src.old) (S.left src.new) (take n buf.new)) }
    ensures end { IfOk result (λ n. n < length buf.new → EndsAt (S.left src.new)) }
    ensures cause { HasCause (S.faults src.old) (S.faults src.new) result }
    ensures same { S.made src.new ≡ S.made src.old }
{
    let mut at = 0;
    while at < buf.len() {
        let count = src.read(&mut buf[at..])?;
        if count == 0 {
            return Ok(at);
        }
        at += count;
    }
    Ok(at)
}
