ghost use Rattle.std.specs.Prelude.{◌≡◌, None, Some, Err, IfOk, map, string_bytes};
ghost use Rattle.mb_rx.specs.Words.{asks_nobody, words_of};

use mb_base::WordsFault;
use mb_words::{RxWords, rx_words};
use std::alloc::Global;

/// The values of a program's words, without its own name: those of `rx_words` where the words name no server and no
/// address to listen at, since neither is asked or listened to yet.
///
/// `Refused` exactly where `clap` refuses the words for another cause than want of memory, a value is outside its
/// range, or the words name a server or have the option `--listen`. `Memory` where there is no room for the values.
#[tactic(auto, unfolding(crate::specs::Words::words_of))]
pub fn read_words(alloc: Global, words: &[String]) -> Result<RxWords, WordsFault>
    ensures read { IfOk result (λ values. words_of (map string_bytes words.now) ≡ Some values) }
    ensures refused { result ≡ Err WordsFault.Refused → words_of (map string_bytes words.now) ≡ None }
{
    match rx_words(alloc, words) {
        Ok(values) => {
            if asks_nobody(&values) {
                Ok(values)
            } else {
                Err(WordsFault::Refused)
            }
        }
        Err(fault) => Err(fault),
    }
}

/// Whether values name no server and no address to listen at.
fn asks_nobody(values: &RxWords) -> bool
    ensures { result ≡ asks_nobody values.now }
{
    values.servers.is_empty() && values.listen.is_none()
}
