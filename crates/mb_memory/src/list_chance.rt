ghost use Rattle.std.specs.Prelude.{◌≡◌, ℕ, ◌≤◌, Some, drop, vec_len, IsOkAnd};

use mb_outside::{Chance, Memory};

/// Random words from a list: its words in order, and then 0.
#[derive(Drop)]
pub struct ListChance {
    words: Vec<u32>,
    /// Where the words to come begin.
    place: usize,
    ghost within: { place ≤ vec_len words },
}

impl ListChance {
    ghost use Rattle.mb_memory.specs.InMemory.{words_in};

    /// The chance whose words to come are `words`. It is never refused.
    pub fn new(words: Vec<u32>) -> Result<Self, Memory>
        ensures { IsOkAnd result (λ c. words_in c ≡ words.items) }
    {
        Ok(ListChance { words, place: 0 })
    }
}

impl Chance for ListChance {
    ghost use Rattle.std.specs.Prelude.{Some};
    ghost use Rattle.mb_memory.specs.InMemory.{words_in};

    type Made = ();

    ghost made = { λ _. tt };

    ghost words = { λ c. Some (words_in c) };

    ghost faults = { λ _. 0 };

    fn word(&mut self) -> u32 {
        if self.place == self.words.len() {
            return 0;
        }
        let word = self.words[self.place];
        self.place += 1;
        word
    }
}
