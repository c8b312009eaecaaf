ghost use Rattle.std.specs.Prelude.{◌≡◌, ◌≢◌, ℕ, ◌<◌, ◌≤◌, true, false, length, slice_index};
ghost use Rattle.mb_decoder.specs.Kept.{IsAmongFirst};

/// Whether one of the first `count` ESIs is this one.
pub(crate) fn has_esi(esis: &[u16], count: usize, esi: u16) -> bool
    requires { count ≤ length esis.now }
    ensures found { result ≡ true → IsAmongFirst esis.now count esi }
    ensures none { result ≡ false → (i : ℕ) → i < count → slice_index esis.now i ≢ esi }
{
    let mut found = false;
    // It goes on once the ESI was found, so that many are looked at in one step of the processor.
    for place in 0..count {
        if esis[place] == esi {
            found = true;
        }
    }
    found
}

/// Whether each of the first `count` ESIs is below `k`.
pub(crate) fn are_below(esis: &[u16], count: usize, k: u16) -> bool
    requires { count ≤ length esis.now }
    ensures { result ≡ true → (i : ℕ) → i < count → slice_index esis.now i < k }
{
    for place in 0..count {
        if esis[place] >= k {
            return false;
        }
    }
    true
}
