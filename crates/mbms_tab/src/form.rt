ghost use Rattle.std.specs.Prelude.{◌≡◌, ◌↔◌, ◌<◌, ⊤, IsTrue, IfSome, IfNone, length, map, string_bytes};
ghost use Rattle.mbms_tab.specs.Forms as form;
ghost use Rattle.mbms_tab.specs.Forms.{IsSizeText, AreSizesAbove, HasNoForm};
ghost use Rattle.mbms_tab.specs.Parts.{HasThisForm};

/// The form of a program's arguments.
#[derive(Clone, Copy)]
pub enum Form<'a> {
    /// What the datagrams of a trace say.
    Show,
    /// Whether tables are usable.
    Check,
    /// Tables that are made for the block sizes of these texts.
    Make(&'a [String]),
}

/// The greatest K of a block (RFC 5053 section 5.4.1.2).
const K_MAX: u32 = 8_192;

/// The form of the arguments, or `None` where they have none.
pub fn form_of<'a>(arguments: &'a [String]) -> Option<Form<'a>>
    ensures form { IfSome result (λ form. HasThisForm form (map string_bytes arguments.now)) }
    ensures none { IfNone result (HasNoForm (map string_bytes arguments.now)) }
{
    let (name, texts) = arguments.split_first()?;
    match name.as_str() {
        "show" if texts.is_empty() => Some(Form::Show),
        "check" if texts.is_empty() => Some(Form::Check),
        "make" if are_sizes(texts) => Some(Form::Make(texts)),
        _ => None,
    }
}

/// Whether the texts are block sizes, one at least, which rise.
fn are_sizes(texts: &[String]) -> bool
    ensures { IsTrue result ↔ (0 < length texts.now) × AreSizesAbove 0 (map string_bytes texts.now) }
{
    let mut low = 0;
    for text in texts {
        match size_of(text.as_str().as_bytes()) {
            Some(k) if low < k => low = k,
            _ => return false,
        }
    }
    !texts.is_empty()
}

/// The block size that a text of decimal digits writes.
pub fn size_of(text: &[u8]) -> Option<u16>
    ensures size { IfSome result (λ k. IsSizeText text.now × (k ≡ form.size_of text.now)) }
    ensures none { IfNone result (IsSizeText text.now → ⊥) }
{
    let mut k = 0u32;
    for byte in text {
        // Digits behind it don't make a number smaller.
        if K_MAX < k {
            return None;
        }
        let Some(digit) = char::from(*byte).to_digit(10) else {
            return None;
        };
        k = 10 * k + digit;
    }
    if k < 4 || K_MAX < k {
        return None;
    }
    Some(k as u16)
}
