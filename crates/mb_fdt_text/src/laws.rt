ghost use Rattle.mb_fdt_text.specs.Laws.{TextsAreRead, FaultsAreFound, FaultsAreShown, NotUtf8IsShown, WrittenIsText, WrittenIsRead, TextsAreWithin};

/// The laws of texts of FDT Instances (RFC 3926 section 3.4.2): bytes are the text of an instance exactly where
/// the reader of `specs/Reader.antt` gives it, and have a fault exactly where it finds that one, which is the fault
/// that their shortest front shows; and the written form of an instance is its text. It does nothing.
pub fn texts_are_read()
    ensures read { TextsAreRead }
    ensures found { FaultsAreFound }
    ensures shown { FaultsAreShown }
    ensures utf8 { NotUtf8IsShown }
    ensures text { WrittenIsText }
    ensures written { WrittenIsRead }
    ensures within { TextsAreWithin }
{}
