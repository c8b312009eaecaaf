ghost use Rattle.mb_lct.specs.Laws.{HeadersAreFound, HeaderFaultsAreFirst, HeadersAreWritten, HeadersAreReadBack, WordsAreFewest, HeadersAreShort};

/// The laws of LCT headers (RFC 3451 section 5.1): a datagram begins with a header exactly where `lct_of`
/// finds it, and each fault comes exactly where it is the first. What `write_lct` writes, followed by its
/// extensions and by anything, is a header that says what was given, is read back, and takes the fewest words
/// for its TOI, 28 bytes at most without its extensions. It does nothing.
pub fn lct_headers_are_read()
    ensures found { HeadersAreFound }
    ensures faults { HeaderFaultsAreFirst }
    ensures written { HeadersAreWritten }
    ensures read_back { HeadersAreReadBack }
    ensures fewest { WordsAreFewest }
    ensures short { HeadersAreShort }
{}
