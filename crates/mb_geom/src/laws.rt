ghost use Rattle.mb_geom.specs.Description.{GoodAreMade};
ghost use Rattle.mb_geom.specs.SourceSymbol.{SymbolsMakeTheFile, TheFileHasItsSymbols};

/// The law of descriptions: each that [`Desc::new`](crate::Desc::new) makes of parts is good, and each good one comes
/// from parts. It does nothing.
pub fn good_are_made()
    ensures { GoodAreMade }
{}

/// The law of files: the source symbols of a file's blocks, joined sub-block by sub-block (RFC 5053 section 5.3.1.2)
/// and cut at the file's length, are the file. It does nothing.
pub fn symbols_make_the_file()
    ensures { SymbolsMakeTheFile }
{}

/// The law of what is joined: a file that is joined of symbols of each block has these symbols at their places, up to
/// its end. It does nothing.
pub fn the_file_has_its_symbols()
    ensures { TheFileHasItsSymbols }
{}
