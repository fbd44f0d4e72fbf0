//! Laws of the output. Each is a function that does nothing; its contract is the law.
ghost use Rattle.play_text.specs.Law.{IsReadBack};

/// A JSON string for some bytes can be read back: by the grammar of RFC 8259 section 7, which the library `json`
/// defines, it contains each byte as the character with its number.
pub fn read_back_law()
    ensures { IsReadBack }
{}
