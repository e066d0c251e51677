//! The separators of the three kinds of texts: the kernel's command line (`isspace` and
//! `next_arg`), a line of a script, and a list with one separating byte.

ghost use Rattle.std.specs.Prelude.{◌≡◌};

/// The bytes that separate the parts of a text, and whether quotations protect them.
#[derive(Clone, Copy, Debug, PartialEq, Eq)]
pub enum Separators {
    /// The bytes 0x20 and 0x09 to 0x0D, outside quotations. `"` opens and closes a quotation.
    /// 0xA0 doesn't separate.
    CommandLine,
    /// The bytes 0x20, 0x09 and 0x0D. There are no quotations.
    Script,
    /// Only this byte. There are no quotations.
    Byte(u8),
}

impl Separators {
    ghost use Rattle.text_words.specs.Parts.{separates, quotes};

    /// Returns whether the byte separates parts outside quotations.
    pub fn separates(self, byte: u8) -> bool
        ensures { result ≡ separates self byte }
    {
        match self {
            Separators::CommandLine => matches!(byte, b' ' | 0x09..=0x0D),
            Separators::Script => matches!(byte, b' ' | b'\t' | b'\r'),
            Separators::Byte(mark) => byte == mark,
        }
    }

    /// Returns whether the byte opens and closes quotations.
    pub fn quotes(self, byte: u8) -> bool
        ensures { result ≡ quotes self byte }
    {
        match self {
            Separators::CommandLine => byte == b'"',
            Separators::Script | Separators::Byte(_) => false,
        }
    }
}
