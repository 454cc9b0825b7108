//! Laws of the definitions: which configurations can be printed, that what is printed is read again, and what one subject alone asks for.

ghost use Rattle.stream_config.specs.Laws.{LawPrintable, LawPrintedRead, LawDefault};

/// The texts of each configuration are UTF-8, so that it can be printed.
pub fn law_printable()
    ensures printable { LawPrintable }
{}

/// What is printed of a configuration is read as the same one.
pub fn law_printed_read()
    ensures same { LawPrintedRead }
{}

/// One subject alone asks for the stream of this subject with every default.
pub fn law_default()
    ensures default { LawDefault }
{}
