//! Laws of the definitions: which configurations can be printed, and that what is printed is read again.

ghost use Rattle.consumer_config.specs.Laws.{LawPrintable, LawPrintedRead};

/// The texts of each configuration are UTF-8, so that it can be printed.
pub fn law_printable()
    ensures printable { LawPrintable }
{}

/// What is printed of a configuration is read as the same one.
pub fn law_printed_read()
    ensures same { LawPrintedRead }
{}
