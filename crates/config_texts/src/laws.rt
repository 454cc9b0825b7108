//! The laws of the texts of configurations.

ghost use Rattle.config_texts.specs.Laws.{LawStreamText, LawConsumerText};

/// A text is read as a configuration exactly if it is that configuration's text.
pub fn law_texts()
    ensures stream { LawStreamText }
    ensures consumer { LawConsumerText }
{}
