//! The laws of records, and of messages in a block.

ghost use Rattle.op_records.specs.BlockLaws.{LawMessage, LawMessages, LawOneSpelling};
ghost use Rattle.op_records.specs.Laws.{LawRecords};

/// Bytes are read as records exactly if these may stand in a log and the bytes spell them.
pub fn law_records()
    ensures records { LawRecords }
{}

/// Bytes are read as the messages of a block exactly if a block may have these and the bytes spell them, and no message's spelling is the beginning of
/// another's.
pub fn law_block_messages()
    ensures message { LawMessage }
    ensures messages { LawMessages }
    ensures one_spelling { LawOneSpelling }
{}
