//! Reading and writing of records undo each other.
ghost use Rattle.logs.specs.RecordLaws.{SessionReadsBack, MessageReadsBack, SessionWasWritten, MessageWasWritten};

/// What was written is read, and what is read was written, for every string of bytes.
pub fn records_read_back()
    ensures session { SessionReadsBack }
    ensures message { MessageReadsBack }
    ensures session_back { SessionWasWritten }
    ensures message_back { MessageWasWritten }
{}
