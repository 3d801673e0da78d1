//! Laws of all lines, and of the rows of a client. Each function does nothing: its `ensures` is the law.

ghost use Rattle.srcp_info.specs.Laws.{ChangesHaveLines, RepliesHaveLines, LinesDiffer, LinesReadAgain, BytesHoldOnce};
ghost use Rattle.srcp_info.specs.Laws.{ClientRises, ClientFollows};

/// States: the line of a well-formed change has at most 126 bytes. Its last byte is LF, and no other byte is.
pub fn changes_have_lines()
    ensures { ChangesHaveLines }
{}

/// States the same of the line of a well-formed reply, at any moment of 64 bits in milliseconds.
pub fn replies_have_lines()
    ensures { RepliesHaveLines }
{}

/// States that no two well-formed changes share a line.
pub fn lines_differ()
    ensures { LinesDiffer }
{}

/// States that reading the line of a well-formed change gives back the change.
pub fn lines_read_again()
    ensures { LinesReadAgain }
{}

/// States that bytes hold the lines of at most one list of changes, and then at most one begun line.
pub fn bytes_hold_once()
    ensures { BytesHoldOnce }
{}

/// States that the rows of a client go by rising key.
pub fn client_rises()
    ensures { ClientRises }
{}

/// States that applying the line of a change has the effect of the change on the rows of a client.
pub fn client_follows()
    ensures { ClientFollows }
{}
