//! A law of the lines of a whole stream. The function does nothing: its `ensures` is the law.

ghost use Rattle.srcp_text.specs.Pieces.{FindsMarks};

/// States that the feeds of `LineReader` find exactly the lines of a stream, in whatever pieces the stream comes. The
/// reader then holds the rest of the stream.
pub fn finds_marks()
    ensures { FindsMarks }
{}
