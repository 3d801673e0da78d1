//! The text of a message that has no words of its own.

ghost use Rattle.std.specs.Prelude.{◌≡◌};
ghost use Rattle.srcp_stations.specs.Text.{has_word, is_banner, is_framed, is_overload, message_in};

/// Returns what stands from the last `<` on, and all if there is none.
pub(crate) fn message_in(bytes: &[u8]) -> &[u8]
    ensures { result.now ≡ message_in bytes.now }
{
    let mut start = bytes.len();
    while start > 0 {
        start -= 1;
        if bytes[start] == b'<' {
            return &bytes[start..];
        }
    }
    bytes
}

/// Returns whether a word stands somewhere in a text.
fn has_word(word: &[u8], text: &[u8]) -> bool
    ensures { result ≡ has_word word.now text.now }
{
    for at in 0..text.len() {
        if text[at..].starts_with(word) {
            return true;
        }
    }
    false
}

/// Returns whether a text begins and ends so.
fn is_framed(first: &[u8], last: &[u8], text: &[u8]) -> bool
    ensures { result ≡ is_framed first.now last.now text.now }
{
    text.starts_with(first) && text.ends_with(last)
}

/// Returns whether a message is a banner.
pub(crate) fn is_banner(message: &[u8]) -> bool
    ensures { result ≡ is_banner message.now }
{
    is_framed(b"<iDCC", b">", message)
}

/// Returns whether a message says that a track is overloaded.
pub(crate) fn is_overload(message: &[u8]) -> bool
    ensures { result ≡ is_overload message.now }
{
    let is_named = has_word(b"OVERLOAD", message)
        || has_word(b"FAULT", message)
        || has_word(b"ALERT", message);
    is_framed(b"<*", b">", message) && is_named
}
