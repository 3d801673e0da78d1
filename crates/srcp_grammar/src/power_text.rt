//! The text of a POWER command.

ghost use Rattle.std.specs.Prelude.{◌≡◌, ◌+◌, ◌++◌, ◌≤◌, [], ◌∷◌, Ok, length};
ghost use Rattle.srcp_grammar.specs.Grammar.{text_of};

use srcp_info::{Code, LONGEST_TEXT, Text, is_text};
use srcp_text::Words;

/// Appends a word. The text must have capacity for the word.
fn push_word(text: &mut Text, word: &[u8])
    requires { length text.old + length word.now ≤ LONGEST_TEXT }
    ensures { text.new ≡ text.old ++ word.now }
{
    for byte in word {
        text.push(*byte);
    }
}

/// Joins the words by single spaces. Returns 412 if the result can be no text.
pub(crate) fn parse_text(mut words: Words<'_>) -> Result<Text, Code>
    ensures { result ≡ text_of words.entry }
{
    let mut text = Text::new();
    let Some(first) = words.next() else {
        return Ok(text);
    };
    // A word of a line may be longer than any text, which has no capacity for the word then.
    if first.len() > LONGEST_TEXT {
        return Err(Code::WRONG_VALUE);
    }
    push_word(&mut text, first);
    while let Some(word) = words.next() {
        if text.len() + 1 + word.len() > LONGEST_TEXT {
            return Err(Code::WRONG_VALUE);
        }
        text.push(b' ');
        push_word(&mut text, word);
    }
    if !is_text(text.as_bytes()) {
        return Err(Code::WRONG_VALUE);
    }
    Ok(text)
}
