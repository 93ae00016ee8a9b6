// Words with one space between.
ghost use Rattle.std.specs.Prelude.{◌≡◌, ◌≤◌, length};
ghost use Rattle.ug_proto.specs.Splitting as splitting;

// How many bytes stand before the first space.
fn word_length(text: &[u8]) -> usize
    ensures is { result ≡ length (splitting.word_in_front text.now) }
    ensures within { result ≤ length text.now }
{
    for (i, byte) in text.iter().enumerate() {
        if *byte == b' ' {
            return i;
        }
    }
    text.len()
}

/// The word that the text begins with, which may be empty.
#[tactic(auto, using(crate::proofs::Words::taken_word))]
pub fn first_word(text: &[u8]) -> &[u8]
    ensures { result.now ≡ splitting.word_in_front text.now }
{
    &text[..word_length(text)]
}

/// What stands behind that word, from its space on.
pub fn behind_word(text: &[u8]) -> &[u8]
    ensures is { result.now ≡ splitting.behind_word text.now }
    ensures shorter { length result.now ≤ length text.now }
{
    &text[word_length(text)..]
}
