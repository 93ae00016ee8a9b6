// Targets as words.
ghost use Rattle.std.specs.Prelude.{◌≡◌, ◌≤◌, length};
ghost use Rattle.ug_types.specs.Targets.{target_word, target_of};

use crate::verdict::Target;
use crate::word::is_word;

impl Target {
    /// The word for it.
    pub fn word(self) -> &'static [u8]
        ensures text { result.now ≡ target_word self }
        ensures length { length result.now ≤ 6 }
    {
        match self {
            Target::Allow => b"allow",
            Target::Block => b"block",
            Target::Reject => b"reject",
        }
    }

    /// The target that the word is.
    #[tactic(auto, unfolding(crate::specs::Targets::target_of))]
    pub fn named(word: &[u8]) -> Option<Target>
        ensures { result ≡ target_of word.now }
    {
        if is_word(word, b"allow") {
            return Some(Target::Allow);
        }
        if is_word(word, b"block") {
            return Some(Target::Block);
        }
        if is_word(word, b"reject") {
            return Some(Target::Reject);
        }
        None
    }
}
