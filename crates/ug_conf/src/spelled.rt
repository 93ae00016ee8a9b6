// What is written as one of a few words.
ghost use Rattle.std.specs.Prelude.{◌≡◌, nat_eq};
ghost use Rattle.std.specs.Cmp.Lexicographic.{pointwise};
ghost use Rattle.std.specs.List.{find};

/// What is written as one word.
pub trait OneWord: Copy {
    ghost use Rattle.std.specs.Prelude.{◌≡◌, ℕ, List};

    ghost all_of: { List Self };

    ghost word_of: { Self → List ℕ };

    /// All of them.
    fn all() -> &'static [Self]
        ensures { result.now ≡ all_of };

    /// The word for it.
    fn word(self) -> &'static [u8]
        ensures { result.now ≡ word_of self };
}

/// The first of them that the word stands for.
pub fn spelled<T: OneWord + 'static>(word: &[u8]) -> Option<T>
    ensures { result ≡ find (λ it. pointwise nat_eq word.now (T.word_of it)) T.all_of }
{
    let all = T::all();
    for it in all {
        if word == it.word() {
            return Some(*it);
        }
    }
    None
}
