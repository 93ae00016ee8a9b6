// What messages mean, and which a stream has.
ghost use Rattle.std.specs.Prelude.{◌≡◌, ◌++◌, ℕ, Bool, List, Result};
ghost use Rattle.ug_uevent.specs.declared.hint.Hint.{Hint};
ghost use Rattle.ug_uevent.specs.Faults.{SaidFault};
ghost use Rattle.ug_uevent.specs.Grammar.{ReadsAs};
ghost use Rattle.ug_uevent.specs.Streams.{BegunMessage, Partial, Overlong, Message, stream_with_piece};
ghost use Rattle.ug_uevent.specs.Streams.{stream_of, whole_stream, IsCutIntoMessages, IsOverlongStream};

/// A message says one thing, or has one first fault, and never both.
pub fn one_reading_law()
    ensures { (message : List ℕ) (a b : Result Hint SaidFault)
        → ReadsAs message a → ReadsAs message b → a ≡ b }
{}

/// However the bytes of a stream are cut, its messages and what has begun are the same.
pub fn messages_in_any_pieces()
    ensures { (begun : BegunMessage) (a b : List ℕ)
        → stream_of begun (a ++ b) ≡ stream_with_piece (stream_of begun a) b }
{}

/// A stream is its messages, each closed by a zero byte, and the beginning of one more; or behind
/// its messages 8,192 bytes stand without an end, and the last message is that of what is too long.
/// It is so in one way.
pub fn messages_in_one_way()
    ensures whole { (bytes rest : List ℕ) (fresh : Bool)
        → (whole_stream bytes).begun ≡ Partial rest fresh
        → IsCutIntoMessages bytes (whole_stream bytes).messages rest }
    ensures only { (bytes rest : List ℕ) (messages : List Message)
        → IsCutIntoMessages bytes messages rest
        → ((fresh : Bool) × ((whole_stream bytes).begun ≡ Partial rest fresh))
        × (messages ≡ (whole_stream bytes).messages) }
    ensures overlong { (bytes : List ℕ) → (whole_stream bytes).begun ≡ Overlong
        → IsOverlongStream bytes (whole_stream bytes).messages }
    ensures overlong_only { (bytes : List ℕ) (messages : List Message)
        → IsOverlongStream bytes messages
        → ((whole_stream bytes).begun ≡ Overlong) × (messages ≡ (whole_stream bytes).messages) }
{}
