// What a link's bytes mean, however they come.
ghost use Rattle.std.specs.Prelude.{◌≡◌, ◌≤◌, ◌++◌, ℕ, List, Option, Some, length};
ghost use Rattle.ug_types.specs.Limits.{text_limit};
ghost use Rattle.ug_proto.specs.declared.reply.Reply.{Reply};
ghost use Rattle.ug_client.specs.Answers.{Replied};
ghost use Rattle.ug_client.specs.Awaiting.{GivesNoReply};
ghost use Rattle.ug_client.specs.WholeBytes.{HoldsReply, GivesNone};

/// The first 67,108,864 bytes of a link hold one reply behind notices, or none, whatever the pieces in which they come. So what
/// was taken up to a whole reply holds the reply that all bytes hold; and where no whole reply is told, all bytes hold none.
pub fn one_answer_law()
    ensures replied { (taken more behind : List ℕ) (reply : Reply) → length taken ≤ text_limit
        → Replied taken reply behind → HoldsReply (taken ++ more) reply }
    ensures none { (taken more : List ℕ) → length taken ≤ text_limit
        → GivesNoReply taken (Some more) → GivesNone (taken ++ more) }
    ensures one { (all : List ℕ) (a b : Reply) → HoldsReply all a → HoldsReply all b → a ≡ b }
{}
