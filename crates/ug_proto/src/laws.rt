// What requests and replies mean.
ghost use Rattle.std.specs.Prelude.{◌≡◌, ◌++◌, ◌↔◌, ◌≢◌, [], ℕ, List, Option, Result, Ok, Err, codes, false, true};
ghost use Rattle.ug_audit.specs.declared.start_entry.StartEntry.{StartEntry};
ghost use Rattle.ug_audit.specs.Lines.{entry_line};
ghost use Rattle.ug_audit.specs.StartLines.{start_line};
ghost use Rattle.ug_types.specs.declared.rule.After.TheVariants as after;
ghost use Rattle.ug_types.specs.declared.verdict.Target.TheVariants as target;
ghost use Rattle.ug_proto.specs.declared.request.Request.TheVariants as request;
ghost use Rattle.ug_proto.specs.BadRequests.{IsBadRequest};
ghost use Rattle.ug_proto.specs.Replies.{reply_text, IsReply};
ghost use Rattle.ug_proto.specs.Lines.{Begun, Partial, Overlong, lines_ended_in, begun_after, stream_lines, IsCutInto, IsOverlong};
ghost use Rattle.ug_proto.specs.ReplyReading.{ReadsReply};
ghost use Rattle.ug_proto.specs.declared.reply.ReplyFault.TheVariants.{Memory};
ghost use Rattle.ug_proto.specs.Requests.{request_read};
ghost use Rattle.ug_proto.specs.Texts.{request_text, IsRequest};

use crate::reply::{Reply, ReplyFault};
use crate::request::Request;
use ug_audit::Entry;

/// A line reads as a request exactly where it is that request's text, and the request is one that can be written. It is bad at a
/// place exactly where the first word with which no request goes on begins there, or it ends there and a word is missing.
pub fn requests_law()
    ensures good { (line : List ℕ) (r : Request) → (request_read line ≡ Ok r)
        ↔ ((line ≡ request_text r) × IsRequest r) }
    ensures bad { (line : List ℕ) (place : ℕ) → (request_read line ≡ Err place)
        ↔ IsBadRequest line place }
{}

/// What the words of each request ask for.
pub fn request_words_law()
    ensures get_parameter { request_read (codes "get-parameter a")
        ≡ Ok (request.GetParameter (codes "a")) }
    ensures set_parameter { request_read (codes "set-parameter a b")
        ≡ Ok (request.SetParameter (codes "a") (codes "b")) }
    ensures list_devices { request_read (codes "list-devices") ≡ Ok request.ListDevices }
    ensures allow_device { request_read (codes "allow-device 7")
        ≡ Ok (request.Device 7 target.Allow false) }
    ensures block_device { request_read (codes "block-device 7")
        ≡ Ok (request.Device 7 target.Block false) }
    ensures reject_device { request_read (codes "reject-device 7")
        ≡ Ok (request.Device 7 target.Reject false) }
    ensures permanent { request_read (codes "allow-device 7 permanent")
        ≡ Ok (request.Device 7 target.Allow true) }
    ensures list_rules { request_read (codes "list-rules") ≡ Ok request.ListRules }
    ensures append_rule { request_read (codes "append-rule end permanent a b")
        ≡ Ok (request.AppendRule after.End true (codes "a b")) }
    ensures temporary { request_read (codes "append-rule end temporary a b")
        ≡ Ok (request.AppendRule after.End false (codes "a b")) }
    ensures front { request_read (codes "append-rule 0 permanent a b")
        ≡ Ok (request.AppendRule after.Front true (codes "a b")) }
    ensures behind { request_read (codes "append-rule 7 permanent a b")
        ≡ Ok (request.AppendRule (after.Rule 7) true (codes "a b")) }
    ensures remove_rule { request_read (codes "remove-rule 7")
        ≡ Ok (request.RemoveRule 7) }
    ensures watch { request_read (codes "watch") ≡ Ok request.Watch }
{}

/// No reply's text begins with that of another, so no two have one text, and a reader knows where each ends.
pub fn replies_law()
    ensures { (a b : Reply) (more : List ℕ) → IsReply a → IsReply b
        → reply_text a ++ more ≡ reply_text b → (a ≡ b) × (more ≡ []) }
{}

/// A line of the journal and a reply differ at a byte that both have, so neither is the other or begins it.
pub fn entries_and_replies_law()
    ensures entries { (entry : Entry) (reply : Reply) (more rest : List ℕ)
        → entry_line entry ++ more ≡ reply_text reply ++ rest → ⊥ }
    ensures starts { (entry : StartEntry) (reply : Reply) (more rest : List ℕ)
        → start_line entry ++ more ≡ reply_text reply ++ rest → ⊥ }
{}

/// A text reads in one way: it begins with the text of that one reply, or more of a reply is to come, or neither.
pub fn one_reading_law()
    ensures { (text : List ℕ) (a b : Result (Option (Reply × ℕ)) ReplyFault)
        → ReadsReply text a → ReadsReply text b → a ≢ Err Memory → b ≢ Err Memory → a ≡ b }
{}

/// However the bytes of a stream are cut, its lines and what has begun are the same.
pub fn in_any_pieces()
    ensures lines { (begun : Begun) (a b : List ℕ) → lines_ended_in begun (a ++ b)
        ≡ lines_ended_in begun a ++ lines_ended_in (begun_after begun a) b }
    ensures begun { (begun : Begun) (a b : List ℕ) → begun_after begun (a ++ b)
        ≡ begun_after (begun_after begun a) b }
{}

/// A stream is its lines, each ended by a newline, and a rest that is no whole line; or behind its lines stand 65,536 bytes
/// without a newline. It is so in one way.
pub fn lines_in_one_way()
    ensures whole { (bytes rest : List ℕ) → begun_after (Partial []) bytes ≡ Partial rest
        → IsCutInto bytes (stream_lines bytes) rest }
    ensures only { (bytes rest : List ℕ) (lines : List (List ℕ)) → IsCutInto bytes lines rest
        → (begun_after (Partial []) bytes ≡ Partial rest) × (lines ≡ stream_lines bytes) }
    ensures overlong { (bytes : List ℕ) → begun_after (Partial []) bytes ≡ Overlong
        → IsOverlong bytes (stream_lines bytes) }
    ensures overlong_only { (bytes : List ℕ) (lines : List (List ℕ)) → IsOverlong bytes lines
        → (begun_after (Partial []) bytes ≡ Overlong) × (lines ≡ stream_lines bytes) }
{}
