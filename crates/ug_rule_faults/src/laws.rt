// Laws of the first fault of a rule, a query and a text.
ghost use Rattle.std.specs.Prelude.{◌≡◌, ◌↔◌, ℕ, List, Err};
ghost use Rattle.ug_lines.specs.Lines.{lines_of};
ghost use Rattle.ug_types.specs.declared.text_fault.TextFault.{TextFault};
ghost use Rattle.ug_rule.specs.declared.fault.Fault.{Fault};
ghost use Rattle.ug_rule.specs.Files.{file_read, line_read};
ghost use Rattle.ug_rule.specs.Rules.{query_read, rule_read};
ghost use Rattle.ug_rule_faults.specs.FaultKinds.{query_early_kind, query_stray_kind, rule_early_kind, rule_stray_kind};
ghost use Rattle.ug_rule_faults.specs.FirstFault.{AreQuery, AreRule, FirstFault, IsBadLine, IsFirstBadRule};

/// A line that is no rule has its fault at the first token with which the tokens so far go on to no rule, or where it ends
/// too early, at its outermost open brace or else at its length. What is wrong there hangs on what the tokens before ask
/// for. Faults of the tokens themselves come first. So it is with queries.
pub fn first_fault_law()
    ensures rules { (line : List ℕ) (fault : Fault) → (rule_read line ≡ Err fault)
        ↔ FirstFault AreRule rule_stray_kind rule_early_kind line fault }
    ensures queries { (line : List ℕ) (fault : Fault) → (query_read line ≡ Err fault)
        ↔ FirstFault AreQuery query_stray_kind query_early_kind line fault }
{}

/// A line of a text has a fault exactly where it is neither blank nor a comment, and has this first fault as a rule; a text
/// has a fault exactly where that is its first bad line's.
pub fn bad_lines_law()
    ensures lines { (line : List ℕ) (fault : Fault)
        → (line_read line ≡ Err fault) ↔ IsBadLine line fault }
    ensures texts { (text : List ℕ) (fault : TextFault)
        → (file_read text ≡ Err fault) ↔ IsFirstBadRule (lines_of text) fault }
{}
