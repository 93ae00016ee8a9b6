// Which devices a rule of a list applies to.
ghost use Rattle.std.specs.Prelude.{◌≡◌, ℕ, List};
ghost use Rattle.std.specs.List.{filter};
ghost use Rattle.ug_rows.specs.RuleRows as rows;

/// Where each rule is asked for the devices that earlier ones have left, it applies to just those that its attributes match, and for
/// which no earlier rule without conditions decides.
pub fn first_match_law()
    ensures { (earlier : List (List ℕ)) (row : List ℕ) (devices : List (List ℕ))
        → rows.applied_rows (rows.rule_in_row row) (rows.left_to_later earlier devices)
        ≡ filter (rows.is_first_to_match earlier row) devices }
{}
