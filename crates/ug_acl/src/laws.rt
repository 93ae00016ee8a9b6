// What access files mean.
ghost use Rattle.std.specs.Prelude.{◌≡◌, ◌↔◌, ◌⊎◌, ℕ, Bool, List, [], ◌∷◌, ◌++◌, IsTrue, Some, Ok};
ghost use Rattle.std.specs.List.{filter};
ghost use Rattle.ug_types.specs.Elements.{Has};
ghost use Rattle.ug_types.specs.Principals.{Named};
ghost use Rattle.ug_types.specs.declared.text_fault.TextFault.{TextFault};
ghost use Rattle.ug_acl.specs.Acls.{Addition, is_allowed};
ghost use Rattle.ug_types.specs.TextFaults.{fault_of_kind};
ghost use Rattle.ug_lines.specs.Entries.{IsSkippedLine};
ghost use Rattle.ug_acl.specs.Grammar.{IsAccessTextLine, IsGrant, IsBadGrantLine, GivesAccess, IsFirstBadGrant};
ghost use Rattle.ug_acl.specs.Lines.{given_to, line_given, sections_of};
ghost use Rattle.ug_acl.specs.Pairs.{Pair, all_pairs, holds_privilege};
ghost use Rattle.ug_acl.specs.Printed.{grants_text};
ghost use Rattle.ug_acl.specs.Texts.{access_read};
ghost use Rattle.ug_acl.specs.Adding.{IsUnited};
ghost use Rattle.ug_acl.specs.Asking.{listed_in, pairs_asked, united};
ghost use Rattle.ug_acl.specs.Lists.{IsList, lists_privilege, list_read};

use crate::asked::Asked;
use crate::draft::Given;
use crate::fault::FaultKind;
use crate::lists::Listed;
use crate::privileges::Privileges;
use ug_types::{Privilege, Section};

/// A line is skipped, grants something in another section, or is bad, and is read so.
pub fn access_lines_law()
    ensures each { (seen : List Section) (line : List ℕ) → IsAccessTextLine seen line }
    ensures skipped { (given : List Given) (line : List ℕ) → IsSkippedLine line
        → line_given given line ≡ Ok given }
    ensures grants { (given : List Given) (line : List ℕ) (section : Section)
        (privileges : Privileges) → IsGrant line section privileges
        → ¬ Has (sections_of given) section
        → line_given given line ≡ Ok (given ++ given_to section privileges ∷ []) }
    ensures bad { (given : List Given) (line : List ℕ) (kind : FaultKind) (place : ℕ)
        → IsBadGrantLine (sections_of given) line kind place
        → line_given given line ≡ Err (fault_of_kind kind place) }
{}

/// A text reads as grants exactly where its lines give them, and has a fault exactly where that is its first bad line.
pub fn reading_is_access_grammar()
    ensures good { (text : List ℕ) (pairs : List Pair)
        → (access_read text ≡ Ok pairs) ↔ GivesAccess text pairs }
    ensures bad { (text : List ℕ) (fault : TextFault)
        → (access_read text ≡ Err fault) ↔ IsFirstBadGrant text fault }
{}

/// A text gives one list of grants, or has one first bad line, and never both.
pub fn one_access_meaning()
    ensures some { (text : List ℕ)
        → ((pairs : List Pair) × GivesAccess text pairs)
        ⊎ ((fault : TextFault) × IsFirstBadGrant text fault) }
    ensures one_list { (text : List ℕ) (a b : List Pair) → GivesAccess text a → GivesAccess text b
        → a ≡ b }
    ensures one_fault { (text : List ℕ) (a b : TextFault) → IsFirstBadGrant text a
        → IsFirstBadGrant text b → a ≡ b }
    ensures not_both { (text : List ℕ) (pairs : List Pair) (fault : TextFault)
        → GivesAccess text pairs → IsFirstBadGrant text fault → ⊥ }
{}

/// A printed text reads back as the grants. Grants are a part of all pairs, in their order.
pub fn printing_reads_back()
    ensures { (kept : Pair → Bool)
        → access_read (grants_text (filter kept all_pairs)) ≡ Ok (filter kept all_pairs) }
{}

/// The tests of membership say what is an element.
pub fn members_law()
    ensures granted { (pairs : List Pair) (section : Section) (privilege : Privilege)
        → IsTrue (holds_privilege pairs section privilege) ↔ Has pairs (section, privilege) }
    ensures allowed { (all : List Addition) (who : Named) (section : Section)
        (privilege : Privilege)
        → IsTrue (is_allowed all who section privilege) ↔
        ((a : Addition) × Has all a × (a.who ≡ who) × Has a.grants (section, privilege)) }
{}

/// A text is read as a list exactly where it is privileges of the section with commas between, and gives what these give.
pub fn lists_law()
    ensures is { (section : Section) (text : List ℕ) (listed : Listed)
        → (list_read section text ≡ Some listed) ↔ IsList section text listed }
    ensures own { (section : Section) (text : List ℕ) (listed : Listed) (privilege : Privilege)
        → IsList section text listed → IsTrue (lists_privilege listed privilege)
        → Has all_pairs (section, privilege) }
{}

/// What is asked for is what the section's list has, of what the section can have.
pub fn asked_law()
    ensures { (asked : Asked) (section : Section) (privilege : Privilege)
        → Has (pairs_asked asked) (section, privilege)
        ↔ (IsTrue (lists_privilege (listed_in asked section) privilege)
        × Has all_pairs (section, privilege)) }
{}

/// The text that is written reads as just what was granted and what is asked for.
pub fn united_law()
    ensures reads { (asked : Asked) (bytes text : List ℕ) → IsUnited asked bytes text
        → (granted : List Pair) × (access_read bytes ≡ Ok granted)
        × (access_read text ≡ Ok (united granted (pairs_asked asked))) }
    ensures just { (bytes : List ℕ) (granted : List Pair) (asked : Asked) (section : Section)
        (privilege : Privilege)
        → access_read bytes ≡ Ok granted
        → Has (united granted (pairs_asked asked)) (section, privilege)
        ↔ (Has granted (section, privilege) ⊎ Has (pairs_asked asked) (section, privilege)) }
{}
