// Laws of texts and records.
ghost use Rattle.std.specs.Prelude.{◌≡◌, ℕ, List, [], ◌∷◌, ◌++◌, Bool, true, false, Option, Some, None, ◌↔◌, ◌⊎◌};
ghost use Rattle.ug_types.specs.declared.record.Attrs.{Attrs};
ghost use Rattle.ug_record.specs.declared.descriptors.Descr.{Descr};
ghost use Rattle.ug_record.specs.Grammar.{IsWellFormed, IsMalformed};
ghost use Rattle.ug_record.specs.Records.{without_newline as file_text, judged_of, judged_under, parent_hash_of, child_hash_of, hash_under, record_with};
ghost use Rattle.ug_record.specs.Reading.{decoded};

use ug_types::Judged;

/// One newline goes from the end of a file, and nothing else.
pub fn one_newline_goes()
    ensures newline { (text : List ℕ) → file_text (text ++ 10 ∷ []) ≡ text }
    ensures other { (file : List ℕ) → ((text : List ℕ) → file ≡ text ++ 10 ∷ [] → ⊥)
        → file_text file ≡ file }
{}

/// A device is malformed where one of its files was too long or its descriptors are malformed, and is else what they
/// say.
pub fn judged_by_descriptors()
    ensures too_long { (name : List ℕ) (attrs : Attrs) (parent : Option Attrs)
        → attrs.too_long ≡ true → judged_of name attrs parent ≡ Judged.Malformed 8 0 }
    ensures good { (name : List ℕ) (attrs : Attrs) (parent : Option Attrs) (descr : Descr)
        → attrs.too_long ≡ false → IsWellFormed attrs.descriptors descr
        → judged_of name attrs parent
        ≡ Judged.Good (record_with name attrs (parent_hash_of parent) descr) }
    ensures bad { (name : List ℕ) (attrs : Attrs) (parent : Option Attrs) (kind place : ℕ)
        → attrs.too_long ≡ false → IsMalformed attrs.descriptors kind place
        → judged_of name attrs parent ≡ Judged.Malformed kind place }
{}

/// The hash that a device's children see is that of its own files, and empty where it is malformed or one of the files
/// that it is made of was too long.
pub fn child_hash_by_descriptors()
    ensures too_long { (attrs : Attrs) → child_hash_of attrs true ≡ [] }
    ensures good { (attrs : Attrs) (descr : Descr) → IsWellFormed attrs.descriptors descr
        → child_hash_of attrs false ≡ hash_under attrs descr }
    ensures bad { (attrs : Attrs) (kind place : ℕ) → IsMalformed attrs.descriptors kind place
        → child_hash_of attrs false ≡ [] }
{}

/// A record under the hash that the parent's own four files give is the one with the three that are read of a parent.
pub fn judged_under_child_hash()
    ensures no_parent { (name : List ℕ) (attrs : Attrs)
        → judged_under name attrs [] ≡ judged_of name attrs None }
    ensures parent { (name : List ℕ) (attrs own parent : Attrs)
        → own.descriptors ≡ parent.descriptors
        → own.product ≡ parent.product
        → own.serial ≡ parent.serial
        → judged_under name attrs (child_hash_of own parent.too_long)
        ≡ judged_of name attrs (Some parent) }
{}

/// The reading from the front gives what the cut into descriptors says.
pub fn reading_is_grammar()
    ensures good { (bytes : List ℕ) (descr : Descr)
        → (decoded bytes ≡ Ok descr) ↔ IsWellFormed bytes descr }
    ensures bad { (bytes : List ℕ) (kind place : ℕ)
        → (decoded bytes ≡ Err (record { kind = kind; place = place }))
        ↔ IsMalformed bytes kind place }
{}

/// Bytes say one thing, or have one first fault, and never both.
pub fn one_meaning()
    ensures some { (bytes : List ℕ)
        → ((descr : Descr) × IsWellFormed bytes descr)
        ⊎ ((kind : ℕ) × (place : ℕ) × IsMalformed bytes kind place) }
    ensures one_descr { (bytes : List ℕ) (a b : Descr) → IsWellFormed bytes a → IsWellFormed bytes b
        → a ≡ b }
    ensures one_fault { (bytes : List ℕ) (kind place other_kind other_place : ℕ)
        → IsMalformed bytes kind place → IsMalformed bytes other_kind other_place
        → (kind ≡ other_kind) × (place ≡ other_place) }
    ensures not_both { (bytes : List ℕ) (descr : Descr) (kind place : ℕ) → IsWellFormed bytes descr
        → IsMalformed bytes kind place → ⊥ }
{}
