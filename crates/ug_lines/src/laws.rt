// What the definitions say.
ghost use Rattle.std.specs.Prelude.{◌≡◌, ◌↔◌, ℕ, List, [], Ok, Err, ◌<◌, ◌^◌, Some, decimal};
ghost use Rattle.ug_lines.specs.Lines.{lines_of, whole_lines, rest_from};
ghost use Rattle.ug_types.specs.declared.text_fault.TextFault.{TextFault};
ghost use Rattle.ug_lines.specs.LineReading.{AllGood, IsFirstBadLine, lines_read};
ghost use Rattle.ug_lines.specs.Splitting.{AreLinesOf, Splits};
ghost use Rattle.ug_lines.specs.Cuts.{EquationCut, IsEquationCut, cut_of};
ghost use Rattle.ug_lines.specs.Numbers.{number_in};

use crate::line_reading::LineReader;

/// Bytes split into their whole lines and a rest, and in no other way.
pub fn split_in_one_way()
    ensures splits { (bytes : List ℕ) → Splits bytes (whole_lines bytes) (rest_from [] bytes) }
    ensures only { (bytes : List ℕ) (lines : List (List ℕ)) (rest : List ℕ)
        → Splits bytes lines rest → (lines ≡ whole_lines bytes) × (rest ≡ rest_from [] bytes) }
{}

/// A text has these lines, and no others.
pub fn text_lines_law()
    ensures { (text : List ℕ) (lines : List (List ℕ))
        → (lines_of text ≡ lines) ↔ AreLinesOf text lines }
{}

/// Lines are read to their end exactly where each is good behind those before, and have a fault exactly where that is
/// their first bad line's.
pub fn line_reading_law<R: LineReader>()
    ensures good { (number : ℕ) (start last : R.State) (lines : List (List ℕ))
        → (lines_read R.reads number start lines
        ≡ Ok last) ↔ AllGood R.reads number start lines last }
    ensures bad { (number : ℕ) (start : R.State) (lines : List (List ℕ)) (fault : TextFault)
        → (lines_read R.reads number start lines
        ≡ Err fault) ↔ IsFirstBadLine R.reads number start lines fault }
{}

/// A line is cut so exactly where it is empty, a comment, a text without a sign, or a word and a value about its first sign,
/// with blanks about each.
pub fn equations_law()
    ensures { (line : List ℕ) (cut : EquationCut) → (cut_of line ≡ cut) ↔ IsEquationCut line cut }
{}

/// A word is read as a number exactly where it is that number as it is printed, and the number is below 2^64.
pub fn decimals_law()
    ensures { (word : List ℕ) (n : ℕ)
        → (number_in word ≡ Some n) ↔ ((word ≡ decimal n) × (n < 2 ^ 64)) }
{}
