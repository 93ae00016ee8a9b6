// A text that is cut at a mark.
ghost use Rattle.std.specs.Prelude.{◌≡◌, IfSome, IfNone, Some, None};
ghost use Rattle.ug_rows.specs.Cuts as cuts;

/// What stands before the first such byte, and what stands behind it.
pub fn cut_at_mark(mark: u8, text: &[u8]) -> Option<(&[u8], &[u8])>
    ensures some { IfSome result (λ p. cuts.cut_at_mark mark text.now ≡ Some (p.0.now, p.1.now)) }
    ensures none { IfNone result (cuts.cut_at_mark mark text.now ≡ None) }
{
    for (i, byte) in text.iter().enumerate() {
        if *byte == mark {
            return Some((&text[..i], &text[i + 1..]));
        }
    }
    None
}
