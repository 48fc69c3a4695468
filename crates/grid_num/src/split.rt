// A text cut at a byte that separates.
ghost use Rattle.std.specs.Prelude.{◌≡◌, ◌==◌, IfNone, IfSome, false, true};
ghost use Rattle.std.specs.List.{after_first, before_first, list_any};

/// What stands before the first `separator`, and what stands behind it; None where there is none.
pub fn split_at_byte(text: &[u8], separator: u8) -> Option<(&[u8], &[u8])>
    ensures none { IfNone result (list_any (λ byte. byte == separator) text.now ≡ false) }
    ensures found { IfSome result (λ _. list_any (λ byte. byte == separator) text.now ≡ true) }
    ensures before { IfSome result (λ sides. sides.0.now ≡ before_first (λ byte. byte == separator) text.now) }
    ensures behind { IfSome result (λ sides. sides.1.now ≡ after_first (λ byte. byte == separator) text.now) }
{
    let place = text.iter().position(|byte| *byte == separator)?;
    Some((&text[..place], &text[place + 1..]))
}
