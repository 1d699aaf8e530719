ghost use Rattle.std.specs.Prelude.{◌≡◌, [], ◌∷◌, MatchOption};
ghost use Rattle.frame_file.specs.Pieces.{pieces};
ghost use Rattle.reader.specs.Cuts.{Cut};

/// The text before the first such byte and the text behind it, where there is one.
pub(crate) fn cut(text: &[u8], at: u8) -> Option<(&[u8], &[u8])>
    ensures { MatchOption result (pieces at text.now ≡ text.now ∷ []) (λ parts. Cut at text.now parts.0.now parts.1.now) }
{
    let i = text.iter().position(|byte| *byte == at)?;
    Some((&text[..i], &text[i + 1..]))
}
