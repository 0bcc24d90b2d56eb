// The words of a line.
ghost use Rattle.std.specs.Prelude.{◌≡◌, ◌≢◌, All, IsNone, slice_range, ◌≤◌, ◌<◌, ◌+◌, ◌∷◌, ◌++◌, ◌⊎◌, [], length, slice_index, IfSome};

// Where the first `byte` at or after `from` stands; the length where there is none.
pub fn find(text: &[u8], byte: u8, from: usize) -> usize
    requires { from ≤ length text.now }
    ensures within { (from ≤ result) × (result ≤ length text.now) }
    ensures found { result < length text.now → slice_index text.now result ≡ byte }
    ensures first { All (λ b. b ≢ byte) (slice_range text.now from result) }
{
    match text[from..].iter().position(|b| *b == byte) {
        Some(n) => from + n,
        None => text.len(),
    }
}

// The first word, up to a space, and what stands behind the space; None where there is no space.
pub fn split_word(text: &[u8]) -> Option<(&[u8], &[u8])>
    ensures parts { IfSome result (λ p. text.now ≡ p.0.now ++ 32 ∷ p.1.now) }
    ensures first { IfSome result (λ p. All (λ b. b ≢ 32) p.0.now) }
    ensures missing { IsNone result → All (λ b. b ≢ 32) text.now }
{
    let end = find(text, b' ', 0);
    if end == text.len() {
        return None;
    }
    Some((&text[..end], &text[end + 1..]))
}

// The same, where a text without a space is its own first word, and nothing stands behind it.
pub fn word_and_rest(text: &[u8]) -> (&[u8], &[u8])
    ensures first { All (λ b. b ≢ 32) result.0.now }
    ensures parts { (text.now ≡ result.0.now ++ 32 ∷ result.1.now) ⊎ ((text.now ≡ result.0.now) × (result.1.now ≡ [])) }
{
    split_word(text).unwrap_or((text, &[]))
}
