// Texts that stand one behind another in a list of bytes, a zero between them.
#![tactic(auto)]

// The n-th text, the first by 0; nothing where the list has no such text.
pub fn nth(texts: &[u8], n: usize) -> &[u8] {
    texts.split(|b| *b == 0).nth(n).unwrap_or(&[])
}
