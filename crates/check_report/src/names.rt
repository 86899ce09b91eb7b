//! Names in a text, by their bytes.

/// Whether a byte may stand in a name without backquotes.
pub(crate) fn is_name(byte: u8) -> bool {
    byte.is_ascii_alphanumeric() || matches!(byte, b'_' | b'.' | b'[' | b']')
}

/// The name that begins at a byte of a text, behind a backquote up to the next one.
pub(crate) fn name_at(text: &[u8], at: usize) -> &[u8] {
    let at = at.min(text.len());
    let is_quoted = at > 0 && text[at - 1] == b'`';
    let rest = &text[at..];
    let long = rest
        .iter()
        .take_while(|byte| if is_quoted {
            **byte != b'`'
        } else {
            is_name(**byte)
        })
        .count();
    &rest[..long.min(rest.len())]
}
