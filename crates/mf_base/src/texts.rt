//! Texts: which are present, and where a text is cut.

ghost use Rattle.std.specs.Prelude.{◌≡◌, ◌<◌, ◌==◌, option_map, position, length, IfSome};
ghost use Rattle.mf_base.specs.Texts.{cut as cut_at, cut_last as cut_at_last};
ghost use Rattle.mf_base.specs.Tags.{readable_text};
ghost use Rattle.mf_base.specs.Shown.{both_now};

/// Reads a present text: 1 to 1,020 bytes of UTF-8.
pub fn text(bytes: &[u8]) -> Option<&str>
    ensures { option_map (λ t. t.now) result ≡ readable_text bytes.now }
{
    if bytes.is_empty() || 1020 < bytes.len() {
        return None;
    }
    str::from_utf8(bytes).ok()
}

/// What stands before and after the first of an ASCII character.
pub fn cut(text: &str, at: char) -> Option<(&str, &str)>
    requires { at < 128 }
    ensures { option_map both_now result ≡ cut_at at text.now }
{
    text.split_once(at)
}

/// What stands before and after the last of an ASCII character.
pub fn cut_last(text: &str, at: char) -> Option<(&str, &str)>
    requires { at < 128 }
    ensures { option_map both_now result ≡ cut_at_last at text.now }
{
    text.rsplit_once(at)
}

/// What stands before and after the first of a byte.
pub fn cut_bytes(text: &[u8], byte: u8) -> Option<(&[u8], &[u8])>
    ensures { option_map both_now result ≡ cut_at byte text.now }
{
    let at = place_of(text, byte)?;
    Some((&text[..at], &text[at + 1..]))
}

// Where a byte stands first.
fn place_of(text: &[u8], byte: u8) -> Option<usize>
    ensures place { result ≡ position (λ b. b == byte) text.now }
    ensures within { IfSome result (λ at. at < length text.now) }
{
    text.iter().position(|b| *b == byte)
}

#[cfg(test)]
mod tests {
    use super::*;

    #[test]
    fn present_texts(rt: HostRuntime) {
        let long = [b'a'; 1021];
        assert!(rt; text(&long).is_none());
        assert!(rt; text(&long[1..]).is_some());
        assert!(rt; text(b"").is_none());
        assert!(rt; text(&[0xe9]).is_none());
        assert_eq!(rt; text("é".as_bytes()), Some("é"));
    }

    #[test]
    fn parts_of_texts(rt: HostRuntime) {
        assert_eq!(rt; cut("a@b@c", '@'), Some(("a", "b@c")));
        assert_eq!(rt; cut_last("a@b@c", '@'), Some(("a@b", "c")));
        assert_eq!(rt; cut("abc", '@'), None);
        assert_eq!(rt; cut_last("", '@'), None);
    }
}
