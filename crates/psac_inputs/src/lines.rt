// The lines of bytes that are all there.
ghost use Rattle.std.specs.Prelude.{◌≡◌, ◌<◌, ◌≤◌, ◌↔◌, ◌∷◌, [], length, slice_index, IfSome, IsNone};
ghost use Rattle.psac_base.specs.Feeds.{NoFeed, line_text, lines_of};

// The first line feed, or the end of the bytes.
fn feed_at(bytes: &[u8]) -> usize
    ensures within { result ≤ length bytes.now }
    ensures none { NoFeed bytes.now 0 result }
    ensures found { result < length bytes.now → slice_index bytes.now result ≡ 10 }
{
    for i in 0..bytes.len() {
        if bytes[i] == b'\n' {
            return i;
        }
    }
    bytes.len()
}

// A line without a carriage return at its end.
fn without_return(line: &[u8]) -> &[u8]
    ensures { result.now ≡ line_text line.now }
{
    if !line.is_empty() && line[line.len() - 1] == b'\r' {
        &line[..line.len() - 1]
    } else {
        line
    }
}

/// The first line, and the bytes behind it. `None` comes exactly where there is no byte.
pub fn split_line(bytes: &[u8]) -> Option<(&[u8], &[u8])>
    ensures none { IsNone result ↔ (bytes.now ≡ []) }
    ensures line { IfSome result (λ parts. lines_of bytes.now ≡ parts.0.now ∷ lines_of parts.1.now) }
    ensures shorter { IfSome result (λ parts. length parts.1.now < length bytes.now) }
{
    if bytes.is_empty() {
        return None;
    }
    let end = feed_at(bytes);
    if end < bytes.len() {
        Some((without_return(&bytes[..end]), &bytes[end + 1..]))
    } else {
        Some((bytes, &bytes[end..]))
    }
}
