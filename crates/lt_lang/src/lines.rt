//! Lines end with LF. The last one may lack it, and one CR before an LF is no part of the line.
ghost use Rattle.std.specs.Prelude.{◌≡◌, ◌∷◌, ◌<◌, ◌↔◌, [], length, IfSome, IsNone};
ghost use Rattle.lt_lang.specs.Lines.{cut_lines, without_cr};

use memchr::memchr;

fn without_cr(line: &[u8]) -> &[u8]
    ensures { result.now ≡ without_cr line.now }
{
    line.strip_suffix(b"\r").unwrap_or(line)
}

/// The first line, without its end, and the input behind it; None where nothing is left. Takes no memory.
pub fn next_line(input: &[u8]) -> Option<(&[u8], &[u8])>
    ensures none { IsNone result ↔ (input.now ≡ []) }
    ensures cut { IfSome result (λ cut. cut_lines input.now ≡ cut.0.now ∷ cut_lines cut.1.now) }
    ensures shorter { IfSome result (λ cut. length cut.1.now < length input.now) }
{
    match memchr(b'\n', input) {
        Some(at) => {
            let (line, end) = input.split_at(at);
            let (_, rest) = end.split_at(1);
            Some((without_cr(line), rest))
        }
        None if input.is_empty() => None,
        None => Some(input.split_at(input.len())),
    }
}
