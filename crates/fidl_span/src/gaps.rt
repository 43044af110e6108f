// What stands between words: blanks and comments.
ghost use Rattle.std.specs.Prelude.{◌≡◌, ℕ, ◌+◌, ◌<◌, ◌≤◌, ◌==◌, not, length, drop, slice_range};
ghost use Rattle.std.specs.Prelude.{IfSome, IfNone};
ghost use Rattle.fidl_span.specs.Bytes.{IsRun};
ghost use Rattle.fidl_span.specs.Gaps.{BeginsNoGap};
ghost use Rattle.fidl_span.specs.Words.{IsGapBetween};

use crate::classes::is_blank;

/// Where the line ends that `from` is on: at the first line feed from there on, or at the source's
/// end.
fn line_end(src: &[u8], from: usize) -> usize
    requires { from ≤ length src.now }
    ensures ordered { from ≤ result }
    ensures within { result ≤ length src.now }
    ensures run { IsRun (λ b. not (b == 10)) (slice_range src.now from result)
        (drop result src.now) }
{
    let mut to = from;
    while to < src.len() && src[to] != b'\n' {
        to += 1;
    }
    to
}

/// The end of the blank or the comment at `at`, if one stands there.
fn blank_or_comment_end(src: &[u8], at: usize) -> Option<usize>
    requires { at ≤ length src.now }
    ensures found { IfSome result (λ to. (at < to) × IsGapBetween src.now at to) }
    ensures none { IfNone result (BeginsNoGap (drop at src.now)) }
{
    if at < src.len() && is_blank(src[at]) {
        return Some(at + 1);
    }
    if src[at..].starts_with(b"//") {
        return Some(line_end(src, at + 2));
    }
    None
}

/// The end of the gap that begins at `from`: of all the blanks and comments there.
pub fn gap_end(src: &[u8], from: usize) -> usize
    requires { from ≤ length src.now }
    ensures gap { IsGapBetween src.now from result }
    ensures no_more { BeginsNoGap (drop result src.now) }
{
    let mut to = from;
    while let Some(end) = blank_or_comment_end(src, to) {
        to = end;
    }
    to
}
