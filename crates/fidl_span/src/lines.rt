// Lines and columns.
ghost use Rattle.std.specs.Prelude.{◌≡◌};
ghost use Rattle.fidl_span.specs.Lines.{line_of, column_of};

/// The line and the column of the place `at`, both from 1; columns count bytes. A line feed ends
/// its line, so it is the last byte of it. A place past the end counts as the end.
pub fn line_col(src: &[u8], at: usize) -> (u64, u64)
    ensures line { result.0 ≡ line_of src.now at }
    ensures column { result.1 ≡ column_of src.now at }
{
    let before = &src[..at.min(src.len())];
    let mut line = 1;
    let mut column = 1;
    for byte in before {
        if *byte == b'\n' {
            line += 1;
            column = 1;
        } else {
            column += 1;
        }
    }
    (line, column)
}
