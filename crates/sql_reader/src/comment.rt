// Where a comment ends.
ghost use Rattle.std.specs.Prelude.{◌≡◌, IfSome, IfNone};
ghost use Rattle.mdc_ast.specs.Cutting.{Lacks};
ghost use Rattle.sql_reader.specs.Front.{after_line};
ghost use Rattle.sql_reader.specs.Trim.{StandsBehindLine};

/// The bytes behind the next line feed, or `None` where there is none.
pub(crate) fn line_behind(bytes: &[u8]) -> Option<&[u8]>
    ensures found { IfSome result (λ behind. StandsBehindLine bytes.now behind.now) }
    ensures none { IfNone result (Lacks 10 bytes.now) }
{
    let mut rest = bytes;
    while let Some((byte, behind)) = rest.split_first() {
        if *byte == b'\n' {
            return Some(behind);
        }
        rest = behind;
    }
    None
}

/// The bytes behind the next line feed, or none where there is none.
pub(crate) fn after_line(bytes: &[u8]) -> &[u8]
    ensures { result.now ≡ after_line bytes.now }
{
    match line_behind(bytes) {
        Some(behind) => behind,
        None => &[],
    }
}
