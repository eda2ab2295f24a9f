// The lower of two pages that were found.
ghost use Rattle.std.specs.Prelude.{◌≡◌};
ghost use Rattle.file_check.specs.Judging.{lower};

/// The lower of two pages, if there is one.
pub(crate) fn lower(found: Option<u32>, other: Option<u32>) -> Option<u32>
    ensures { result ≡ lower found other }
{
    match (found, other) {
        (Some(page), Some(other)) => Some(page.min(other)),
        (None, found) | (found, None) => found,
    }
}
