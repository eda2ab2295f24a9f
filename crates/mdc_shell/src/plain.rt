// Which words may stand on a command line.
ghost use Rattle.std.specs.Prelude.{◌↔◌, IsTrue, string_bytes};
ghost use Rattle.std.specs.List.{All};
ghost use Rattle.mdc_shell.specs.Words.{IsPath, IsPlain};

/// No word is empty, and none but `-` alone begins with a hyphen.
pub fn are_plain(words: &[String]) -> bool
    ensures { IsTrue result ↔ All (λ word. IsPlain (string_bytes word)) words.now }
{
    words.iter().all(|word| is_plain(word.as_str()))
}

// The word isn't empty, and a hyphen is in front only where it is all of the word.
fn is_plain(word: &str) -> bool
    ensures { IsTrue result ↔ IsPlain word.now }
{
    let [first, rest @ ..] = word.as_bytes() else {
        return false;
    };
    *first != b'-' || rest.is_empty()
}

/// The word names a file.
pub fn is_path(word: &str) -> bool
    ensures { IsTrue result ↔ IsPath word.now }
{
    let [first, ..] = word.as_bytes() else {
        return false;
    };
    *first != b'-'
}
