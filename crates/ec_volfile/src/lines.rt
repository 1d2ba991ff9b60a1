// The lines of a text, and the words of a line.
ghost use Rattle.std.specs.Prelude.{◌≡◌, ◌<◌, ◌≤◌, ◌∷◌, length, nat_eq, position};
ghost use Rattle.ec_volfile.specs.Lines.{is_blank, skip_blanks, trim_end, word_of, after_word, lines, words};

/// A space or a tab.
pub(crate) fn is_blank(b: u8) -> bool
    ensures { result ≡ is_blank b }
{
    b == b' ' || b == b'\t'
}

fn newline_at(bytes: &[u8]) -> Option<usize>
    ensures { result ≡ position (λ b. nat_eq b 10) bytes.now }
{
    bytes.iter().position(|b| *b == b'\n')
}

fn blank_at(bytes: &[u8]) -> Option<usize>
    ensures { result ≡ position is_blank bytes.now }
{
    bytes.iter().position(|b| is_blank(*b))
}

/// The first line, and the bytes after its newline.
pub(crate) fn first_line(bytes: &[u8]) -> (&[u8], &[u8])
    requires { 0 < length bytes.now }
    ensures lines { lines bytes.now ≡ result.0.now ∷ lines result.1.now }
    ensures line { length result.0.now ≤ length bytes.now }
    ensures shorter { length result.1.now < length bytes.now }
{
    match newline_at(bytes) {
        Some(i) => (&bytes[..i], &bytes[i + 1..]),
        None => (bytes, &bytes[bytes.len()..]),
    }
}

/// Without the blanks at the front.
pub(crate) fn skip_blanks(mut bytes: &[u8]) -> &[u8]
    ensures value { result.now ≡ skip_blanks bytes.entry.now }
    ensures length { length result.now ≤ length bytes.entry.now }
{
    while let [b, rest @ ..] = bytes {
        if !is_blank(*b) {
            break;
        }
        bytes = rest;
    }
    bytes
}

/// Without the blanks at the end.
pub(crate) fn trim_end(mut bytes: &[u8]) -> &[u8]
    ensures { result.now ≡ trim_end bytes.entry.now }
{
    while let [front @ .., b] = bytes {
        if !is_blank(*b) {
            break;
        }
        bytes = front;
    }
    bytes
}

/// What stands before the first blank, and what stands from it on.
pub(crate) fn split_word(bytes: &[u8]) -> (&[u8], &[u8])
    ensures word { result.0.now ≡ word_of bytes.now }
    ensures after { result.1.now ≡ after_word bytes.now }
    ensures length { length result.0.now ≤ length bytes.now }
    ensures rest { length result.1.now ≤ length bytes.now }
{
    match blank_at(bytes) {
        Some(i) => bytes.split_at(i),
        None => (bytes, &bytes[bytes.len()..]),
    }
}

/// The first word, and what follows it without the blanks at its front. The bytes themselves begin with no blank.
pub(crate) fn next_word(bytes: &[u8]) -> (&[u8], &[u8])
    requires begins { skip_blanks bytes.now ≡ bytes.now }
    requires some { 0 < length bytes.now }
    ensures words { words bytes.now ≡ result.0.now ∷ words result.1.now }
    ensures begins { skip_blanks result.1.now ≡ result.1.now }
    ensures shorter { length result.1.now < length bytes.now }
{
    let (word, after) = split_word(bytes);
    (word, skip_blanks(after))
}
