//! Bytes compared and cut.

ghost use Rattle.std.specs.Prelude.{◌≡◌, ◌<◌, ◌==◌, bytes_eq, length, position, reverse, IfSome};
ghost use Rattle.form_urlencoded.specs.Form as form;
ghost use Rattle.httparse.specs.Grammar.{is_ows, skip_ows, trim_ows};

/// Whether two texts are the same bytes.
pub fn is_same(text: &[u8], other: &[u8]) -> bool
    ensures { result ≡ bytes_eq text.now other.now }
{
    text == other
}

fn place_of(text: &[u8], byte: u8) -> Option<usize>
    ensures place { result ≡ position (λ b. b == byte) text.now }
    ensures within { IfSome result (λ place. place < length text.now) }
{
    text.iter().position(|b| *b == byte)
}

/// What stands before the first such byte, or all, and what stands behind it, or nothing.
pub fn split_once(text: &[u8], byte: u8) -> (&[u8], &[u8])
    ensures front { result.0.now ≡ (form.split_once byte text.now).0 }
    ensures back { result.1.now ≡ (form.split_once byte text.now).1 }
{
    match place_of(text, byte) {
        Some(place) => (&text[..place], &text[place + 1..]),
        None => (text, &[]),
    }
}

fn is_blank(byte: u8) -> bool
    ensures { result ≡ is_ows byte }
{
    byte == b' ' || byte == b'\t'
}

fn skip_blanks(text: &[u8]) -> &[u8]
    ensures { result.now ≡ skip_ows text.now }
{
    let mut at = 0;
    while at < text.len() && is_blank(text[at]) {
        at += 1;
    }
    &text[at..]
}

fn cut_blanks(text: &[u8]) -> &[u8]
    ensures { result.now ≡ reverse (skip_ows (reverse text.now)) }
{
    let mut end = text.len();
    while 0 < end && is_blank(text[end - 1]) {
        end -= 1;
    }
    &text[..end]
}

/// The bytes without spaces and tabs at both ends.
#[tactic(auto, unfolding(httparse::specs::Grammar::trim_ows))]
pub fn trim(text: &[u8]) -> &[u8]
    ensures { result.now ≡ trim_ows text.now }
{
    cut_blanks(skip_blanks(text))
}
