//! What wrapping is for.

ghost use Rattle.std.specs.Prelude.{◌≡◌, List, ℕ, false, Some, map};
ghost use Rattle.std.specs.List.{flat_map};
ghost use Rattle.json.specs.Lex.{tokens};
ghost use Rattle.json.specs.Print.{ArePrintable, print};
ghost use Rattle.json.specs.Token.{Token};
ghost use Rattle.serde_json.specs.Data.{Data};
ghost use Rattle.serde_json.specs.Read.{read};
ghost use Rattle.serde_json.specs.Written.{has_float};
ghost use Rattle.ss_text.specs.Decimals.{wrapped_text, count_of, marked_text, unmarked_text};
ghost use Rattle.ss_text.specs.Tokens.{AreWhole, Lexes, wrapped_token, marked_token};

/// A wrapped text that serde_json reads holds no float.
pub fn wrapped_is_whole()
    ensures { (text : List ℕ) (d : Data) → read (wrapped_text text) ≡ Some d → has_float d ≡ false }
{}

/// A marked text that serde_json reads holds no float.
pub fn marked_is_whole()
    ensures { (text : List ℕ) (d : Data) → read (marked_text text) ≡ Some d → has_float d ≡ false }
{}

/// A text in which nothing is wrapped is the same text, and no number among its tokens is a decimal; and a printed
/// text has none where its numbers aren't decimals.
pub fn unwrapped_is_same()
    ensures same { (text : List ℕ) → count_of text ≡ 0 → wrapped_text text ≡ text }
    ensures whole { (text : List ℕ) → count_of text ≡ 0 → AreWhole (tokens text) }
    ensures printed { (ts : List Token) → ArePrintable ts → AreWhole ts → count_of (print ts) ≡ 0 }
{}

/// Unmarking a marked text gives the text back.
pub fn unmarking_undoes_marking()
    ensures { (text : List ℕ) → unmarked_text (marked_text text) ≡ text }
{}

/// Wrapping and marking, in JSON's own words (RFC 8259): of a text that lexes, the tokens of the wrapped text are its
/// tokens, each decimal replaced by a list of one string; those of the marked text are its tokens, each decimal replaced
/// by a string of U+0001 and its characters, and each string or name that begins with U+0001 by one with one more.
pub fn tokens_stay()
    ensures wrapped { (text : List ℕ) → Lexes text → tokens (wrapped_text text) ≡ flat_map wrapped_token (tokens text) }
    ensures marked { (text : List ℕ) → Lexes text → tokens (marked_text text) ≡ map marked_token (tokens text) }
{}
