//! Laws of texts and tokens, as functions that do nothing: what each ensures is the law.

ghost use Rattle.std.specs.Prelude.{◌≡◌, ℕ, ◌<◌, List, ◌++◌, IsTrue, Option, Some, length};
ghost use Rattle.asl_grammar.specs.Token.{Token, Name, Number, Spot};
ghost use Rattle.asl_grammar.specs.Lex.{is_digit, is_name_byte, leading, number_value, front, all_bytes, is_name, are_tokens, tokens_of, bad_place};
ghost use Rattle.asl_grammar.specs.Bytes.{IsSpelling, IsFront};
ghost use Rattle.asl_grammar.specs.Readings.{IsReading};
ghost use Rattle.asl_grammar.specs.Grammar.{bare, IsGrammarFault};

/// The names of a text's tokens are names: a letter and name bytes, and no word.
pub fn a_text_has_real_tokens()
    ensures { (text : List ℕ) → IsTrue (are_tokens (bare (tokens_of text))) }
{}

/// A name and a number are read whole where nothing that they could continue with stands after them.
pub fn a_token_is_read_whole()
    ensures name { (x r : List ℕ) → IsTrue (is_name x) → leading is_name_byte r ≡ 0 → front (x ++ r) ≡ Some (Name x, length x) }
    ensures number { (ds r : List ℕ) → 0 < length ds → IsTrue (all_bytes is_digit ds) → leading is_digit r ≡ 0 → front (ds ++ r) ≡ Some (Number (number_value ds), length ds) }
{}

/// The token at the front of a text is the longest one there, and no other answer is; bytes spell one token at the most.
pub fn a_front_is_the_longest_token()
    ensures front { (text : List ℕ) → IsFront text (front text) }
    ensures only { (text : List ℕ) (o : Option (Token × ℕ)) → IsFront text o → o ≡ front text }
    ensures one { (bytes : List ℕ) (t u : Token) → IsSpelling t bytes → IsSpelling u bytes → t ≡ u }
{}

/// A text stops being the beginning of a program at one place at the most.
pub fn a_text_has_one_grammar_fault()
    ensures { (text : List ℕ) (end a b : ℕ) → IsGrammarFault (tokens_of text) end a → IsGrammarFault (tokens_of text) end b → a ≡ b }
{}

/// A text is blanks and longest tokens, one after the other, to its end or to a place where no token stands; in one way,
/// which is how it is read.
pub fn a_text_has_one_reading()
    ensures read { (text : List ℕ) → IsReading text 0 (tokens_of text) (bad_place text) }
    ensures tokens { (text : List ℕ) (ss : List Spot) (end : Option ℕ) → IsReading text 0 ss end → ss ≡ tokens_of text }
    ensures end { (text : List ℕ) (ss : List Spot) (end : Option ℕ) → IsReading text 0 ss end → end ≡ bad_place text }
{}
