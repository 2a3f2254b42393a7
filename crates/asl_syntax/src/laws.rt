//! Laws of texts and trees, as functions that do nothing: what each ensures is the law.

ghost use Rattle.std.specs.Prelude.{◌≡◌, ℕ, ◌<◌, ◌≤◌, ◌⊎◌, ◌↔◌, None, Some, List, [], ◌∷◌, ◌++◌, drop, IsTrue, Result, IfOk, IfErr, length, map, reverse};
ghost use Rattle.asl_grammar.specs.Token.{Token, Spot};
ghost use Rattle.asl_grammar.specs.Lex.{are_tokens, tokens_of};
ghost use Rattle.asl_grammar.specs.Grammar.{bare};
ghost use Rattle.asl_grammar.specs.Spelling.{program_on};
ghost use Rattle.asl_syntax.specs.Tree.{Item};
ghost use Rattle.asl_syntax.specs.Spelled.{Spells};
ghost use Rattle.asl_syntax.specs.Parsed.{IsLexed, Parses, HasTree};
ghost use Rattle.asl_syntax.specs.Fault.{IsFault};
ghost use Rattle.asl_syntax.specs.declared.fault.SyntaxFault.TheVariants.{Limit, OutOfMemory};
ghost use Rattle.asl_syntax.specs.declared.fault.SyntaxFault.{SyntaxFault};
ghost use Rattle.asl_syntax.specs.declared.ast.Ast.{Ast};
ghost use Rattle.asl_syntax.specs.AstView.{tree_of};
ghost use Rattle.asl_syntax.specs.Outcome.{HasFault};
ghost use Rattle.asl_syntax.specs.Reread.{IsReadBack};
ghost use Rattle.asl_syntax.specs.Mentions.{mentions};
ghost use Rattle.asl_syntax.specs.Rules.{twice, unknown, wrong_call};
ghost use Rattle.asl_syntax.specs.DeclaredOnce.{AreDeclaredOnce};
ghost use Rattle.asl_syntax.specs.Known.{AreKnown, HaveArity};
ghost use Rattle.asl_syntax.specs.FirstFault.{IsFirstTwice, IsFirstUnknown, IsFirstWrongCall};
ghost use Rattle.asl_syntax.specs.Limit.{first_limit, limit_from};
ghost use Rattle.asl_syntax.specs.LimitPlace.{KeepLimits, IsFirstOver};
ghost use Rattle.asl_syntax.specs.WithinLimits.{IsWithinLimits};
ghost use Rattle.asl_syntax.specs.TokenNames.{token_names, mention_name};
ghost use Rattle.asl_syntax.specs.Writing.{writing};
ghost use Rattle.asl_syntax.specs.Printed.{spaced, printed};

use crate::ast::Ast;

/// The tokens of a text spell one tree at the most, so a text has one tree at the most.
pub fn a_text_has_one_tree()
    ensures tokens { (t u : List Item) (ss : List Spot) → Spells t (bare ss) → Spells u (bare ss) → t ≡ u }
    ensures text { (t u : List Item) (text : List ℕ) → Parses text t → Parses text u → t ≡ u }
{}

/// A program declares no name twice exactly where its globals have different names, and so have its functions, and so
/// have the parameters of each function.
pub fn names_are_declared_once()
    ensures { (t : List Item) → (twice t ≡ None) ↔ AreDeclaredOnce t }
{}

/// A program uses no unknown name exactly where each name that is used is one of its globals, of its functions, or of the
/// locals of the function that uses it. Where names are declared once and known, no call is wrong exactly where each call
/// has as many arguments as its function has parameters.
pub fn names_are_known()
    ensures unknown { (t : List Item) → (unknown t ≡ None) ↔ AreKnown t }
    ensures arity { (t : List Item) (ss : List Spot) → Spells t (bare ss) → twice t ≡ None → unknown t ≡ None → (wrong_call t ss ≡ None) ↔ HaveArity t }
{}

/// What is told of names is the first fault: the name of the first declaration that repeats one, the name of the first
/// unknown use, and, where names are declared once and known, the place of the first wrong call.
pub fn faults_of_names_are_the_first()
    ensures twice { (t : List Item) (x : List ℕ) → twice t ≡ Some x → IsFirstTwice t x }
    ensures unknown { (t : List Item) (x : List ℕ) → unknown t ≡ Some x → IsFirstUnknown t x }
    ensures arity { (t : List Item) (ss : List Spot) (at : ℕ) → Spells t (bare ss) → twice t ≡ None → unknown t ≡ None → wrong_call t ss ≡ Some at → IsFirstWrongCall t ss at }
{}

/// The text of a program passes no limit exactly where it has at most 1,048,576 bytes and its tree is within the limits: it
/// has few functions, globals and sections, each function has few parameters, few blocks stand in one another, each name is
/// short, and each number is in its range.
pub fn limits_are_of_the_tree()
    ensures { (t : List Item) (text : List ℕ) → Spells t (bare (tokens_of text)) → (first_limit text ≡ None) ↔ ((length text ≤ 1048576) × IsWithinLimits t) }
{}

/// The place that the limits give is that of one token: those before it keep all limits, and with it they do not. Where there is no such
/// place, all tokens together keep them.
pub fn a_limit_is_passed_at_a_token()
    ensures passed { (ss : List Spot) (at : ℕ) → limit_from [] ss ≡ Some at → IsFirstOver ss at }
    ensures kept { (ss : List Spot) → limit_from [] ss ≡ None → KeepLimits (reverse (bare ss)) }
{}

/// A tree is printed as tokens that spell it.
pub fn a_printed_tree_is_spelled()
    ensures { (t : List Item) → Spells t (program_on (writing t) []) }
{}

/// Tokens with one space between and a newline after are read back. So the text that a tree with real names is printed
/// as is ASCII and all blanks and tokens, and its tokens are the tree's own spelling; a tree that some text spells has
/// real names.
pub fn a_printed_tree_is_lexed()
    ensures spaced { (ts : List Token) → IsTrue (are_tokens ts) → bare (tokens_of (drop 1 (spaced ts) ++ 10 ∷ [])) ≡ ts }
    ensures lexed { (t : List Item) → IsTrue (are_tokens (program_on (writing t) [])) → IsLexed (printed t) }
    ensures tokens { (t : List Item) → IsTrue (are_tokens (program_on (writing t) [])) → bare (tokens_of (printed t)) ≡ program_on (writing t) [] }
    ensures names { (t : List Item) (text : List ℕ) → Spells t (bare (tokens_of text)) → IsTrue (are_tokens (program_on (writing t) [])) }
{}

/// The tokens of a tree have the names that the tree mentions, one by one in the same order.
pub fn a_tree_mentions_its_names()
    ensures { (t : List Item) (ts : List Token) → Spells t ts → token_names ts ≡ map mention_name (mentions t) }
{}

/// The text that a parsed tree is printed as parses to that tree, or it is too long: then its fault is the first byte
/// that is too many.
pub fn a_printed_tree_is_read_back()
    ensures kept { (t : List Item) (text : List ℕ) → Parses text t → length (printed t) ≤ 1048576 → Parses (printed t) t }
    ensures long { (t : List Item) (text : List ℕ) → Parses text t → 1048576 < length (printed t) → IsFault (printed t) (Limit 1048576) }
{}

/// So is each `Ast`: what answers as `parse` does for the text that `print` writes answers the same tree, or that the
/// text is too long, or that memory ran out.
pub fn a_printed_ast_is_read_back(ast: &Ast<'_>)
    ensures kept { length (printed (tree_of ast.now)) ≤ 1048576 → Parses (printed (tree_of ast.now)) (tree_of ast.now) }
    ensures long { 1048576 < length (printed (tree_of ast.now)) → IsFault (printed (tree_of ast.now)) (Limit 1048576) }
    ensures answer { (r : Result Ast SyntaxFault) → IfOk r (λ a. Parses (printed (tree_of ast.now)) (tree_of a)) → IfErr r (IsFault (printed (tree_of ast.now))) → IsReadBack (tree_of ast.now) (printed (tree_of ast.now)) r }
{}

/// A text has one outcome: a tree, or one fault. Running out of memory is not a fault of a text, and stands beside a tree alone.
pub fn a_text_has_one_outcome()
    ensures some { (text : List ℕ) → HasTree text ⊎ HasFault text }
    ensures tree { (text : List ℕ) (t : List Item) (e : SyntaxFault) → Parses text t → IsFault text e → e ≡ OutOfMemory }
    ensures fault { (text : List ℕ) (e f : SyntaxFault) → IsFault text e → IsFault text f → e ≡ f }
{}
