//! Laws of maps, as functions that do nothing: what each ensures is the law.
ghost use Rattle.std.specs.Prelude.{◌≡◌, ℕ, ◌⊎◌, List, Some, slice_get};
ghost use Rattle.asl_grammar.specs.Lex.{tokens_of};
ghost use Rattle.asl_map.specs.declared.map.Map.{Map};
ghost use Rattle.asl_map.specs.declared.text_piece.Piece.{Piece};
ghost use Rattle.asl_map.specs.declared.fault.MapFault.{MapFault};
ghost use Rattle.asl_map.specs.Mapped.{IsMapped, IsMapText, IsRefusedMapping, IsOutOfMemory};
ghost use Rattle.asl_map.specs.Origin.{IsOfStatement, IsOfReturn};

/// The piece of each instruction is that of a statement of the text whose code has the instruction, or it is the `return` of
/// its function.
pub fn each_instruction_is_of_a_statement()
    ensures { (source : List ℕ) (m : Map) (h : IsMapped source m) (pc : ℕ) (x : Piece) → slice_get m.pieces.items pc ≡ Some x
        → IsOfStatement h.tree h.lowered h.parses.spelled.spelled.written (tokens_of source) pc x
        ⊎ IsOfReturn h.tree h.lowered h.parses.spelled.spelled.written (tokens_of source) pc x }
{}

/// A source has one text of a map at the most: no line of it could be another.
pub fn a_source_has_one_map()
    ensures { (source text other : List ℕ) → IsMapText source text → IsMapText source other → text ≡ other }
{}

/// A source that has a map is refused only where memory ran out.
pub fn a_source_with_a_map_has_no_refusal()
    ensures { (source text : List ℕ) (fault : MapFault) → IsMapText source text → IsRefusedMapping source fault → IsOutOfMemory fault }
{}
