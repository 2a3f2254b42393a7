//! Laws of programs, as functions that do nothing: what each ensures is the law.
ghost use Rattle.std.specs.Prelude.{◌≡◌, ℕ, List, false};
ghost use Rattle.asl_code.specs.declared.image.Image.{Image};
ghost use Rattle.asl_lock_forest.specs.declared.node.Node.TheVariants as node;
ghost use Rattle.asl_mode_lanes.specs.Mode.{AreCompatible, AtMost};
ghost use Rattle.asl_mode_lanes.specs.declared.mode.Mode.{Mode};
ghost use Rattle.asl_mode_lanes.specs.declared.mode.Mode.TheVariants.{IX};
ghost use Rattle.asl_compile.specs.Compiled.{Compiles};
ghost use Rattle.asl_map.specs.Mapped.{IsMapped};
ghost use Rattle.asl_map.specs.declared.map.Map.{Map};
ghost use Rattle.asl_c_programs.specs.Locks.{function_of_list};
ghost use Rattle.asl_c_programs.specs.Nodes.{AsksForIntention};
ghost use Rattle.asl_c_programs.specs.Tables.{IsSection, is_of_class, is_root, some_list_has};
ghost use Rattle.asl_c_programs.specs.declared.entries.SectionEntry.{SectionEntry};

use asl_code::bodies_part_the_code;
use asl_lower::{numbers_follow_the_code, one_lowering, sections_are_listed};
use asl_machine::requests_are_least;
use asl_syntax::laws::a_text_has_one_tree;

/// Where no list has a lock on a class, or on the root, requests ask there for no more than IX; and no two such modes clash.
pub fn unnamed_nodes_are_asked_for_intention()
    ensures class { (i : Image) (class : ℕ) → some_list_has (is_of_class class) i ≡ false → AsksForIntention i (node.Class class) }
    ensures root { (i : Image) → some_list_has is_root i ≡ false → AsksForIntention i node.Root }
    ensures together { (a b : Mode) → AtMost a IX → AtMost b IX → AreCompatible a b }
{
    requests_are_least();
}

/// In the program of a source the list of section n is list n, and the map says of which function it is: the one by which the class
/// of an expression of that list is found.
pub fn lists_are_of_the_sections_of_their_numbers()
    ensures list { (source : List ℕ) (k n : ℕ) (image : Image) (s : SectionEntry) → Compiles source k image → IsSection image n s → s.list ≡ n }
    ensures function { (source : List ℕ) (k n : ℕ) (image : Image) (m : Map) (s : SectionEntry) → Compiles source k image → IsMapped source m
        → IsSection image n s → function_of_list m n ≡ s.function }
{
    numbers_follow_the_code();
    sections_are_listed();
    one_lowering();
    a_text_has_one_tree();
    bodies_part_the_code();
}
