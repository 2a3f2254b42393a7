//! Lines of the canonical text.
ghost use Rattle.asl_code.specs.declared.lock.Lock.TheVariants as lock;
ghost use Rattle.asl_assembler.specs.declared.line.Line.TheVariants as line;
ghost use Rattle.std.specs.Prelude.{◌≡◌, ◌≤◌, [], ◌∷◌, ◌++◌, length, codes};
ghost use Rattle.asl_assembler.specs.Words.{Short};
ghost use Rattle.asl_assembler.specs.Canonical.{operands};

use crate::line_piece::Piece;

/// The line of a word and a number.
#[inline(always)]
pub(crate) fn short_line(line: &mut Piece, word: &[u8], number: u16)
    requires empty { line.old ≡ [] }
    requires short { length word.now ≤ 6 }
    ensures { line.new ≡ word.now ++ operands (codes ", ") (Short number ∷ []) }
{
    line.byte(b'\n');
    line.number(u32::from(number));
    line.byte(b' ');
    line.word(word);
}
