ghost use Rattle.std.specs.Prelude.{◌≡◌, ℕ, List, Result};
ghost use Rattle.io_edge.specs.declared.got.Got.{Got};
ghost use Rattle.io_edge.specs.declared.line_fault.LineFault.{LineFault};
ghost use Rattle.io_edge.specs.Lines.{CutsInto, whole_lines, unfinished_line};
ghost use Rattle.io_edge.specs.Reading.{AnswersInput, IsOfInput};

/// All bytes are cut into lines and a rest, and in one way.
pub fn bytes_are_cut_in_one_way()
    ensures cut { (bytes : List ℕ) → CutsInto bytes (whole_lines bytes) (unfinished_line bytes) }
    ensures one { (bytes : List ℕ) (lines : List (List ℕ)) (rest : List ℕ) → CutsInto bytes lines rest
        → (whole_lines bytes ≡ lines) × (unfinished_line bytes ≡ rest) }
{}

/// Each input has one answer that is neither a fault of the source nor want of memory.
pub fn inputs_have_one_answer()
    ensures some { (input : List ℕ) → (answer : Result Got LineFault) × IsOfInput answer × AnswersInput input answer }
    ensures one { (input : List ℕ) (a b : Result Got LineFault) → IsOfInput a → IsOfInput b
        → AnswersInput input a → AnswersInput input b → a ≡ b }
{}
