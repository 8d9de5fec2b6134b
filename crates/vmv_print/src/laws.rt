ghost use Rattle.std.specs.Prelude.{◌≡◌, ◌≤◌, ℕ, List, length};
ghost use Rattle.vmv_tree.specs.Tree.{Item};
ghost use Rattle.vmv_tree.specs.Valid.{Valid};
ghost use Rattle.vmv_text.specs.Grammar.{IsText};
ghost use Rattle.vmv_source.specs.declared.fault.TextFault.{TextFault};
ghost use Rattle.vmv_source.specs.declared.fault.TextFault.TheVariants as fault;
ghost use Rattle.vmv_source.specs.Faults.{IsTextFault};
ghost use Rattle.vmv_print.specs.Canonical.{canonical};
ghost use Rattle.vmv_print.specs.Written.{IsWritten};

/// The canonical text of a program whose names are names, whose literals and range ends are words and whose arities and
/// caps are counts is a text of that program.
pub fn canonical_text_is_read()
    ensures { (program : List Item) → IsWritten program → IsText (canonical program) program }
{}

/// A program that has a text is one that can be written.
pub fn program_of_a_text_is_written()
    ensures { (bytes : List ℕ) (program : List Item) → IsText bytes program → IsWritten program }
{}

/// The canonical text of a valid program that has a text is read again, unless it is too long or memory runs out.
pub fn canonical_text_has_no_fault()
    ensures { (bytes : List ℕ) (program : List Item) (why : TextFault) → IsText bytes program → Valid program → length (canonical program) ≤ 1048576 → IsTextFault (canonical program) why → why ≡ fault.Memory }
{}
