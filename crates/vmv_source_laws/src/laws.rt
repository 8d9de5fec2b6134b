ghost use Rattle.std.specs.Prelude.{◌≡◌, ◌≢◌, ℕ, List};
ghost use Rattle.vmv_tree.specs.declared.defect.Defect.{Defect};
ghost use Rattle.vmv_tree.specs.Tree.{Item};
ghost use Rattle.vmv_tree.specs.Valid.{FirstDefect};
ghost use Rattle.vmv_source.specs.declared.fault.TextFault.{TextFault};
ghost use Rattle.vmv_source.specs.declared.fault.TextFault.TheVariants as fault;
ghost use Rattle.vmv_source.specs.Faults.{IsTextFault};

/// A program has one first defect, at one mention. Of a limit one count is told.
pub fn a_program_has_one_first_defect()
    ensures { (program : List Item) (m n : ℕ) (d e : Defect) → FirstDefect program m d → FirstDefect program n e → (m ≡ n) × (d ≡ e) }
{}

/// A text has one fault, at one place, but for want of memory.
pub fn a_text_has_one_fault()
    ensures { (text : List ℕ) (one other : TextFault) → IsTextFault text one → IsTextFault text other → one ≢ fault.Memory → other ≢ fault.Memory → one ≡ other }
{}
