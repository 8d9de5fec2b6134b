ghost use Rattle.std.specs.Prelude.{◌≡◌, ◌≤◌, ℕ, List, length};
ghost use Rattle.vmv_tree.specs.Tree.{Item};
ghost use Rattle.vmv_tree.specs.Valid.{Valid};
ghost use Rattle.vmv_text.specs.Grammar.{IsText};
ghost use Rattle.vmv_source.specs.declared.fault.TextFault.{TextFault};
ghost use Rattle.vmv_source.specs.declared.fault.TextFault.TheVariants as fault;
ghost use Rattle.vmv_source.specs.Faults.{IsTextFault};

/// A text of a valid program that isn't too long has no fault, so that its reading can fail for want of memory alone.
pub fn valid_texts_have_no_fault()
    ensures { (bytes : List ℕ) (p : List Item) (why : TextFault) → length bytes ≤ 1048576 → IsText bytes p → Valid p → IsTextFault bytes why → why ≡ fault.Memory }
{}
