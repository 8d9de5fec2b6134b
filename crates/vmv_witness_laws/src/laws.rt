ghost use Rattle.std.specs.Prelude.{◌≡◌, ◌≢◌, ◌≤◌, ℕ, List, Result, length};
ghost use Rattle.vmv_tree.specs.Tree.{Item};
ghost use Rattle.vmv_tree.specs.Valid.{Valid};
ghost use Rattle.vmv_snapshot.specs.declared.code.ProcId.{ProcId};
ghost use Rattle.vmv_witness.specs.declared.witness.Witness.{Witness};
ghost use Rattle.vmv_witness.specs.declared.fault.WitnessFault.{WitnessFault};
ghost use Rattle.vmv_witness.specs.declared.fault.WitnessFault.TheVariants as fault;
ghost use Rattle.vmv_witness.specs.declared.fitting.Unfit.{Unfit};
ghost use Rattle.vmv_witness.specs.Text.{IsTextOf};
ghost use Rattle.vmv_witness.specs.Faults.{IsWhy};
ghost use Rattle.vmv_witness.specs.Fit.{Fits};

/// A text is that of one witness, whatever the size of the numbers of the witness is.
pub fn a_witness_text_has_one_witness()
    ensures { (text : List ℕ) (w v : Witness) → IsTextOf text w → IsTextOf text v → w ≡ v }
{}

/// What is against a text is one thing, at one line, but for want of memory.
pub fn a_witness_text_is_at_fault_once()
    ensures { (text : List ℕ) (one other : WitnessFault) → IsWhy text one → IsWhy text other → one ≢ fault.Memory → other ≢ fault.Memory → one ≡ other }
{}

/// A text of a witness that isn't too long has no fault, so that its reading can fail for want of memory alone.
pub fn a_witness_text_has_no_fault()
    ensures { (text : List ℕ) (w : Witness) (why : WitnessFault) → length text ≤ 1048576 → IsTextOf text w → IsWhy text why → why ≡ fault.Memory }
{}

/// A witness is one for one entry of a valid program, or isn't one for the program for one reason.
pub fn a_witness_fits_in_one_way()
    ensures { (program : List Item) (w : Witness) (one other : Result ProcId Unfit) → Valid program → Fits program w one → Fits program w other → one ≡ other }
{}
