ghost use Rattle.std.specs.Prelude.{◌≡◌, ◌≢◌, ℕ, ◌≤◌, List, length};
ghost use Rattle.vmv_proof.specs.declared.proof.Proof.{Proof};
ghost use Rattle.vmv_proof_text.specs.Faults.{IsProofText, SyntaxAt, RangeAt};
ghost use Rattle.vmv_proof_text.specs.Text.{proof_text};
ghost use Rattle.vmv_proof_read.specs.declared.fault.ProofFault.{ProofFault};
ghost use Rattle.vmv_proof_read.specs.declared.fault.ProofFault.TheVariants.{Memory};
ghost use Rattle.vmv_proof_read.specs.Why.{IsWhy, AreFew};

/// A text is that of one proof at most.
pub fn a_text_is_of_one_proof()
    ensures { (text : List ℕ) (p q : Proof) → IsProofText text p → IsProofText text q → p ≡ q }
{}

/// The canonical text of a proof that some text has is a text of it too, and no text of it is shorter: what is written of a
/// proof that was read is read as the same one.
pub fn written_proofs_are_read()
    ensures told { (text : List ℕ) (p : Proof) → IsProofText text p → IsProofText (proof_text p) p }
    ensures short { (text : List ℕ) (p : Proof) → IsProofText text p → length (proof_text p) ≤ length text }
{}

/// A text departs at one line only, and there in one way, and the text of a proof doesn't.
pub fn a_text_departs_once()
    ensures once { (text : List ℕ) (f g : ProofFault) → IsWhy text f → IsWhy text g → f ≢ Memory → g ≢ Memory → f ≡ g }
    ensures syntax { (text : List ℕ) (n : ℕ) (p : Proof) → SyntaxAt text n → IsProofText text p → ⊥ }
    ensures range { (text : List ℕ) (n : ℕ) (p : Proof) → RangeAt text n → IsProofText text p → ⊥ }
{}

/// Numbers of 32 bits count what a proof has that some text tells.
pub fn proofs_of_texts_are_few()
    ensures { (text : List ℕ) (p : Proof) → IsProofText text p → AreFew p }
{}
