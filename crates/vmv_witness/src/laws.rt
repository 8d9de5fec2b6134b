ghost use Rattle.std.specs.Prelude.{◌≡◌, ℕ, List};
ghost use Rattle.vmv_witness.specs.declared.witness.Witness.{Witness};
ghost use Rattle.vmv_witness.specs.Text.{AreWords, IsTextOf};
ghost use Rattle.vmv_witness.specs.Faults.{SyntaxAt, RangeAt};

/// A text is that of one witness at most, so that what is written of a witness is read as the same one.
pub fn a_text_is_of_one_witness()
    ensures { (text : List ℕ) (w v : Witness) → AreWords w → AreWords v → IsTextOf text w → IsTextOf text v → w ≡ v }
{}

/// A text departs at one line only, and there in one way.
pub fn a_text_departs_once()
    ensures syntax { (text : List ℕ) (m n : ℕ) → SyntaxAt text m → SyntaxAt text n → m ≡ n }
    ensures range { (text : List ℕ) (m n : ℕ) → RangeAt text m → RangeAt text n → m ≡ n }
    ensures apart { (text : List ℕ) (m n : ℕ) → SyntaxAt text m → RangeAt text n → ⊥ }
{}
