ghost use Rattle.std.specs.Prelude.{◌≡◌, ℕ, List, Some, length, slice_get};
ghost use Rattle.vmv_tree.specs.Tree.{Item};
ghost use Rattle.vmv_text.specs.Grammar.{IsText};
ghost use Rattle.vmv_text.specs.Faults.{HasFault};
ghost use Rattle.vmv_text.specs.Tokens.{tokens};
ghost use Rattle.vmv_text.specs.Mentioned.{names_in, mentioned, program_mentions, HasMention};

/// No text is that of two programs.
pub fn one_program()
    ensures { (bytes : List ℕ) (p q : List Item) → IsText bytes p → IsText bytes q → p ≡ q }
{}

/// No text has its syntax fault at two places.
pub fn one_fault()
    ensures { (bytes : List ℕ) (line column line' column' : ℕ) → HasFault bytes line column → HasFault bytes line' column' → (line ≡ line') × (column ≡ column') }
{}

/// A text that has a syntax fault is that of no program.
pub fn no_program_at_fault()
    ensures { (bytes : List ℕ) (line column : ℕ) (p : List Item) → HasFault bytes line column → IsText bytes p → ⊥ }
{}

/// The names of a text of a program, in order, are those that its tree mentions, which are as many as its mentions.
pub fn names_are_mentions()
    ensures order { (bytes : List ℕ) (p : List Item) → IsText bytes p → names_in (tokens bytes) ≡ mentioned p }
    ensures count { (p : List Item) → length (mentioned p) ≡ program_mentions p }
{}

/// What stands at the place of a mention is the name that the tree mentions there.
pub fn mention_has_its_name()
    ensures { (bytes : List ℕ) (p : List Item) (mention line column : ℕ) → IsText bytes p → (at : HasMention bytes mention line column) → slice_get (mentioned p) mention ≡ Some at.name }
{}
