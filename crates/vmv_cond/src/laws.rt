ghost use Rattle.std.specs.Prelude.{◌≡◌};
ghost use Rattle.vmv_cond.specs.declared.cond.Cond.{Cond};
ghost use Rattle.vmv_cond.specs.declared.cond.Piece.{Piece};
ghost use Rattle.vmv_cond.specs.Cond.{IsSubset, IsMeet};
ghost use Rattle.vmv_cond.specs.Piece.{IsOutside, IsInside};

/// Two conditions that hold the same words are equal.
pub fn same_words_same_condition()
    ensures { (a b : Cond) → IsSubset a b → IsSubset b a → a ≡ b }
{}

/// Fewer words on either side leave fewer words in common.
pub fn meet_is_monotone()
    ensures { (a b c d m n : Cond) → IsSubset a b → IsSubset c d → IsMeet a c m → IsMeet b d n → IsSubset m n }
{}

/// Fewer words leave fewer words outside a piece.
pub fn cut_is_monotone()
    ensures { (a b m n : Cond) (piece : Piece) → IsSubset a b → IsOutside a piece m → IsOutside b piece n → IsSubset m n }
{}

/// Fewer words leave fewer words in a piece.
pub fn within_is_monotone()
    ensures { (a b m n : Cond) (piece : Piece) → IsSubset a b → IsInside a piece m → IsInside b piece n → IsSubset m n }
{}
