ghost use Rattle.std.specs.Prelude.{◌≡◌, ℕ, ◌+◌, min, max};
ghost use Rattle.vmv_tree.specs.View.{stmt_of, block_of};
ghost use Rattle.vmv_text.specs.Sizes.{AreSizes, none, simple, beside, choosing, repeating, sized, sized_after};

use vmv_tree::Stmt;

/// A greater number is told as this one.
pub(crate) const MOST: u64 = 1_000_000_000;

/// How large some statements are, each number at most `MOST`.
#[derive(Clone, Copy, Debug, Drop)]
pub(crate) struct Sizes {
    /// Loops.
    pub loops: u64,
    /// Statements, nested ones counted.
    pub statements: u64,
    /// How deep blocks stand in one another.
    pub nesting: u64,
}

/// A sum, at most `MOST`.
pub(crate) fn sum(a: u64, b: u64) -> u64
    ensures { result ≡ min (a + b) 1000000000 }
{
    a.saturating_add(b).min(MOST)
}

impl Sizes {
    /// No statements.
    pub(crate) fn none() -> Sizes
        ensures exact { result ≡ none }
        ensures sizes { AreSizes result 0 0 0 }
    {
        Sizes {
            loops: 0,
            statements: 0,
            nesting: 0,
        }
    }

    /// A statement that has no block.
    pub(crate) fn simple() -> Sizes
        ensures { result ≡ simple }
    {
        Sizes {
            loops: 0,
            statements: 1,
            nesting: 0,
        }
    }

    /// These statements and those.
    pub(crate) fn beside(&self, other: &Sizes) -> Sizes
        ensures exact { result ≡ beside self.now other.now }
        ensures sizes { (l l' s s' n n' : ℕ) → AreSizes self.now l s n → AreSizes other.now l' s' n' → AreSizes result (l + l') (s + s') (max n n') }
    {
        Sizes {
            loops: sum(self.loops, other.loops),
            statements: sum(self.statements, other.statements),
            nesting: self.nesting.max(other.nesting),
        }
    }

    /// An `if` with these statements in its parts.
    pub(crate) fn choosing(&self) -> Sizes
        ensures exact { result ≡ choosing self.now }
        ensures sizes { (l s n : ℕ) → AreSizes self.now l s n → AreSizes result l (1 + s) (1 + n) }
    {
        Sizes {
            loops: self.loops,
            statements: sum(1, self.statements),
            nesting: sum(1, self.nesting),
        }
    }

    /// A loop with these statements in its body.
    pub(crate) fn repeating(&self) -> Sizes
        ensures exact { result ≡ repeating self.now }
        ensures sizes { (l s n : ℕ) → AreSizes self.now l s n → AreSizes result (1 + l) (1 + s) (1 + n) }
    {
        Sizes {
            loops: sum(1, self.loops),
            statements: sum(1, self.statements),
            nesting: sum(1, self.nesting),
        }
    }

    /// One more statement without a block.
    pub(crate) fn with_simple(&self) -> Sizes
        ensures { (l s n : ℕ) → AreSizes self.now l s n → AreSizes result l (1 + s) n }
    {
        Sizes {
            loops: self.loops,
            statements: sum(1, self.statements),
            nesting: self.nesting,
        }
    }

    /// One more `if`, whose block stands so deep.
    pub(crate) fn with_choice(&self, depth: u64) -> Sizes
        ensures { (l s n d : ℕ) → AreSizes self.now l s n → depth ≡ d → AreSizes result l (1 + s) (max n d) }
    {
        Sizes {
            loops: self.loops,
            statements: sum(1, self.statements),
            nesting: self.nesting.max(depth.min(MOST)),
        }
    }

    /// One more loop, whose block stands so deep.
    pub(crate) fn with_loop(&self, depth: u64) -> Sizes
        ensures { (l s n d : ℕ) → AreSizes self.now l s n → depth ≡ d → AreSizes result (1 + l) (1 + s) (max n d) }
    {
        Sizes {
            loops: sum(1, self.loops),
            statements: sum(1, self.statements),
            nesting: self.nesting.max(depth.min(MOST)),
        }
    }
}

/// How large a statement is.
#[cycle(sizing)]
#[tactic(auto, using(vmv_tree::specs::View::views))]
pub(crate) fn stmt_sizes(stmt: &Stmt) -> Sizes
    ensures { result ≡ sized (stmt_of stmt.now) }
{
    match stmt {
        Stmt::Set { .. } | Stmt::Arith { .. } | Stmt::Call { .. } | Stmt::Assert { .. } => {
            Sizes::simple()
        }
        Stmt::If { first, second, .. } => {
            let first = block_sizes(first.as_slice());
            let second = block_sizes(second.as_slice());
            first.beside(&second).choosing()
        }
        Stmt::Repeat { body, .. } => block_sizes(body.as_slice()).repeating(),
    }
}

/// How large statements in a row are.
#[cycle(sizing)]
#[tactic(auto, using(vmv_tree::specs::View::views))]
pub(crate) fn block_sizes(block: &[Stmt]) -> Sizes
    ensures { result ≡ sized_after none (block_of block.now) }
{
    let mut all = Sizes::none();
    for stmt in block {
        all = all.beside(&stmt_sizes(stmt));
    }
    all
}
