use vmv_tree::{Name, Op, Rel};

/// A helper or an entry, by its number from 0 among both in text order.
#[derive(Clone, Copy, PartialEq, Eq, Debug, Drop)]
pub struct ProcId(pub u16);

/// An outside name, by its number from 0 in text order.
#[derive(Clone, Copy, PartialEq, Eq, Debug, Drop)]
pub struct OutsideId(pub u16);

/// A variable of a procedure, by its number from 1: the parameters, the `var` names, then the index and the bound of
/// each repeat in text order.
#[derive(Clone, Copy, PartialEq, Eq, Debug, Drop)]
pub struct Slot(pub u8);

/// A site of a procedure, by its number from 1 in text order: an assert, an arithmetic statement or the bound of a repeat.
#[derive(Clone, Copy, PartialEq, Eq, Debug, Drop)]
pub struct SiteId {
    pub proc: ProcId,
    pub index: u32,
}

/// The arguments of a call, in order.
pub type CodeArgs = sqlite_items::Items<CodeOperand>;

/// Resolved statements in a row.
pub type CodeBlock = sqlite_items::Items<CodeStmt>;

/// What a statement reads: a literal word or a variable.
#[derive(Clone, Copy, PartialEq, Eq, Debug, Drop)]
pub enum CodeOperand {
    Lit(i64),
    Var(Slot),
}

/// A comparison that an assert or an `if` makes.
#[derive(Clone, Copy, PartialEq, Eq, Debug, Drop)]
pub struct CodeTest {
    pub left: CodeOperand,
    pub rel: Rel,
    pub right: CodeOperand,
}

/// A statement without other statements in it, and no call of a helper. Sites are numbered from 1 in a procedure.
#[derive(Debug, Drop)]
pub enum Simple {
    /// A copy.
    Set {
        to: Slot,
        from: CodeOperand,
    },
    /// An arithmetic statement.
    Arith {
        to: Slot,
        op: Op,
        left: CodeOperand,
        right: CodeOperand,
        site: u32,
    },
    /// A call of an outside name.
    Ask {
        to: Slot,
        callee: Name,
        args: CodeArgs,
    },
    /// An assert.
    Assert {
        test: CodeTest,
        site: u32,
    },
}

/// A resolved statement.
#[cycle(code)]
#[derive(Debug, Drop)]
pub enum CodeStmt {
    /// A simple statement.
    Plain(Simple),
    /// A call of a helper.
    Help {
        to: Slot,
        callee: ProcId,
        args: CodeArgs,
    },
    /// A choice. An absent second part is an empty one.
    If {
        test: CodeTest,
        first: CodeBlock,
        second: CodeBlock,
    },
    /// A loop.
    Repeat(CodeRepeat),
}

/// A loop: the body for each index from 0 to the bound minus 1. A bound above the cap fails at the site.
#[cycle(code)]
#[derive(Debug, Drop)]
pub struct CodeRepeat {
    pub index: Slot,
    /// The bound's own slot, into which the bound is copied once.
    pub slot: Slot,
    pub bound: CodeOperand,
    pub cap: i64,
    pub site: u32,
    pub body: CodeBlock,
}

/// A resolved procedure.
#[derive(Debug, Drop)]
pub struct Code {
    /// The number of its slots.
    pub vars: u8,
    pub block: CodeBlock,
    pub result: CodeOperand,
}
