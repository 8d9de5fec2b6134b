use crate::Name;

/// The names of a helper's parameters, or of a body's variables, in order.
pub type Names = sqlite_items::Items<Name>;

/// The parameters of an entry, in order.
pub type Params = sqlite_items::Items<Param>;

/// The arguments of a call, in order.
pub type Args = sqlite_items::Items<Operand>;

/// Statements in a row.
pub type Block = sqlite_items::Items<Stmt>;

/// The items of a program, in text order.
pub type Items = sqlite_items::Items<Item>;

/// What a statement reads: a literal word or a variable.
#[derive(Clone, Copy, PartialEq, Eq, Debug, Drop)]
pub enum Operand {
    Lit(i64),
    Var(Name),
}

/// A comparison of two operands.
#[derive(Clone, Copy, PartialEq, Eq, Debug, Drop)]
pub enum Rel {
    Equal,
    Unequal,
    Less,
    AtMost,
    Greater,
    AtLeast,
}

/// An operation on two words. It fails where its result isn't a word, where it divides by 0, and at the least word
/// divided by -1, the remainder too. Division truncates toward zero, and a remainder has the dividend's sign.
#[derive(Clone, Copy, PartialEq, Eq, Debug, Drop)]
pub enum Op {
    Add,
    Sub,
    Mul,
    Div,
    Rem,
}

/// A comparison that an assert or an `if` makes.
#[derive(Clone, Copy, PartialEq, Eq, Debug, Drop)]
pub struct Test {
    pub left: Operand,
    pub rel: Rel,
    pub right: Operand,
}

/// A statement.
#[derive(Debug, Drop)]
pub enum Stmt {
    /// `to = from;`
    Set {
        to: Name,
        from: Operand,
    },
    /// `to = left op right;`
    Arith {
        to: Name,
        op: Op,
        left: Operand,
        right: Operand,
    },
    /// `to = callee(args);`, of an outside function or a helper.
    Call {
        to: Name,
        callee: Name,
        args: Args,
    },
    /// `assert test;`
    Assert {
        test: Test,
    },
    /// `if test { first } else { second }`. An absent second part is an empty one.
    If {
        test: Test,
        first: Block,
        second: Block,
    },
    /// `repeat index to bound cap cap { body }`: the body for each index from 0 to the bound minus 1. A bound above the
    /// cap, which is 0 or more, fails.
    Repeat {
        index: Name,
        bound: Operand,
        cap: i64,
        body: Block,
    },
}

/// What a procedure does: its variables, all 0 at the start, its statements, and what it returns.
#[derive(Debug, Drop)]
pub struct Body {
    pub vars: Names,
    pub block: Block,
    pub result: Operand,
}

/// A parameter of an entry, which is run for every word from `lo` to `hi`, both included.
#[derive(Clone, Copy, PartialEq, Eq, Debug, Drop)]
pub struct Param {
    pub name: Name,
    pub lo: i64,
    pub hi: i64,
}

/// What a program declares.
#[derive(Debug, Drop)]
pub enum Item {
    /// An outside function, with so many arguments, 0 or more. Each call of it answers any word.
    Outside {
        name: Name,
        arity: i64,
    },
    /// A procedure that entries and the helpers below it call.
    Helper {
        name: Name,
        params: Names,
        body: Body,
    },
    /// A procedure that is run for every value of its parameters.
    Entry {
        name: Name,
        params: Params,
        body: Body,
    },
}

/// A program as its text has it, valid or not.
#[derive(Debug, Drop)]
pub struct Program {
    pub items: Items,
}
