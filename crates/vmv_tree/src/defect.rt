/// What a program that isn't valid does against the rules of the language, at the mention of a name.
#[derive(Clone, Copy, PartialEq, Eq, Debug, Drop)]
pub enum Defect {
    /// A variable that isn't visible there, or a callee that no outside or helper item above declares.
    UnknownName,
    /// A name that is declared a second time in its name space: at the second declaration.
    Repeated,
    /// A call with another number of arguments than its callee takes: at the callee.
    ArityWrong,
    /// An index of a loop around it that is assigned: at the assigned name.
    IndexAssigned,
    /// A parameter of an entry whose least word is above its greatest: at the parameter.
    RangeEmpty,
    /// More than the language allows: at the name of the item that has too much, or is one too many.
    Limit {
        /// The number of the limit, from 1 to 12: 1 outside names, 2 helpers and 3 entries of the program; 4 the arity
        /// of an outside name; of a procedure 5 its variables, 6 its statements and 7 the nesting of its blocks; 8 the
        /// depth of a helper; of an entry 9 its distinct numbers, 10 its call paths, 11 its unrolled steps and 12 its
        /// unrolled outside calls.
        which: u8,
        /// How many there are. A number above 1,000,000,000 is told as 1,000,000,000.
        found: u64,
        /// How many the limit allows.
        most: u64,
    },
}
