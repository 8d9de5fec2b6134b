ghost use Rattle.std.specs.Prelude.{◌≡◌, ◌≤◌, ℕ, IsTrue, length};
ghost use Rattle.vmv_zone.specs.Bounds.{AreInReach, AreUnderTop, AreZeroOutside, AreOnVariables, AreBlank};

use crate::paths::CELLS;
use crate::tables::{blank_bounds, fill_top, free_bounds};

/// An abstract state: bounds on the differences of up to 16 variables and 0, with a mark on each variable that is
/// known not to be 0; or Bottom, which has no point.
///
/// Thing 0 is the constant 0, and things 1 to `vars` are the variables. Two states that tell the same are equal.
#[derive(Clone, Copy)]
pub struct Zone {
    pub(crate) vars: u8,
    pub(crate) bottom: bool,
    pub(crate) bounds: [i128; CELLS],
    pub(crate) marks: [bool; 18],
    pub ghost few: { vars ≤ 17 },
    pub ghost full: { length bounds ≡ 324 },
    pub ghost reach: { AreInReach bounds },
    pub ghost topped: { AreUnderTop vars bounds },
    pub ghost outside: { AreZeroOutside vars bounds },
    pub ghost sized: { length marks ≡ 18 },
    pub ghost variables: { AreOnVariables vars marks },
    pub ghost emptied: { IsTrue bottom → AreBlank bounds marks },
}

impl Zone {
    ghost use Rattle.std.specs.Prelude.{◌≡◌, ◌<◌, ℤ, IsFalse, ◌↔◌, negsuc, ◌^◌, ◌-◌, ◌≤ℤ◌};
    ghost use Rattle.vmv_zone.specs.Bounds.{top_bound};
    ghost use Rattle.vmv_zone.specs.Zone.{vars_of, IsBottom, NotBottom, bound_of, mark_of, IsTop, ChangesBound, AddsMark, IsFreed};

    /// The state of all words: top's bounds and no marks. Takes at most 16 variables.
    pub fn top(vars: u8) -> Zone
        requires { vars ≤ 16 }
        ensures vars { vars_of result ≡ vars }
        ensures top { IsTop result }
    {
        let mut zone = Zone::none(vars);
        zone.fill(vars);
        zone
    }

    /// Makes this the state of all words over so many variables: top's bounds and no marks. Takes at most 16 variables.
    pub fn fill(&mut self, vars: u8)
        requires { vars ≤ 16 }
        ensures vars { vars_of self.new ≡ vars }
        ensures top { IsTop self.new }
    {
        self.empty(vars);
        fill_top(&mut self.bounds, vars as usize);
        self.bottom = false;
    }

    /// The state with no point. Takes at most 16 variables.
    pub fn bottom(vars: u8) -> Zone
        requires { vars ≤ 16 }
        ensures vars { vars_of result ≡ vars }
        ensures bottom { IsBottom result }
    {
        Zone::none(vars)
    }

    /// The state with no point, over one variable more too.
    pub(crate) fn none(vars: u8) -> Zone
        requires { vars ≤ 17 }
        ensures vars { vars_of result ≡ vars }
        ensures bottom { IsBottom result }
    {
        Zone {
            vars,
            bottom: true,
            bounds: [0; CELLS],
            marks: [false; 18],
        }
    }

    /// Leaves the state with no point over so many variables here.
    pub fn empty(&mut self, vars: u8)
        requires { vars ≤ 17 }
        ensures vars { vars_of self.new ≡ vars }
        ensures bottom { IsBottom self.new }
    {
        blank_bounds(&mut self.bounds, self.vars as usize);
        self.marks = [false; 18];
        self.bottom = true;
        self.vars = vars;
    }

    /// How many variables the state has.
    pub fn vars(&self) -> u8
        ensures { result ≡ vars_of self.now }
    {
        self.vars
    }

    /// Whether the state is Bottom.
    pub fn is_bottom(&self) -> bool
        ensures { IsTrue result ↔ IsBottom self.now }
    {
        self.bottom
    }

    /// The bound on `i - j`.
    pub fn bound(&self, i: u8, j: u8) -> i128
        requires i { i ≤ vars_of self.now }
        requires j { j ≤ vars_of self.now }
        ensures { result ≡ bound_of self.now i j }
    {
        self.bounds[18 * i as usize + j as usize]
    }

    /// Whether the thing is marked as not 0.
    pub fn marked(&self, i: u8) -> bool
        requires { i ≤ vars_of self.now }
        ensures { result ≡ mark_of self.now i }
    {
        self.marks[i as usize]
    }

    /// The same state but for the bound on `i - j`, which is at least -2^64 and at most top's. It isn't normed.
    pub fn with_bound(mut self, i: u8, j: u8, bound: i128) -> Zone
        requires not_bottom { NotBottom self }
        requires i { i ≤ vars_of self }
        requires j { j ≤ vars_of self }
        requires low { negsuc (2 ^ 64 - 1) ≤ℤ bound }
        requires high { bound ≤ℤ top_bound i j }
        ensures { ChangesBound self result i j bound }
    {
        self.set_bound(i, j, bound);
        self
    }

    /// Sets the bound on `i - j`, which is at least -2^64 and at most top's. The state isn't normed.
    pub fn set_bound(&mut self, i: u8, j: u8, bound: i128)
        requires not_bottom { NotBottom self.old }
        requires i { i ≤ vars_of self.old }
        requires j { j ≤ vars_of self.old }
        requires low { negsuc (2 ^ 64 - 1) ≤ℤ bound }
        requires high { bound ≤ℤ top_bound i j }
        ensures { ChangesBound self.old self.new i j bound }
    {
        self.bounds[18 * i as usize + j as usize] = bound;
    }

    /// The same state with a mark on the variable `i`. It isn't normed.
    pub fn with_mark(mut self, i: u8) -> Zone
        requires not_bottom { NotBottom self }
        requires variable { 1 ≤ i }
        requires i { i ≤ vars_of self }
        ensures { AddsMark self result i }
    {
        self.set_mark(i);
        self
    }

    /// Sets a mark on the variable `i`. The state isn't normed.
    pub fn set_mark(&mut self, i: u8)
        requires not_bottom { NotBottom self.old }
        requires variable { 1 ≤ i }
        requires i { i ≤ vars_of self.old }
        ensures { AddsMark self.old self.new i }
    {
        self.marks[i as usize] = true;
    }

    /// The same state with top's bounds on the variable `i`, and no mark on it. It isn't normed.
    pub fn free(mut self, i: u8) -> Zone
        requires not_bottom { NotBottom self }
        requires variable { 1 ≤ i }
        requires i { i ≤ vars_of self }
        ensures { IsFreed self result i }
    {
        self.forget(i);
        self
    }

    /// Puts top's bounds on the variable `i`, and no mark on it. The state isn't normed.
    pub fn forget(&mut self, i: u8)
        requires not_bottom { NotBottom self.old }
        requires variable { 1 ≤ i }
        requires i { i ≤ vars_of self.old }
        ensures { IsFreed self.old self.new i }
    {
        free_bounds(&mut self.bounds, self.vars as usize, i as usize);
        self.marks[i as usize] = false;
    }
}
