ghost use Rattle.std.specs.Prelude.{◌≡◌};
ghost use Rattle.vmv_text.specs.declared.token.Token.TheVariants.{Comma, CloseParen};
ghost use Rattle.vmv_text.specs.Grammar.{IsName, IsOperand, IsParam};
ghost use Rattle.vmv_text.specs.Symbols.{as_token};
ghost use Rattle.vmv_text.specs.Reading.{Reads, CommasTo, Listed};

use crate::cursor::Cursor;
use crate::fault::Fault;
use crate::symbol::Symbol;
use std::alloc::Global;
use vmv_tree::{Args, Names, Param, Params};

impl Cursor<'_> {
    /// Names with commas between them, and the token behind them.
    pub fn names_to(&mut self, alloc: Global, last: Symbol) -> Result<Names, Fault>
        requires { as_token last ≡ Comma → ⊥ }
        ensures { Reads (CommasTo (as_token last) IsName) result self.old self.new }
    {
        let mut names = Names::new(alloc);
        loop {
            let name = self.name()?;
            names.push(name)?;
            if !self.takes(Symbol::Comma) {
                self.expect(last)?;
                return Ok(names);
            }
        }
    }

    /// Operands with commas between them, and the closing parenthesis.
    fn some_operands(&mut self, alloc: Global) -> Result<Args, Fault>
        ensures { Reads (CommasTo CloseParen IsOperand) result self.old self.new }
    {
        let mut args = Args::new(alloc);
        loop {
            let arg = self.operand()?;
            args.push(arg)?;
            if !self.takes(Symbol::Comma) {
                self.expect(Symbol::CloseParen)?;
                return Ok(args);
            }
        }
    }

    fn param(&mut self) -> Result<Param, Fault>
        ensures { Reads IsParam result self.old self.new }
    {
        let name = self.name()?;
        self.expect(Symbol::Colon)?;
        let lo = self.lit()?;
        self.expect(Symbol::Dots)?;
        let hi = self.lit()?;
        Ok(Param { name, lo, hi })
    }

    /// Parameters with commas between them, and the closing parenthesis.
    fn some_params(&mut self, alloc: Global) -> Result<Params, Fault>
        ensures { Reads (CommasTo CloseParen IsParam) result self.old self.new }
    {
        let mut params = Params::new(alloc);
        loop {
            let param = self.param()?;
            params.push(param)?;
            if !self.takes(Symbol::Comma) {
                self.expect(Symbol::CloseParen)?;
                return Ok(params);
            }
        }
    }

    /// A helper's parameters, and the closing parenthesis.
    pub fn names(&mut self, alloc: Global) -> Result<Names, Fault>
        ensures { Reads (Listed IsName) result self.old self.new }
    {
        if self.takes(Symbol::CloseParen) {
            return Ok(Names::new(alloc));
        }
        self.names_to(alloc, Symbol::CloseParen)
    }

    /// The arguments of a call, and the closing parenthesis.
    pub(crate) fn operands(&mut self, alloc: Global) -> Result<Args, Fault>
        ensures { Reads (Listed IsOperand) result self.old self.new }
    {
        if self.takes(Symbol::CloseParen) {
            return Ok(Args::new(alloc));
        }
        self.some_operands(alloc)
    }

    /// An entry's parameters, and the closing parenthesis.
    pub fn params(&mut self, alloc: Global) -> Result<Params, Fault>
        ensures { Reads (Listed IsParam) result self.old self.new }
    {
        if self.takes(Symbol::CloseParen) {
            return Ok(Params::new(alloc));
        }
        self.some_params(alloc)
    }
}
