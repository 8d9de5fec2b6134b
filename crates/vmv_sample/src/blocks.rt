ghost use Rattle.std.specs.Prelude.{◌≡◌, [], ◌∷◌, pos, codes, IsTrue, IfOk};
ghost use Rattle.vmv_tree.specs.declared.tree.Operand.TheVariants.{Lit, Var};
ghost use Rattle.vmv_tree.specs.declared.tree.Op.TheVariants.{Add};
ghost use Rattle.vmv_tree.specs.declared.tree.Rel.TheVariants.{Less, AtLeast};
ghost use Rattle.vmv_tree.specs.Tree.{compute, call, assert, repeat};
ghost use Rattle.vmv_tree.specs.Names.{is_name};
ghost use Rattle.vmv_tree.specs.View.{stmt_of, block_of, body_of};
ghost use Rattle.vmv_sample.specs.Sample.{successor_body, turn, entry_body};

use crate::names::{name, var};
use std::alloc::{AllocError, Global};
use vmv_tree::{Args, Block, Body, Names, Op, Operand, Rel, Stmt, Test};

/// `to = of + 1;`
#[tactic(auto, using(vmv_tree::specs::View::views))]
fn successor(to: &[u8], of: &[u8]) -> Stmt
    requires to { IsTrue (is_name to.now) }
    requires of { IsTrue (is_name of.now) }
    ensures { stmt_of result ≡ compute to.now Add (Var of.now) (Lit (pos 1)) }
{
    Stmt::Arith {
        to: name(to),
        op: Op::Add,
        left: var(of),
        right: Operand::Lit(1),
    }
}

/// `assert left rel right;`
#[tactic(auto, using(vmv_tree::specs::View::views))]
fn claim(left: Operand, rel: Rel, right: Operand) -> Stmt
    ensures { stmt_of result ≡ assert (record { left = left; rel = rel; right = right }) }
{
    Stmt::Assert {
        test: Test { left, rel, right },
    }
}

/// `q = a();`
#[tactic(auto, using(vmv_tree::specs::View::views))]
fn outside_call(alloc: Global) -> Stmt
    ensures { stmt_of result ≡ call (codes "q") (codes "a") [] }
{
    Stmt::Call {
        to: name(b"q"),
        callee: name(b"a"),
        args: Args::new(alloc),
    }
}

/// `r = h(q);`
#[tactic(auto, using(vmv_tree::specs::View::views))]
fn helper_call(alloc: Global) -> Result<Stmt, AllocError>
    ensures { IfOk result (λ stmt. stmt_of stmt ≡ call (codes "r") (codes "h") (Var (codes "q") ∷ [])) }
{
    let mut args = Args::new(alloc);
    args.push(var(b"q"))?;
    Ok(Stmt::Call {
        to: name(b"r"),
        callee: name(b"h"),
        args,
    })
}

/// The turn of the loop of an entry.
#[tactic(auto, using(vmv_tree::specs::View::views))]
fn turn(alloc: Global) -> Result<Block, AllocError>
    ensures { IfOk result (λ block. block_of block ≡ turn) }
{
    let mut block = Block::new(alloc);
    block.push(claim(var(b"i"), Rel::Less, var(b"n")))?;
    block.push(successor(b"s", b"s"))?;
    Ok(block)
}

/// The loop of an entry.
#[tactic(auto, using(vmv_tree::specs::View::views))]
fn repeated(alloc: Global) -> Result<Stmt, AllocError>
    ensures { IfOk result (λ stmt. stmt_of stmt ≡ repeat (codes "i") (Var (codes "n")) (pos 20) turn) }
{
    let body = turn(alloc)?;
    Ok(Stmt::Repeat {
        index: name(b"i"),
        bound: var(b"n"),
        cap: 20,
        body,
    })
}

/// The statements of an entry that asks for an answer of at least so much.
#[tactic(auto, using(vmv_tree::specs::View::views))]
fn entry_block(alloc: Global, least: i64) -> Result<Block, AllocError>
    ensures { IfOk result (λ block. block_of block ≡ (entry_body least).block) }
{
    let mut block = Block::new(alloc);
    block.push(outside_call(alloc))?;
    block.push(claim(var(b"q"), Rel::AtLeast, Operand::Lit(least)))?;
    block.push(helper_call(alloc)?)?;
    block.push(repeated(alloc)?)?;
    Ok(block)
}

/// The variables of an entry.
#[tactic(auto, using(vmv_tree::specs::View::views))]
fn entry_vars(alloc: Global) -> Result<Names, AllocError>
    ensures { IfOk result (λ vars. vars ≡ codes "q" ∷ codes "r" ∷ codes "s" ∷ []) }
{
    let mut vars = Names::new(alloc);
    vars.push(name(b"q"))?;
    vars.push(name(b"r"))?;
    vars.push(name(b"s"))?;
    Ok(vars)
}

/// What an entry does that asks for an answer of at least so much.
#[tactic(auto, using(vmv_tree::specs::View::views))]
pub(crate) fn entry_body(alloc: Global, least: i64) -> Result<Body, AllocError>
    ensures { IfOk result (λ body. body_of body ≡ entry_body least) }
{
    let vars = entry_vars(alloc)?;
    let block = entry_block(alloc, least)?;
    Ok(Body {
        vars,
        block,
        result: var(b"s"),
    })
}

/// A list of one name.
#[tactic(auto, using(vmv_tree::specs::View::views))]
pub(crate) fn only_name(alloc: Global, bytes: &[u8]) -> Result<Names, AllocError>
    requires { IsTrue (is_name bytes.now) }
    ensures { IfOk result (λ names. names ≡ bytes.now ∷ []) }
{
    let mut names = Names::new(alloc);
    names.push(name(bytes))?;
    Ok(names)
}

/// What the helper does.
#[tactic(auto, using(vmv_tree::specs::View::views))]
pub(crate) fn successor_body(alloc: Global) -> Result<Body, AllocError>
    ensures { IfOk result (λ body. body_of body ≡ successor_body) }
{
    let vars = only_name(alloc, b"y")?;
    let mut block = Block::new(alloc);
    block.push(successor(b"y", b"x"))?;
    Ok(Body {
        vars,
        block,
        result: var(b"y"),
    })
}
