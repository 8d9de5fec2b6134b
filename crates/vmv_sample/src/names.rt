ghost use Rattle.std.specs.Prelude.{◌≡◌, ◌++◌, ◌<◌, codes, IsTrue, IfOk};
ghost use Rattle.std.specs.Fmt.{decimal};
ghost use Rattle.vmv_tree.specs.Names.{is_name};
ghost use Rattle.vmv_tree.specs.declared.tree.Operand.TheVariants.{Var};

use std::alloc::{AllocError, Global};
use vmv_tree::{Name, Operand};

/// The name of these bytes.
pub(crate) fn name(bytes: &[u8]) -> Name
    requires { IsTrue (is_name bytes.now) }
    ensures { result ≡ bytes.now }
{
    match Name::read(bytes) {
        Some(name) => name,
        None => unreachable!(),
    }
}

/// The variable of this name.
pub(crate) fn var(bytes: &[u8]) -> Operand
    requires { IsTrue (is_name bytes.now) }
    ensures { result ≡ Var bytes.now }
{
    Operand::Var(name(bytes))
}

/// The name of an entry by its number.
pub(crate) fn entry_name(alloc: Global, number: u8) -> Result<Name, AllocError>
    requires { number < 64 }
    ensures { IfOk result (λ name. name ≡ codes "e" ++ decimal number) }
{
    let text = format!(in alloc; "e{number}")?;
    Ok(name(text.as_bytes()))
}
