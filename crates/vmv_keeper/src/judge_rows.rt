ghost use Rattle.std.specs.Prelude.{IsUtf8};
ghost use Rattle.std.proofs.Props.{props};

use crate::judge::Inspected;
use vmv_edge::Text;

// What is said of a text, which is UTF-8.
#[derive(Debug, Drop)]
pub(crate) struct TextRow {
    pub(crate) text: Text,
    pub(crate) said: Inspected,
    ghost utf8: { IsUtf8 text } by { Prim.hlevel props },
}

// What is said of a text against another.
#[derive(Debug, Drop)]
pub(crate) struct VerdictRow {
    pub(crate) base: Text,
    pub(crate) revision: Text,
    pub(crate) verdict: u8,
    pub(crate) json: Text,
}
