ghost use Rattle.std.specs.Prelude.{◌≡◌, ◌↔◌, ◌++◌, ℕ, List, codes, true, false, nat_eq, IfOk, IsErrOf};
ghost use Rattle.std.specs.Hash as fed;
ghost use Rattle.std.specs.Cmp.Lexicographic.{pointwise, nat_list_eq_equiv};
ghost use Rattle.std.specs.Cmp.{partial_equiv_from_equiv};
ghost use Rattle.std.specs.Cmp.Rules.{hashing};
ghost use Rattle.std.proofs.Common.{rules};
ghost use Rattle.layer.specs.Name.{has_good_length, is_automatic, is_good_name};
ghost use Rattle.layer.specs.declared.name.NameFault.TheVariants.{NoMemory as no_memory};

use plan_base::{NoMemory, Text};
use std::alloc::Global;
use std::error::Error;
use std::fmt;
use std::hash::{Hash, Hasher};
use std::marker::Model;

/// The greatest length of a layer's name, in bytes.
pub const NAME_MAX: usize = 64;

/// The name of a layer: 1 to `NAME_MAX` bytes that don't begin with `auto.`.
#[derive(Debug, Drop)]
pub struct Name {
    text: Text,
}

impl Model for Name {
    ghost use Rattle.std.specs.Prelude.{◌≡◌, ℕ, List, true};
    ghost use Rattle.layer.specs.Name.{is_good_name};

    ghost Value = { List ℕ };

    ghost view = { λ name. name.text };

    ghost invariant = { λ name. is_good_name name.text ≡ true };
}

/// Why a text is not the name of a layer, in the order of the tests.
#[derive(Clone, Copy, Debug, PartialEq, Eq)]
pub enum NameFault {
    /// It is empty, or longer than `NAME_MAX` bytes.
    Length,
    /// It begins with `auto.`, which is reserved for automatic layers.
    Auto,
    /// Out of memory.
    NoMemory,
}

impl fmt::Display for NameFault {
    fn fmt<W: fmt::Write>(&self, f: &mut fmt::Formatter<W>) -> fmt::Result {
        f.write_str(match self {
            NameFault::Length => "a layer's name has 1 to 64 bytes",
            NameFault::Auto => "a layer's name doesn't begin with auto.",
            NameFault::NoMemory => "out of memory",
        })
    }
}

impl Error for NameFault {}

impl From<NoMemory> for NameFault {
    ghost from_gives = { λ _ fault. fault ≡ no_memory };

    fn from(_: NoMemory) -> Self {
        NameFault::NoMemory
    }
}

fn is_good_length(text: &str) -> bool
    ensures { result ≡ has_good_length text.now }
{
    1 <= text.len() && text.len() <= NAME_MAX
}

impl Name {
    /// The name with this text. Tests the length before the prefix.
    pub fn read(alloc: Global, text: &str) -> Result<Name, NameFault>
        ensures ok { IfOk result (λ name. (name ≡ text.now) × (is_good_name text.now ≡ true)) }
        ensures length { IsErrOf result NameFault.Length ↔ (has_good_length text.now ≡ false) }
        ensures limit { NAME_MAX ≡ 64 }
        ensures prefix { (rest : List ℕ) → is_automatic (codes "auto." ++ rest) ≡ true }
        ensures automatic { IsErrOf result NameFault.Auto ↔ ((has_good_length text.now ≡ true) × (is_automatic text.now ≡ true)) }
    {
        if !is_good_length(text) {
            return Err(NameFault::Length);
        }
        if text.starts_with("auto.") {
            return Err(NameFault::Auto);
        }
        let text = Text::from_text(alloc, text)?;
        Ok(Name { text })
    }

    /// The name's text.
    pub fn text(&self) -> &str
        ensures value { result.now ≡ self.now }
        ensures good { is_good_name self.now ≡ true }
    {
        self.text.as_str()
    }

    /// An equal name.
    pub fn copy(&self, alloc: Global) -> Result<Name, NoMemory>
        ensures { IfOk result (λ name. name ≡ self.now) }
    {
        let text = self.text.copy(alloc)?;
        Ok(Name { text })
    }
}

impl PartialEq for Name {
    ghost eq = { pointwise nat_eq };

    ghost laws = { partial_equiv_from_equiv nat_list_eq_equiv };

    fn eq(&self, other: &Name) -> bool {
        self.text().as_bytes() == other.text().as_bytes()
    }
}

impl Eq for Name {
    ghost laws = { nat_list_eq_equiv };
}

impl Hash for Name {
    ghost hash_input = { fed.slice fed.u8 };

    ghost respects_eq = { Prim.search (hashing, rules) };

    fn hash<H: Hasher>(&self, state: &mut H) {
        self.text().as_bytes().hash(state);
    }
}
