// Things by their names.

ghost use Rattle.std.specs.Prelude.{◌≡◌, List, ℕ, map};
ghost use Rattle.x64_syntax.specs.Names.{first_of_name, table_value};
ghost use Rattle.x64_syntax.specs.Places.{reg_of, low_of, xmm_of, flag_of};

use crate::places::{FlagName, Reg, Xmm};

/// One of finitely many things, each of which has a name.
pub trait Named: Copy + 'static {
    /// The name of each.
    ghost name_of: { Self → List ℕ };

    /// All of them, in order.
    ghost all: { List Self };

    /// All of them, in order.
    fn all() -> &'static [Self]
        ensures { result.now ≡ all };

    fn name(self) -> &'static str
        ensures { result.now ≡ name_of self };
}

impl Named for Reg {
    ghost use Rattle.x64_syntax.specs.Places.{reg_name, all_regs};

    ghost name_of = { reg_name };

    ghost all = { all_regs };

    fn all() -> &'static [Reg] {
        &Reg::ALL
    }

    fn name(self) -> &'static str {
        self.name()
    }
}

impl Named for Xmm {
    ghost use Rattle.x64_syntax.specs.Places.{xmm_name, all_xmms};

    ghost name_of = { xmm_name };

    ghost all = { all_xmms };

    fn all() -> &'static [Xmm] {
        &Xmm::ALL
    }

    fn name(self) -> &'static str {
        self.name()
    }
}

impl Named for FlagName {
    ghost use Rattle.x64_syntax.specs.Places.{flag_name, all_flags};

    ghost name_of = { flag_name };

    ghost all = { all_flags };

    fn all() -> &'static [FlagName] {
        &FlagName::ALL
    }

    fn name(self) -> &'static str {
        self.name()
    }
}

/// The first of these things that has the name.
pub fn from_name<T: Named>(name: &[u8]) -> Option<T>
    ensures { result ≡ first_of_name T.name_of T.all name.now }
{
    T::all()
        .iter()
        .copied()
        .find(|thing| thing.name().as_bytes() == name)
}

/// What stands beside the name in a table.
pub(crate) fn table_value<T: Copy>(rows: &[(&str, T)], name: &[u8]) -> Option<T>
    ensures { result ≡ table_value (map (λ r. (r.0.now, r.1)) rows.now) name.now }
{
    for (word, value) in rows {
        if word.as_bytes() == name {
            return Some(*value);
        }
    }
    None
}

/// The general register of a name.
pub fn reg_named(name: &[u8]) -> Option<Reg>
    ensures { result ≡ reg_of name.now }
{
    from_name(name)
}

/// The general register whose lower half has the name.
pub fn low_named(name: &[u8]) -> Option<Reg>
    ensures { result ≡ low_of name.now }
{
    Reg::ALL
        .iter()
        .copied()
        .find(|reg| reg.low_name().as_bytes() == name)
}

/// The xmm register of a name.
pub fn xmm_named(name: &[u8]) -> Option<Xmm>
    ensures { result ≡ xmm_of name.now }
{
    from_name(name)
}

/// The flag of a name.
pub fn flag_named(name: &[u8]) -> Option<FlagName>
    ensures { result ≡ flag_of name.now }
{
    from_name(name)
}
