//! Full names with their codes, by which the index of definitions is sorted.
//!
//! A code is a number of 64 bits, made of at most the last 128 bytes of a name and of the number of
//! all its bytes. Names whose codes differ are compared by these alone. Names with one code are
//! compared by their bytes, so equal codes cost time and never change an answer.
ghost use Rattle.std.specs.Prelude.{◌≡◌, bytes_eq, take};
ghost use Rattle.std.specs.Ordering.{as_partial_cmp, nat_cmp, ordering_then};
ghost use Rattle.std.specs.Cmp.Rules.{comparing};
ghost use Rattle.std.proofs.Common.{rules};
ghost use Rattle.pq_schema.specs.aux.NameCodes.{code_of, code_order};
ghost use Rattle.pq_schema.specs.aux.NameParts.{name_order};

use crate::names::full_name::FullName;
use crate::names::spelled::Spelled;
use std::cmp::Ordering;
use std::marker::Model;

/// The most bytes of a name that is compared with each of its copies.
const LONG: usize = 256;

/// A full name with its code. Contracts see the name.
#[derive(Drop)]
pub(crate) struct Coded {
    code: u64,
    name: FullName,
}

impl Model for Coded {
    ghost use Rattle.std.specs.Prelude.{List, ℕ, ◌≡◌};
    ghost use Rattle.pq_schema.specs.aux.NameCodes.{code_of};

    ghost Value = { List ℕ };

    ghost view = { λ c. c.name };

    ghost invariant = { λ c. c.code ≡ code_of c.name };
}

impl Coded {
    /// The name `name` with its code.
    pub(crate) fn new(name: FullName) -> Coded
        ensures name { result ≡ name }
    {
        let code = name.code();
        Coded { code, name }
    }

    /// The code.
    pub(crate) fn code(&self) -> u64
        ensures code { result ≡ code_of self.now }
    {
        self.code
    }

    /// Whether the name has so many bytes that it is dear to compare.
    pub(crate) fn is_long(&self) -> bool {
        self.name.spelled().is_longer(LONG)
    }

    /// Compares the name with `name`, whose code is `code`, where both begin with the same `count`
    /// bytes.
    pub(crate) fn compare_alike(&self, code: u64, name: &Spelled<'_>, count: usize) -> Ordering
        requires alike { take count self.now ≡ take count name.now }
        ensures order { result ≡ ordering_then (nat_cmp (code_of self.now) code) (name_order self.now name.now) }
    {
        match self.code.cmp(&code) {
            Ordering::Equal => self.name.compare_alike(name, count),
            order => order,
        }
    }
}

/// Names with two codes are not compared.
impl PartialEq for Coded {
    ghost eq = { bytes_eq };

    ghost laws = { Prim.search (comparing, rules) };

    fn eq(&self, other: &Coded) -> bool {
        self.code == other.code && self.name == other.name
    }
}

impl Eq for Coded {
    ghost laws = { Prim.search (comparing, rules) };
}

/// The order of the codes, and then that of the names.
impl Ord for Coded {
    ghost use Rattle.pq_schema.specs.aux.CodeOrder.{codes_total, codes_tie};

    ghost cmp = { code_order };

    ghost total = { codes_total };

    ghost matches_partial_cmp = { Prim.search (comparing, rules) };

    ghost matches_eq = { codes_tie };

    fn cmp(&self, other: &Coded) -> Ordering {
        match self.code.cmp(&other.code) {
            Ordering::Equal => self.name.cmp(&other.name),
            order => order,
        }
    }
}

impl PartialOrd for Coded {
    ghost use Rattle.pq_schema.specs.aux.CodeOrder.{codes_partial};

    ghost partial_cmp = { as_partial_cmp code_order };

    ghost laws = { codes_partial };

    fn partial_cmp(&self, other: &Coded) -> Option<Ordering> {
        Some(self.cmp(other))
    }
}
