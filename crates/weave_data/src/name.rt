//! Names of vertices, edges, keys and values.
ghost use Rattle.std.specs.Prelude.{◌≡◌, ◌≤◌, IsTrue, Some, None, if◌then◌else◌, refl};
ghost use Rattle.std.specs.Cmp;
ghost use Rattle.std.specs.Cmp.{eq_by_cmp_equiv};
ghost use Rattle.std.specs.Cmp.Lexicographic.{nat_list_cmp_total};
ghost use Rattle.std.specs.Hash as fed;
ghost use Rattle.std.specs.Cmp.Rules.{comparing};
ghost use Rattle.std.proofs.Common.{rules, ap};
ghost use Rattle.std.specs.List.{list_all};
ghost use Rattle.weave_data.specs.Names.{is_name, is_name_byte, name_cmp, same_name, one_name, shard_of};

use crate::copied::Copied;
use crate::letters::order;
use crate::limits::MOST_LETTERS;
use std::alloc::{AllocError, Global};
use std::cmp::Ordering;
use std::hash::{Hash, Hasher};
use std::marker::Model;

/// 1 to 32 bytes of `a-z`, `0-9` and `_`, seen by contracts as the list of these bytes.
pub struct Name {
    len: u8,
    letters: [u8; MOST_LETTERS],
}

impl Model for Name {
    ghost use Rattle.std.specs.Prelude.{ℕ, List, length, take};
    ghost use Rattle.weave_data.specs.Names.{IsStored, padded_bytes};

    ghost Value = { List ℕ };

    ghost view = { λ n. take n.len n.letters };

    ghost invariant = { λ n. IsStored n.len n.letters };

    ghost inverse = { λ bytes. record { len = length bytes; letters = padded_bytes bytes } };

    ghost use Rattle.std.proofs.Common.{sym};

    ghost inverse_ok = { λ n h. λ i. record { len = sym h.1 i; letters = sym h.2 i } };
}

impl Clone for Name {
    ghost is_clone = { λ a b. b ≡ a };

    fn clone(&self) -> Result<Self, AllocError> {
        Ok(*self)
    }
}

impl Copy for Name {}

impl Copied for Name {
    fn copy(&self, _alloc: Global) -> Result<Self, AllocError> {
        Ok(*self)
    }
}

impl PartialEq for Name {
    ghost eq = { same_name };

    ghost laws = { Cmp.partial_equiv_from_equiv (eq_by_cmp_equiv nat_list_cmp_total) };

    fn eq(&self, other: &Name) -> bool {
        self.cmp(other).is_eq()
    }
}

impl Eq for Name {
    ghost laws = { eq_by_cmp_equiv nat_list_cmp_total };
}

impl PartialOrd for Name {
    ghost partial_cmp = { λ a b. Some (name_cmp a b) };

    ghost laws = { Cmp.partial_order_from_own_ties (Prim.search (comparing, rules)) (Prim.search (comparing, rules)) };

    fn partial_cmp(&self, other: &Name) -> Option<Ordering> {
        Some(self.cmp(other))
    }
}

impl Ord for Name {
    ghost cmp = { name_cmp };

    ghost total = { nat_list_cmp_total };

    ghost matches_partial_cmp = { Prim.search rules };

    ghost matches_eq = { λ a b. refl };

    fn cmp(&self, other: &Name) -> Ordering {
        order(&self.letters, &other.letters)
    }
}

impl Hash for Name {
    ghost hash_input = { fed.slice fed.u8 };

    ghost respects_eq = { λ a b same. ap (fed.slice fed.u8) (one_name a b same) };

    fn hash<H: Hasher>(&self, state: &mut H) {
        self.bytes().hash(state);
    }
}

impl Name {
    /// The name with these bytes, or `None` if they are no name.
    pub fn parse(bytes: &[u8]) -> Option<Name>
        ensures { result ≡ (if is_name bytes.now then Some bytes.now else None) }
    {
        if !names(bytes) {
            return None;
        }
        let mut letters = [0; MOST_LETTERS];
        letters[..bytes.len()].copy_from_slice(bytes);
        Some(Name {
            len: bytes.len() as u8,
            letters,
        })
    }

    /// Its bytes.
    pub fn bytes(&self) -> &[u8]
        ensures bytes { result.now ≡ self.now }
        ensures name { IsTrue (is_name self.now) }
    {
        &self.letters[..self.len as usize]
    }

    /// The shard that keeps the vertex of this name, of `shards` shards.
    pub fn shard(&self, shards: u32) -> u32
        requires { 1 ≤ shards }
        ensures { result ≡ shard_of self.now shards }
    {
        let bytes = self.bytes();
        let mut total = 0;
        for byte in bytes {
            total += u32::from(*byte);
        }
        total % shards
    }
}

// Whether the bytes are a name.
fn names(bytes: &[u8]) -> bool
    ensures { result ≡ is_name bytes.now }
{
    if bytes.is_empty() || bytes.len() > MOST_LETTERS {
        return false;
    }
    only_letters(bytes)
}

fn only_letters(bytes: &[u8]) -> bool
    ensures { result ≡ list_all is_name_byte bytes.now }
{
    bytes.iter().all(|b| is_letter(*b))
}

fn is_letter(byte: u8) -> bool
    ensures { result ≡ is_name_byte byte }
{
    (97 <= byte && byte <= 122) || (48 <= byte && byte <= 57) || byte == 95
}
