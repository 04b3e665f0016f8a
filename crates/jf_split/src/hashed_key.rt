// A key of a hash map, which is hashed all at once.
ghost use Rattle.std.specs.Prelude.{◌≡◌};

use jf_path::Key;
use std::hash::{Hash, Hasher};
use std::marker::Model;

/// A key of a hash map. Its bytes are fed to the hasher all at once; an array feeds its bytes one by one, which takes
/// longer than the rest of an insertion.
#[derive(Clone, Copy)]
pub(crate) struct HashedKey {
    bytes: Key,
}

impl Model for HashedKey {
    ghost use Rattle.std.specs.Prelude.{List, ℕ};
    ghost use Rattle.std.proofs.Common.{refl};

    ghost Value = { List ℕ };

    ghost view = { λ k. k.bytes };

    ghost inverse = { λ k. record { bytes = k } };

    ghost inverse_ok = { λ k h. refl };
}

impl HashedKey {
    // The key of these bytes.
    pub(crate) fn of(key: &Key) -> HashedKey
        ensures { result ≡ key.now }
    {
        HashedKey { bytes: *key }
    }

    // The bytes of the key.
    pub(crate) fn get(&self) -> Key
        ensures { result ≡ self.now }
    {
        self.bytes
    }
}

impl PartialEq for HashedKey {
    ghost use Rattle.std.specs.Cmp.{partial_equiv_from_equiv, eq_by_cmp_equiv};
    ghost use Rattle.std.specs.Cmp.Lexicographic.{nat_list_cmp_total};
    ghost use Rattle.jf_hash.specs.Maps.{same_key};

    ghost eq = { same_key };

    ghost laws = { partial_equiv_from_equiv (eq_by_cmp_equiv nat_list_cmp_total) };

    fn eq(&self, other: &HashedKey) -> bool {
        self.bytes == other.bytes
    }
}

impl Eq for HashedKey {
    ghost use Rattle.std.specs.Cmp.{eq_by_cmp_equiv};
    ghost use Rattle.std.specs.Cmp.Lexicographic.{nat_list_cmp_total};

    ghost laws = { eq_by_cmp_equiv nat_list_cmp_total };
}

impl Hash for HashedKey {
    ghost use Rattle.std.specs.Prelude.{◌∷◌, []};
    ghost use Rattle.jf_split.specs.HashedKeyLaws.{same_input};

    ghost hash_input = { λ k. k ∷ [] };

    ghost respects_eq = { same_input };

    fn hash<H: Hasher>(&self, state: &mut H) {
        state.write(&self.bytes);
    }
}
