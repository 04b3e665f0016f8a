// What a landing writes, before it is written, and its bytes.
ghost use Rattle.std.specs.Prelude.{◌≡◌, ◌++◌, ℕ, List, length, IfOk, IfSome, OnOk, Ok, None};
ghost use Rattle.std.specs.List.{AllByRecursion};
ghost use Rattle.jf_path.specs.Numbers.{eight_bytes};
ghost use Rattle.jf_codec.specs.Spelling.{IsNode, name_bytes};
ghost use Rattle.jf_codec.specs.Counted.{in_format};
ghost use Rattle.jf_payload.specs.Spelling.{commit_bytes, list_bytes};

use jf_codec::{Format, put_u64, strip_front};
use jf_diff::NamedNodes;
use jf_hash::Hash;
use jf_path::{Bytes, Memory, NameList, know_key};
use jf_payload::{names_len, put_names, sum_within};
use std::alloc::Global;
use std::marker::Model;

/// What a landing writes: a commit whose nodes are kept as the bytes that they take in a file.
#[derive(Drop)]
pub struct SpelledCommit {
    pub version: u64,
    pub root: Hash,
    pub fresh: NamedNodes,
    pub stale: NameList,
}

impl Model for SpelledCommit {
    ghost use Rattle.jf_payload.specs.declared.records.Commit.{Commit};

    ghost Value = { Commit };

    ghost view = { λ l. record { version = l.version; root = l.root; fresh = l.fresh; stale = l.stale } };
}

impl SpelledCommit {
    /// Adds its bytes before those of its nodes: version, root, and the number of nodes.
    fn put_front(&self, out: &mut Bytes) -> Result<(), Memory>
        ensures { OnOk result (out.new ≡ out.old ++ (eight_bytes self.now.version ++ self.now.root ++ eight_bytes (length self.now.fresh))) }
    {
        put_u64(out, self.version)?;
        out.append(&self.root)?;
        put_u64(out, self.fresh.len())
    }

    /// Adds its bytes after those of its nodes: the stale names, after their number.
    fn put_back(&self, out: &mut Bytes) -> Result<(), Memory>
        ensures { OnOk result (out.new ≡ out.old ++ list_bytes name_bytes self.now.stale) }
    {
        put_u64(out, self.stale.len())?;
        put_names(out, self.stale.as_slice())
    }

    /// The number of its bytes in a file of this format: version, root, and two lists after their counts.
    #[tactic(auto, unfolding(jf_payload::specs::Spelling::commit_bytes, jf_path::specs::Numbers::eight_bytes))]
    pub fn bytes_len(&self, alloc: Global, format: Format) -> Result<u64, Memory>
        // What the format keeps of each node that the landing writes has a spelling.
        requires { AllByRecursion (λ x. IsNode format (in_format format x.1)) self.now.fresh }
        // After Ok, the result is the number of the bytes of the landing.
        ensures { IfOk result (λ n. n ≡ length (commit_bytes format self.now)) }
    {
        know_key(&self.root);
        let fresh = self.fresh.bytes_len(alloc, format)?;
        let stale = names_len(self.stale.as_slice())?;
        sum_within(sum_within(56, fresh)?, stale)
    }

    /// Adds its bytes in a file of this format. If memory runs out, some of them may follow what was in `out`.
    #[tactic(auto, unfolding(jf_payload::specs::Spelling::commit_bytes))]
    pub fn put(&self, alloc: Global, out: &mut Bytes, format: Format) -> Result<(), Memory>
        // What the format keeps of each node that the landing writes has a spelling.
        requires { AllByRecursion (λ x. IsNode format (in_format format x.1)) self.now.fresh }
        // After Ok, the bytes of the landing follow what was there.
        ensures { OnOk result (out.new ≡ out.old ++ commit_bytes format self.now) }
    {
        self.put_front(out)?;
        self.fresh.put(alloc, out, format)?;
        self.put_back(out)
    }

    /// The bytes after its own, if bytes begin with its own in a file of this format; `None` if they don't; or `Memory`.
    #[tactic(auto, unfolding(jf_payload::specs::Spelling::commit_bytes))]
    pub fn strip_from<'a>(
        &self,
        alloc: Global,
        bytes: &'a [u8],
        format: Format,
    ) -> Result<Option<&'a [u8]>, Memory>
        // What the format keeps of each node that the landing writes has a spelling.
        requires { AllByRecursion (λ x. IsNode format (in_format format x.1)) self.now.fresh }
        // After Ok with bytes, the bytes are those of the landing, and then these.
        ensures found { IfOk result (λ o. IfSome o (λ rest. bytes.now ≡ commit_bytes format self.now ++ rest.now)) }
        // After Ok with none, the bytes don't begin with those of the landing.
        ensures none { result ≡ Ok None → (tail : List ℕ) → bytes.now ≡ commit_bytes format self.now ++ tail → ⊥ }
    {
        let mut own = Bytes::with_capacity(alloc, 48)?;
        self.put_front(&mut own)?;
        let Some(nodes) = strip_front(bytes, own.as_slice()) else {
            return Ok(None);
        };
        let Some(names) = self.fresh.strip_from(alloc, nodes, format)? else {
            return Ok(None);
        };
        own.clear();
        own.reserve(sum_within(8, names_len(self.stale.as_slice())?)?)?;
        self.put_back(&mut own)?;
        Ok(strip_front(names, own.as_slice()))
    }
}
