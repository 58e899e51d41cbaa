// The index of the rows: trees under heads that a hash of the row chooses.
ghost use Rattle.std.specs.Prelude.{◌≡◌, ◌+◌, ◌*◌, ◌≤◌, ◌<◌};
ghost use Rattle.formula_builder.specs.Inner.Index.{key_of, head_of, link_word};
ghost use Rattle.formula_builder.specs.Inner.Held.{row_of};

use crate::Words;

// The key of a row. Kinds are below 8, rows and variables below 4,096: so a key has 27 bits, and rows that differ have keys that differ. Constant time.
#[tactic(auto, unfolding(crate::specs::Inner::Index::key_of))]
pub fn key(r: Words) -> usize
    ensures { (result ≡ key_of (row_of r)) × (result < 536870912) }
{
    ((r.kind as usize) % 8 * 4096 + (r.b as usize)) * 4096 + (r.a as usize)
}

// The word of a key's head, with room for so many rows. There are four heads for each: most rows that are looked for are new, and a head that names
// none says so at once. Constant time, and no division by the heads' number.
#[tactic(auto, using(crate::proofs::Indexing::hash_small), unfolding(crate::specs::Inner::Index::head_of))]
pub fn head_word(most: usize, key: usize) -> usize
    requires { (0 < most) × (most ≤ 4096) × (key < 536870912) }
    ensures { (result ≡ 5 * most + head_of most key) × (result < 9 * most) }
{
    let hash = key * 2654435769 % 4294967296;
    5 * most + hash * (4 * most) / 4294967296
}

// The word of the link of row i that the lowest of these bits says.
pub fn link_word(most: usize, i: usize, bits: usize) -> usize
    requires { (most ≤ 4096) × (i < most) }
    ensures { result ≡ link_word most i bits }
{
    3 * most + 2 * i + bits % 2
}
