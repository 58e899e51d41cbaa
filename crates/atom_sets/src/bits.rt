// Where an atom's bit stands, and whether it does. Constant cost.
ghost use Rattle.std.specs.Prelude.{◌≡◌, ◌≤◌, ◌<◌, length};
ghost use Rattle.atom_sets.specs.Inner.Sets.{set_words, set_place, sets_end, atom_bit, lacks, set_from, InSet};
ghost use Rattle.atom_sets.specs.Inner.Finds.{set_start, Within};

use formula_builder::Frame;

// How many words a set takes: four for each 32 variables.
#[tactic(auto, unfolding(crate::specs::Inner::Sets::set_words))]
pub fn set_words(frame: Frame) -> usize
    requires { frame.variables ≤ 512 }
    ensures { (result ≡ set_words frame) × (result ≤ 64) }
{
    (frame.variables + 31) / 32 * 4
}

// Where the set of row e begins.
pub fn set_start(frame: Frame, e: usize) -> usize
    requires { Within frame e }
    ensures { (result ≡ set_start frame e) × (result ≤ 278528) }
{
    4 * frame.effects + set_words(frame) * e
}

// The word of variable v in the set of row e.
#[tactic(auto, unfolding(crate::specs::Inner::Sets::set_place, crate::specs::Inner::Finds::set_start))]
pub fn set_word(frame: Frame, v: usize, e: usize) -> usize
    requires { InSet frame v e }
    ensures { result ≡ set_place frame v e }
{
    set_start(frame, e) + v / 8
}

// The bit of set v in its word, or behind it that of clear v.
#[tactic(auto, unfolding(crate::specs::Inner::Sets::atom_bit))]
pub fn atom_bit(clear: bool, v: usize) -> usize
    ensures { (result ≡ atom_bit clear v) × (result < 16) }
{
    2 * (v % 8) + usize::from(clear)
}

// Whether the set of row e lacks set v, or clear v.
pub fn lacks(notes: &[u16], frame: Frame, clear: bool, v: usize, e: usize) -> bool
    requires { InSet frame v e × (sets_end frame ≤ length notes.now) }
    ensures { result ≡ lacks frame notes.now clear v e }
{
    let k = set_word(frame, v, e);
    (notes[k] >> atom_bit(clear, v)) % 2 == 0
}

// Where the sets end.
pub fn sets_end(frame: Frame) -> usize
    requires { (frame.variables ≤ 512) × (frame.effects ≤ 4096) }
    ensures { (result ≡ sets_end frame) × (result ≤ 278528) }
{
    4 * frame.effects + set_words(frame) * frame.effects
}

// The atoms of variable v and of the later variables of its word, in the set of row e: the lowest bit says set v, the next clear v.
pub fn set_from(notes: &[u16], frame: Frame, v: usize, e: usize) -> u16
    requires { InSet frame v e × (sets_end frame ≤ length notes.now) }
    ensures { result ≡ set_from frame notes.now v e }
{
    let k = set_word(frame, v, e);
    notes[k] >> (2 * (v % 8))
}
