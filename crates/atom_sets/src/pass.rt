// The sets of all rows: one pass over the effects, upwards, since the rows that a row names are lower.
ghost use Rattle.std.specs.Prelude.{◌≡◌, length, set, ◌%◌, ◌^◌, ◌≤◌};
ghost use Rattle.atom_sets.specs.Inner.Sets.{set_place, sets_end, atom_bit, InSet};
ghost use Rattle.atom_sets.specs.Inner.Finds.{united, copied, Room, Written, FindsSets, FindsSet, FoundSet, FoundSets};

use crate::bits::{atom_bit, set_start, set_word, set_words};
use formula_builder::{Frame, read_row};
use task::kinds::EffectKind;

// The four words at i become those at a together with those at b. All are read before one is written, so that one access of memory can take
// four (docs/SPEED.md). Constant cost.
fn unite_four(notes: &mut [u16], a: usize, b: usize, i: usize)
    requires { Room 4 a i notes.old × Room 4 b i notes.old }
    ensures { Written 4 i (united notes.old a b) notes.old notes.new }
{
    let p = notes[a] | notes[b];
    let q = notes[a + 1] | notes[b + 1];
    let r = notes[a + 2] | notes[b + 2];
    let s = notes[a + 3] | notes[b + 3];
    notes[i] = p;
    notes[i + 1] = q;
    notes[i + 2] = r;
    notes[i + 3] = s;
}

// The n words at i become those at a together with those at b. A step for four words.
fn unite(notes: &mut [u16], n: usize, a: usize, b: usize, i: usize)
    requires { (n % 4 ≡ 0) × Room n a i notes.old × Room n b i notes.old }
    ensures { Written n i (united notes.old a b) notes.old notes.new }
{
    for k in (0..n).step_by(4) {
        unite_four(notes, a + k, b + k, i + k);
    }
}

// The four words at i become those at a. All are read before one is written, so that one access of memory can take four
// (docs/SPEED.md). Constant cost.
fn copy_four(notes: &mut [u16], a: usize, i: usize)
    requires { Room 4 a i notes.old }
    ensures { Written 4 i (copied notes.old a) notes.old notes.new }
{
    let p = notes[a];
    let q = notes[a + 1];
    let r = notes[a + 2];
    let s = notes[a + 3];
    notes[i] = p;
    notes[i + 1] = q;
    notes[i + 2] = r;
    notes[i + 3] = s;
}

// The n words at i become those at a. A step for four words.
fn copy(notes: &mut [u16], n: usize, a: usize, i: usize)
    requires { (n % 4 ≡ 0) × Room n a i notes.old }
    ensures { Written n i (copied notes.old a) notes.old notes.new }
{
    for k in (0..n).step_by(4) {
        copy_four(notes, a + k, i + k);
    }
}

// The word of variable v in the set of row i gets the one bit of set v, or of clear v. Constant cost.
fn put_atom(notes: &mut [u16], frame: Frame, clear: bool, v: usize, i: usize)
    requires { InSet frame v i × (sets_end frame ≤ length notes.old) }
    ensures { notes.new ≡ set notes.old (set_place frame v i) (2 ^ atom_bit clear v) }
{
    let k = set_word(frame, v, i);
    notes[k] = 1 << atom_bit(clear, v);
}

// The set of row i, from those of the rows that it names. At the most a step for four words of a set.
fn set_of(effects: &[u16], frame: Frame, i: usize, notes: &mut [u16])
    requires { FindsSet frame effects.now notes.old i }
    ensures { FoundSet frame effects.now i notes.old notes.new }
{
    let w = read_row(effects, i);
    let n = set_words(frame);
    let to = set_start(frame, i);
    match EffectKind::try_from(w.kind).unwrap() {
        EffectKind::Empty => {}
        EffectKind::Set => put_atom(notes, frame, false, w.a as usize, i),
        EffectKind::Clear => put_atom(notes, frame, true, w.a as usize, i),
        EffectKind::Both => {
            let a = set_start(frame, w.a as usize);
            let b = set_start(frame, w.b as usize);
            unite(notes, n, a, b, to);
        }
        EffectKind::Under => {
            let b = set_start(frame, w.b as usize);
            copy(notes, n, b, to);
        }
    }
}

// The sets of all rows; the words around them stay. As many steps as there are effects and fours of words in their sets.
pub fn find_sets(effects: &[u16], frame: Frame, notes: &mut [u16])
    requires { FindsSets frame effects.now notes.old }
    ensures { FoundSets frame effects.now notes.old notes.new }
{
    for i in 0..frame.effects {
        set_of(effects, frame, i, notes);
    }
}
