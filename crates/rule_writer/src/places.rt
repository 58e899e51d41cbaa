// Where the twins stand, by variable: found once, so that no rule looks for its twin.
ghost use Rattle.std.specs.Prelude.{◌≡◌, take, drop};
ghost use Rattle.rule_writer.specs.Inner.Places.{PlacesReady, Placed};

// For each of v variables the place of its twin among w twins; w, which is past them, if it has none (so says `place`, the definition). The last twin comes
// first: of equal originals the first stays. What stands behind the places stays. V + W steps.
pub fn find_places(originals: &[u16], places: &mut [u16], v: usize, w: usize)
    requires { PlacesReady originals.now places.old v w }
    ensures placed { Placed v w (take w originals.now) places.new }
    ensures places_unchanged { drop v places.new ≡ drop v places.old }
{
    places[..v].fill(w as u16);
    for k in (0..w).rev() {
        places[originals[k] as usize] = k as u16;
    }
}
