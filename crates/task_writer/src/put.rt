// Bytes, words and fields into an output. What does not fit is only counted. The output and the place are two parameters: of a struct with the
// output in it each contract would have to say that it still holds the same output.
ghost use Rattle.std.specs.Prelude.{◌≡◌, [], ◌∷◌, ◌+◌, ◌≤◌, length};
ghost use Rattle.file_format.specs.Bytes.{word_bytes, field_bytes, fields_bytes, map_of};
ghost use Rattle.task_writer.specs.Inner.Putting.{Put, FieldsIn, MappedIn};

// One byte. Constant time.
pub fn put_byte(out: &mut [u8], at: usize, byte: u8) -> usize
    requires { at ≤ 2000000 }
    ensures { Put (byte ∷ []) at result out.old out.new }
{
    if at < out.len() {
        out[at] = byte;
    }
    at + 1
}

// Bytes, plain. Linear.
pub fn put_bytes(out: &mut [u8], at: usize, bytes: &[u8]) -> usize
    requires { at + length bytes.now ≤ 2000000 }
    ensures { Put bytes.now at result out.old out.new }
{
    let mut next = at;
    for byte in bytes {
        next = put_byte(out, next, *byte);
    }
    next
}

// A word, little-endian. Constant time.
#[tactic(auto, using(crate::proofs::Puts::le_word))]
pub fn put_word(out: &mut [u8], at: usize, w: u16) -> usize
    requires { at ≤ 1900000 }
    ensures { Put (word_bytes w) at result out.old out.new }
{
    put_bytes(out, at, &w.to_le_bytes())
}

// A field: nothing for its default. Constant time.
#[tactic(auto, using(crate::proofs::Puts::put_none), unfolding(file_format::specs::Bytes::field_bytes))]
pub fn put_field(out: &mut [u8], at: usize, w: u16, default: u16) -> usize
    requires { at ≤ 1800000 }
    ensures { Put (field_bytes default w) at result out.old out.new }
{
    if w == default {
        at
    } else {
        put_word(out, at, w)
    }
}

// Fields by their defaults. Linear in them, as are the two below.
fn put_fields(out: &mut [u8], at: usize, fields: &[u16], defaults: &[u16]) -> usize
    requires { (at ≤ 1700000) × (FieldsIn defaults.now fields.now) }
    ensures { Put (fields_bytes defaults.now fields.now) at result out.old out.new }
{
    let mut next = at;
    for (field, default) in fields.iter().zip(defaults) {
        next = put_field(out, next, *field, *default);
    }
    next
}

// Their bit map, the first one's bit the lowest. By index, as no facts come with the items of a `zip` backwards.
fn map_of(fields: &[u16], defaults: &[u16]) -> u8
    requires { FieldsIn defaults.now fields.now }
    ensures { result ≡ map_of defaults.now fields.now }
{
    let mut map = 0;
    for i in (0..fields.len()).rev() {
        map = 2 * map + u8::from(fields[i] != defaults[i]);
    }
    map
}

// The map byte, with `high` above the map's bits, and the fields by it.
#[tactic(auto, using(file_format::proofs::Fields::map_lt))]
pub fn put_mapped(out: &mut [u8], at: usize, high: u8, fields: &[u16], defaults: &[u16]) -> usize
    requires { MappedIn defaults.now fields.now at high }
    ensures { Put ((map_of defaults.now fields.now + high) ∷ fields_bytes defaults.now fields.now) at result out.old out.new }
{
    let next = put_byte(out, at, map_of(fields, defaults) + high);
    put_fields(out, next, fields, defaults)
}
