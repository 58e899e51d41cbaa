// A file that is read from its front: bytes, words and fields.
ghost use Rattle.std.specs.Prelude.{◌≡◌, ◌≤◌, ◌<◌, length, take, drop, MatchResult};
ghost use Rattle.file_format.specs.Parse.{byte_read, word_read, field_read, fields_read};
ghost use Rattle.task.specs.declared.refusal.Refusal.{Refusal};
ghost use Rattle.task_file.specs.Inner.Answers.{parsed_as};

use std::marker::Model;
use task::refusal::Refusal;

// The bytes that are left.
#[derive(Drop)]
pub struct Reader<'a> {
    rest: &'a [u8],
}

impl<'a> Model for Reader<'a> {
    ghost use Rattle.std.specs.Prelude.{List, ℕ};

    ghost Value = { List ℕ };

    ghost view = { λ reader. reader.rest.now };
}

impl<'a> Reader<'a> {
    // Constant time, as are all below but `fields`, which is linear in their number.
    pub fn new(file: &'a [u8]) -> Reader<'a>
        ensures { result ≡ file.now }
    {
        Reader { rest: file }
    }

    // Refused, unless every byte was read.
    pub fn end(&self) -> Result<(), Refusal>
        ensures { MatchResult result (λ _. length self.now ≡ 0) (λ refusal. (0 < length self.now) × (refusal ≡ Refusal.BytesBehind)) }
    {
        if !self.rest.is_empty() {
            return Err(Refusal::BytesBehind);
        }
        Ok(())
    }

    // The next byte.
    #[tactic(auto, using(crate::proofs::Ways::returned_as), unfolding(file_format::specs::Parse::byte_read))]
    pub fn byte(&mut self) -> Result<u8, Refusal>
        ensures { parsed_as result self.new ≡ byte_read self.old }
    {
        let (first, rest) = self.rest.split_first().ok_or(Refusal::CutShort)?;
        self.rest = rest;
        Ok(*first)
    }

    // So many bytes.
    pub fn bytes(&mut self, count: usize) -> Result<&'a [u8], Refusal>
        ensures { MatchResult result (λ bytes. (count ≤ length self.old) × (bytes.now ≡ take count self.old) × (self.new ≡ drop count self.old)) (λ refusal. (length self.old < count) × (refusal ≡ Refusal.CutShort)) }
    {
        let (bytes, rest) = self.rest.split_at_checked(count).ok_or(Refusal::CutShort)?;
        self.rest = rest;
        Ok(bytes)
    }

    // The next word.
    #[tactic(auto, using(crate::proofs::Ways::word_short, crate::proofs::Ways::word_there))]
    pub fn word(&mut self) -> Result<u16, Refusal>
        ensures { parsed_as result self.new ≡ word_read self.old }
    {
        let [low, high, rest @ ..] = self.rest else {
            return Err(Refusal::CutShort);
        };
        self.rest = rest;
        Ok(u16::from_le_bytes([*low, *high]))
    }

    // A field by its bit: absent it is its default.
    #[tactic(auto, using(crate::proofs::Ways::returned_as), unfolding(file_format::specs::Parse::field_read, file_format::specs::Parse::next, file_format::specs::Parse::kept))]
    pub fn field(&mut self, bit: u8, default: u16) -> Result<u16, Refusal>
        ensures { parsed_as result self.new ≡ field_read default bit self.old }
    {
        if bit == 0 {
            return Ok(default);
        }
        let word = self.word()?;
        if word == default {
            return Err(Refusal::NeedlessField);
        }
        Ok(word)
    }

    // The fields of these defaults by their map, the lowest bit first.
    pub fn fields<const N: usize>(
        &mut self,
        defaults: [u16; N],
        map: u8,
    ) -> Result<[u16; N], Refusal>
        ensures { parsed_as result self.new ≡ fields_read defaults.entry map self.old }
    {
        let mut fields = defaults;
        let mut bits = map;
        for field in &mut fields {
            *field = self.field(bits % 2, *field)?;
            bits /= 2;
        }
        Ok(fields)
    }
}
