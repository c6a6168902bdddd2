//! The text of one told line, in fixed room, to which words are put one after the other.

ghost use Rattle.std.specs.Prelude.{◌≡◌, ◌+◌, ◌*◌, ◌^◌, ◌<◌, ◌≤◌, [], ◌∷◌, ◌++◌, length, decimal};

use arrayvec::ArrayVec;
use std::marker::Model;

/// The text of a told line: at most 8,256 bytes.
#[derive(Drop)]
pub struct ReplyText {
    content: ArrayVec<u8, 8256>,
}

impl Model for ReplyText {
    ghost use Rattle.std.specs.Prelude.{List, ℕ, length, ◌≤◌};

    ghost Value = { List ℕ };

    ghost view = { λ t. t.content.items };

    ghost invariant = { λ t. length t.content.items ≤ 8256 };
}

impl ReplyText {
    pub fn new() -> ReplyText
        ensures { result ≡ [] }
    {
        ReplyText {
            content: ArrayVec::new(),
        }
    }

    /// The bytes of the line, its line feed included.
    pub fn bytes(&self) -> &[u8]
        ensures value { result.now ≡ self.now }
        ensures few { length self.now ≤ 8256 }
    {
        let _content = &self.content;
        self.content.as_slice()
    }

    pub fn put_byte(&mut self, byte: u8)
        requires { length self.old < 8256 }
        ensures { self.new ≡ self.old ++ byte ∷ [] }
    {
        self.content.push(byte);
    }

    pub fn put(&mut self, bytes: &[u8])
        requires { length self.old + length bytes.now ≤ 8256 }
        ensures { self.new ≡ self.old ++ bytes.now }
    {
        for byte in bytes {
            self.put_byte(*byte);
        }
    }

    /// Puts the decimal digits of a number.
    pub fn put_digits(&mut self, number: u32)
        requires { length self.old + length (decimal number) ≤ 8256 }
        ensures { self.new ≡ self.old ++ decimal number }
    {
        if number < 10 {
            self.put_byte(b'0' + number as u8);
            return;
        }
        self.put_digits(number / 10);
        self.put_byte(b'0' + (number % 10) as u8);
    }

    /// The text of a line's number.
    pub fn numbered(number: u32) -> ReplyText
        requires { number ≤ 20000 }
        ensures value { result ≡ decimal number }
        ensures len { length result ≤ 5 }
    {
        let mut text = ReplyText::new();
        text.put_digits(number);
        text
    }

    /// Puts one word after a space.
    pub fn put_word(&mut self, word: &[u8])
        requires { length self.old + length word.now < 8256 }
        ensures value { self.new ≡ self.old ++ (32 ∷ word.now) }
        ensures len { length self.new ≡ length self.old + length word.now + 1 }
    {
        self.put_byte(b' ');
        self.put(word);
    }

    /// Puts a number after a space.
    pub fn put_number(&mut self, number: u32)
        requires { length self.old + 11 ≤ 8256 }
        ensures value { self.new ≡ self.old ++ (32 ∷ decimal number) }
        ensures len { length self.new ≤ length self.old + 11 }
    {
        self.put_byte(b' ');
        self.put_digits(number);
    }
}
