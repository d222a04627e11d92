// A page of text: bytes in a space of its own, line below line, none of them too long and not too many.
ghost use Rattle.std.specs.Prelude.{◌≡◌, ◌+◌, ◌≤◌, ◌++◌, ◌∷◌, [], length, OnOk, OnErr, IfOk, IfSome};
ghost use Rattle.std.specs.Fmt.{AppendsText};
ghost use Rattle.sentences.specs.Pages.{page_width, column, ended, Narrow, Kept, blanks};

use std::fmt;
use std::fmt::{Display, Write};
use std::marker::Model;

// How many bytes a page has, how many a line before its end, and how many lines a page.
pub const SIZE: usize = 4096;

pub const WIDTH: u16 = 100;

// The width as a length of arrays. A cast, since a const calls no `from`.
const LINE: usize = WIDTH as usize;

pub const HEIGHT: u16 = 40;

// The text is the first `at` bytes; its last line is `column` bytes long so far, and `lines` are ended. Nothing
// is kept on the heap.
#[derive(Drop)]
pub struct Page {
    bytes: [u8; SIZE],
    at: usize,
    column: u16,
    lines: u16,
}

impl Model for Page {
    ghost use Rattle.std.specs.Prelude.{ℕ, List, take};
    ghost use Rattle.sentences.specs.Pages.{Laid};

    ghost Value = { List ℕ };

    ghost view = { λ p. take p.at p.bytes };

    ghost invariant = { λ p. Laid p.bytes p.at p.column p.lines };
}

impl Page {
    // The page with no text.
    pub fn empty() -> Page
        ensures { result ≡ [] }
    {
        Page {
            bytes: [0; SIZE],
            at: 0,
            column: 0,
            lines: 0,
        }
    }

    // The text of the page.
    pub fn text(&self) -> &[u8]
        ensures whole { result.now ≡ self.now }
        ensures narrow { Narrow result.now (length result.now) }
    {
        &self.bytes[..self.at]
    }

    // How many lines are ended.
    pub fn lines(&self) -> u16
        ensures { result ≡ ended self.now (length self.now) }
    {
        self.lines
    }

    // How many bytes the last line still has room for behind these words, if there is room for them.
    pub fn room_behind<D: Display + Drop>(&self, said: D) -> Option<usize>
        ensures { IfSome result (λ room. column self.now (length self.now) + room ≤ page_width) }
    {
        let words = Words::of(said).ok()?;
        let left = LINE - self.column as usize;
        left.checked_sub(words.as_slice().len())
    }

    // Puts the words behind the text, as far as there is room.
    pub fn say<D: Display + Drop>(&mut self, said: D) -> fmt::Result
        ensures ok { OnOk result (AppendsText self.old self.new (D.output said)) }
        ensures kept { Kept self.old self.new }
    {
        let words = Words::of(said)?;
        self.put(words.as_slice())
    }

    // Puts bytes behind the text, as far as there is room.
    pub fn put(&mut self, bytes: &[u8]) -> fmt::Result
        ensures ok { OnOk result (self.new ≡ self.old ++ bytes.now) }
        ensures kept { Kept self.old self.new }
    {
        for byte in bytes {
            self.put_byte(*byte)?;
        }
        Ok(())
    }

    // Ends the line and begins the next one, two blanks in for each level.
    pub fn begin_line(&mut self, level: u16) -> fmt::Result
        ensures ok { OnOk result (self.new ≡ self.old ++ 10 ∷ blanks level) }
        ensures kept { Kept self.old self.new }
    {
        self.end_line()?;
        self.indent(level)
    }

    // Two blanks for each level.
    pub fn indent(&mut self, level: u16) -> fmt::Result
        ensures ok { OnOk result (self.new ≡ self.old ++ blanks level) }
        ensures kept { Kept self.old self.new }
    {
        for _ in 0..level {
            self.put(b"  ")?;
        }
        Ok(())
    }

    // Ends the line.
    pub fn end_line(&mut self) -> fmt::Result
        ensures ok { OnOk result (self.new ≡ self.old ++ 10 ∷ []) }
        ensures err { OnErr result (self.new ≡ self.old) }
    {
        if self.at >= SIZE {
            return Err(fmt::Error);
        }
        if self.lines >= HEIGHT {
            return Err(fmt::Error);
        }
        self.bytes[self.at] = b'\n';
        self.at += 1;
        self.column = 0;
        self.lines += 1;
        Ok(())
    }

    // Puts one byte behind the text; a line end ends the line.
    fn put_byte(&mut self, byte: u8) -> fmt::Result
        ensures ok { OnOk result (self.new ≡ self.old ++ byte ∷ []) }
        ensures err { OnErr result (self.new ≡ self.old) }
    {
        if byte == b'\n' {
            return self.end_line();
        }
        if self.at >= SIZE {
            return Err(fmt::Error);
        }
        if self.column >= WIDTH {
            return Err(fmt::Error);
        }
        self.bytes[self.at] = byte;
        self.at += 1;
        self.column += 1;
        Ok(())
    }
}

// Words that are formed before they are put: at most as many bytes as a line has. So a page says of every step what it leaves: a writer
// says nothing of an error, and these words are left out then. Bytes and a length, since nothing is kept on the heap; no `text::line::Line`,
// which cuts off what it has no room for, where `write_str` has to err.
#[derive(Drop)]
struct Words {
    bytes: [u8; LINE],
    len: usize,
}

impl Model for Words {
    ghost use Rattle.std.specs.Prelude.{ℕ, List, take};
    ghost use Rattle.sentences.specs.Pages.{Formed};

    ghost Value = { List ℕ };

    ghost view = { λ words. take words.len words.bytes };

    ghost invariant = { λ words. Formed words.bytes words.len };
}

impl Words {
    // The words of what is said, where a line has room for them.
    fn of<D: Display + Drop>(said: D) -> Result<Words, fmt::Error>
        ensures { IfOk result (λ words. AppendsText [] words (D.output said)) }
    {
        let mut words = Words {
            bytes: [0; LINE],
            len: 0,
        };
        words.write(said)?;
        Ok(words)
    }

    // Their bytes.
    fn as_slice(&self) -> &[u8]
        ensures { result.now ≡ self.now }
    {
        &self.bytes[..self.len]
    }
}

impl Write for Words {
    ghost write_str_gives = { λ before bytes after. after ≡ before ++ bytes };

    fn write_str(&mut self, s: &str) -> fmt::Result {
        if s.len() > LINE - self.len {
            return Err(fmt::Error);
        }
        let end = self.len + s.len();
        self.bytes[self.len..end].copy_from_slice(s.as_bytes());
        self.len = end;
        Ok(())
    }
}
