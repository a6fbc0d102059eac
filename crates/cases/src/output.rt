// Answers, gathered in a buffer that is written out when it is full.
ghost use Rattle.std.specs.Prelude.{◌≡◌, ◌<◌, ◌≤◌};

use crate::parts::first;
use decimal::print::print_decimal;
use std::io;
use std::io::{Stdout, Write};
use text::range::Range;

const FULL: usize = 65536;

// What was gathered, where it is written out, and how the writes went. Once one has failed, what is
// put is thrown away.
#[derive(Drop)]
pub struct Buffer {
    bytes: [u8; FULL],
    len: usize,
    output: Stdout,
    written: io::Result<()>,
    ghost in_room: { len ≤ 65536 },
}

// An answer's number, alone or with the value or the two values that come with it.
#[derive(Clone, Copy)]
pub enum Said {
    Alone(u64),
    With(u64, u64),
    WithTwo(u64, u64, u64),
}

fn digit(d: u8) -> u8
    requires { d < 16 }
{
    if d < 10 { b'0' + d } else { b'a' - 10 + d }
}

impl Buffer {
    pub fn new(output: Stdout) -> Buffer {
        Buffer {
            bytes: [0; FULL],
            len: 0,
            output,
            written: Ok(()),
        }
    }

    // The error of the write that failed, if one did.
    pub fn written(&self) -> io::Result<()> {
        self.written
    }

    // Writes out what was gathered.
    pub fn flush(&mut self) -> io::Result<()>
        ensures { self.new.len ≡ 0 }
    {
        if self.written.is_ok() {
            self.written = self.output.write_all(&self.bytes[..self.len]);
        }
        self.len = 0;
        self.written
    }

    pub fn put(&mut self, b: u8) {
        if self.len == FULL {
            let _ = self.flush();
        }
        let at = self.len;
        self.bytes[at] = b;
        self.len = at + 1;
    }

    pub fn put_bytes(&mut self, s: &[u8]) {
        for b in s {
            self.put(*b);
        }
    }

    pub fn put_number(&mut self, n: u64) {
        let mut digits = [0u8; 20];
        if let Ok(len) = print_decimal(n, &mut digits) {
            self.put_bytes(first(&digits, len));
        }
    }

    // Two hex digits for each byte, `-` for none.
    pub fn put_hex(&mut self, s: &[u8]) {
        if s.is_empty() {
            self.put(b'-');
        }
        for b in s {
            self.put(digit(*b / 16));
            self.put(digit(*b % 16));
        }
    }

    // What stands between two answers of one case.
    pub fn put_comma(&mut self) {
        self.put_bytes(b", ");
    }

    pub fn put_said(&mut self, said: Said) {
        match said {
            Said::Alone(n) => self.put_number(n),
            Said::With(n, value) => {
                self.put_number(n);
                self.then_number(value);
            }
            Said::WithTwo(n, first, second) => {
                self.put_number(n);
                self.then_number(first);
                self.then_number(second);
            }
        }
    }

    // A space, and then the number.
    pub fn then_number(&mut self, n: u64) {
        self.put(b' ');
        self.put_number(n);
    }

    // A space, and then a range's start and its length.
    pub fn then_range(&mut self, range: Range) {
        self.then_number(range.start as u64);
        self.then_number(range.len as u64);
    }

    // The numbers, with a space before each.
    pub fn then_each(&mut self, numbers: &[usize]) {
        for n in numbers {
            self.then_number(*n as u64);
        }
    }

    // A space and numbers joined by commas, or a space and `-` for none.
    pub fn then_numbers<T: Copy + Into<u64>>(&mut self, numbers: &[T]) {
        let Some((first, rest)) = numbers.split_first() else {
            self.then_bytes(b"-");
            return;
        };
        self.then_number((*first).into());
        for n in rest {
            self.put(b',');
            self.put_number((*n).into());
        }
    }

    // A space, and then the bytes as they are.
    pub fn then_bytes(&mut self, s: &[u8]) {
        self.put(b' ');
        self.put_bytes(s);
    }

    // A space, and then the bytes as HEX.
    pub fn then_hex(&mut self, s: &[u8]) {
        self.put(b' ');
        self.put_hex(s);
    }
}
