// Reads the cases, byte by byte.
use crate::machine::{Call, Machine};
use crate::registers::Registers;
use crate::show::Output;

// What a byte of the cases belongs to.
#[derive(Clone, Copy)]
enum Mode {
    Label,
    Words,
    Source,
    // a call, of which this letter was read
    Call(u8),
}

#[derive(Drop)]
pub(crate) struct Reader {
    machine: Machine,
    mode: Mode,
    // where the source starts in the cases
    from: usize,
    // the letter of the register whose number is being read
    letter: u8,
    out: Output,
}

impl Reader {
    pub(crate) fn new(out: Output) -> Reader {
        Reader {
            machine: Machine::EMPTY,
            mode: Mode::Label,
            from: 0,
            letter: b'b',
            out,
        }
    }

    fn read_label(&mut self, byte: u8) {
        self.out.bytes(&[byte]);
        if byte == b':' {
            self.machine.registers = Registers::FRESH;
            self.mode = Mode::Words;
            self.from = 0;
            self.letter = b'b';
        }
    }

    fn start_source(&mut self, from: usize) {
        self.machine.registers.source = 0;
        self.mode = Mode::Source;
        self.from = from;
    }

    fn read_source(&mut self, byte: u8) {
        if byte == b'\'' {
            self.mode = Mode::Words;
        } else {
            let source = &mut self.machine.registers.source;
            *source = source.wrapping_add(1);
        }
    }

    fn end_case(&mut self) {
        self.out.bytes(b"\n");
        self.mode = Mode::Label;
    }

    fn start_call(&mut self, letter: u8) {
        self.out.bytes(&[b' ', letter]);
        self.mode = Mode::Call(letter);
    }

    // The number of a register starts.
    fn start_number(&mut self, letter: u8) {
        *self.machine.registers.named(letter) = 0;
        self.letter = letter;
    }

    // Reads a digit of it; one that would take the number past 2^64 is left out.
    fn add_digit(&mut self, digit: u8) {
        let n = self.machine.registers.named(self.letter);
        if *n <= usize::MAX / 10 {
            *n = (*n * 10).wrapping_add(usize::from(digit));
        }
    }

    fn read_word(&mut self, byte: u8, at: usize) {
        match byte {
            b'\n' => self.end_case(),
            b'\'' => self.start_source(at.wrapping_add(1)),
            b'0'..=b'9' => self.add_digit(byte - b'0'),
            b'a'..=b'z' => self.start_number(byte),
            b'A'..=b'Z' => self.start_call(byte),
            _ => {}
        }
    }

    // Makes the call that ends with a byte.
    fn end_call(&mut self, cases: &[u8], letter: u8, byte: u8) {
        self.out.bytes(&[byte]);
        self.mode = Mode::Words;
        let to = self.from.wrapping_add(self.machine.registers.source);
        let source = cases.get(self.from..to).unwrap_or(&[]);
        self.machine.make(Call {
            source,
            letter,
            function: byte,
            out: self.out,
        });
    }

    // Reads the byte at a place of the cases.
    pub(crate) fn read(&mut self, cases: &[u8], at: usize, byte: u8) {
        match self.mode {
            Mode::Label => self.read_label(byte),
            Mode::Words => self.read_word(byte, at),
            Mode::Source => self.read_source(byte),
            Mode::Call(letter) => self.end_call(cases, letter, byte),
        }
    }
}
