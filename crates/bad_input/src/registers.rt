// The registers of a case: a state and what a call is given.
use scanner::State;

#[derive(Clone, Copy)]
pub(crate) struct Registers {
    // base, size, place, offset, mark, line count, error count, the current line and its head,
    // which is where it starts; as numbers, since a case may give a state that no call has made
    pub(crate) state: [usize; State::NUMBERS],
    // how much is lent of the source, the table, the error list in numbers and the text area
    pub(crate) source: usize,
    pub(crate) table: usize,
    pub(crate) list: usize,
    pub(crate) area: usize,
    // what a call is given
    pub(crate) n: usize,
    pub(crate) i: usize,
    pub(crate) j: usize,
}

impl Registers {
    // What a case starts with: the state after a first scan of `x:=017` LF at base 10 in size 9, no
    // source, and buffers that have room.
    pub(crate) const FRESH: Registers = Registers {
        state: [10, 9, 1, 1, 1, 1, 0, 1, 0],
        source: 0,
        table: 2,
        list: 8,
        area: 16,
        n: 0,
        i: 0,
        j: 0,
    };

    // The register with a letter.
    pub(crate) fn named(&mut self, letter: u8) -> &mut usize {
        match letter {
            b'b' => &mut self.state[0],
            b'z' => &mut self.state[1],
            b'p' => &mut self.state[2],
            b'o' => &mut self.state[3],
            b'm' => &mut self.state[4],
            b'l' => &mut self.state[5],
            b'e' => &mut self.state[6],
            b'c' => &mut self.state[7],
            b'h' => &mut self.state[8],
            b's' => &mut self.source,
            b't' => &mut self.table,
            b'r' => &mut self.list,
            b'a' => &mut self.area,
            b'i' => &mut self.i,
            b'j' => &mut self.j,
            _ => &mut self.n,
        }
    }
}
