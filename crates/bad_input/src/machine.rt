// What calls are made on: the registers and the buffers.
use crate::registers::Registers;
use crate::show::Output;
use crate::{places, scans, texts};
use scanner::State;
use std::iter;

// A call of a case, by its two letters: of which source, and where its answer is shown.
#[derive(Clone, Copy)]
pub(crate) struct Call<'a> {
    pub(crate) source: &'a [u8],
    pub(crate) letter: u8,
    pub(crate) function: u8,
    pub(crate) out: Output,
}

#[derive(Clone, Copy)]
pub(crate) struct Machine {
    pub(crate) registers: Registers,
    table: [usize; 8],
    list: [usize; 16],
    area: [u8; 32],
}

// A sum in which every number counts by its place, modulo 2^64.
fn add(total: usize, n: usize) -> usize {
    total.wrapping_mul(3).wrapping_add(n)
}

impl Machine {
    pub(crate) const EMPTY: Machine = Machine {
        registers: Registers::FRESH,
        table: [0; 8],
        list: [0; 16],
        area: [0; 32],
    };

    // The sum of all that a call can change. Ten zeros stand for what lies between the state and
    // the buffers and no call changes. No `==` of two machines: a case prints ` changed` by this
    // sum, which can be the same after a change.
    fn sum(&self) -> usize {
        let state = self
            .registers
            .state
            .iter()
            .copied()
            .chain(iter::repeat_n(0, 10));
        let numbers = self.table.iter().chain(self.list.iter()).copied();
        let bytes = self.area.iter().map(|b| usize::from(*b));
        state.chain(numbers).chain(bytes).fold(0, add)
    }

    // Makes a call, lends it as much of each buffer as the registers say, and keeps the state after
    // it.
    fn lend(&mut self, call: Call<'_>) {
        let registers = self.registers;
        let mut table = self.table;
        let mut list = self.list;
        let mut area = self.area;
        let lent = Lent {
            table: &mut table[..registers.table.min(8)],
            list: &mut list[..registers.list.min(16)],
            area: &mut area[..registers.area.min(32)],
        };
        let state = call_lent(call, registers, lent);
        scanner::put_state(state, &mut self.registers.state);
        self.table = table;
        self.list = list;
        self.area = area;
    }

    // After the answer comes `changed` if the call changed the state or a buffer.
    fn lend_and_compare(&mut self, call: Call<'_>) {
        let before = self.sum();
        self.lend(call);
        if self.sum() != before {
            call.out.bytes(b" changed");
        }
    }

    // T: start i of the table is n.
    fn set_start(&mut self) {
        let Registers { n, i, .. } = self.registers;
        if let Some(start) = self.table.get_mut(i) {
            *start = n;
        }
    }

    // Makes a call by its two letters. They stay letters, as the cases have them; no closures fit,
    // since each call takes other arguments and shows another type.
    pub(crate) fn make(&mut self, call: Call<'_>) {
        let Registers { n, i, .. } = self.registers;
        match call.letter {
            b'U' => texts::utf8(call.source, call.function, n, i, call.out),
            b'K' => texts::kinds(call.source, call.function, n, call.out),
            b'T' => self.set_start(),
            _ => self.lend_and_compare(call),
        }
    }
}

// What a call is lent.
#[derive(Drop)]
pub(crate) struct Lent<'a> {
    pub(crate) table: &'a mut [usize],
    pub(crate) list: &'a mut [usize],
    pub(crate) area: &'a mut [u8],
}

// A call that is lent buffers; gives the state after it.
fn call_lent(call: Call<'_>, registers: Registers, lent: Lent<'_>) -> State {
    let Registers { n, i, j, .. } = registers;
    let Lent { table, list, area } = lent;
    let Call {
        source,
        letter,
        function,
        out,
    } = call;
    let state = scanner::state_in(&registers.state);
    match letter {
        b'P' => places::position(function, state, table, n, i, out),
        b'E' => places::errors(function, state, list, n, out),
        b'X' => scans::part(function, source, area, i, j, out),
        _ => match function {
            b'o' => return scans::open(source, state, table, out),
            b'c' => return scans::scan(source, state, table, list, area, out),
            _ => scans::ask(function, state, table, list, n, out),
        },
    }
    state
}
