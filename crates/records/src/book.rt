// A book, in the bytes of its record.
ghost use Rattle.std.specs.Prelude.{◌<◌};

use crate::Table;

// Its moves, its start and its accepting states: at most 63 states, of which the start is one.
#[derive(Clone, Copy)]
pub struct Book<'a> {
    pub table: Table<'a>,
    pub start: usize,
    pub accepting: u64,
    pub ghost small: { table.states < 64 },
    pub ghost started: { start < table.states },
}
