use crate::wire::{Wire, next_of};
use line_cut::{Cut, Lines, ReadFault};
use port_io::{Failed, Link};
use transfer::write_all;

/// Both ends of one connection.
#[derive(Drop)]
pub struct Ends<'a, L> {
    pub link: &'a mut L,
}

impl<'a, L: Link> Wire for Ends<'a, L> {
    ghost left = { λ ends. L.left ends.link.now };

    ghost written = { λ ends. L.written ends.link.now };

    ghost read_faults = { λ ends. L.read_faults ends.link.now };

    ghost write_faults = { λ ends. L.write_faults ends.link.now };

    ghost references = { λ ends. (ends.link.ghost_name, ends.link.ghost_name) };

    fn next_line(&mut self, lines: &mut Lines) -> Result<Cut, ReadFault> {
        next_of(lines, self.link)
    }

    fn send(&mut self, bytes: &[u8]) -> Result<(), Failed> {
        write_all(self.link, bytes)
    }
}
